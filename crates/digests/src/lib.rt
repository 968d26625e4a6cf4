// What hashes and digests tell of two stands: definitions and theorems, and no code.
#![tactic(auto)]
