// The book behind the sums and the claim about every list of calls: definitions and theorems, and no code.
#![tactic(auto)]
