// What the trial program prints, price lines and refusals, held to document 01's book: definitions and theorems, and no code.
#![tactic(auto)]
