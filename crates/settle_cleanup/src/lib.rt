// Links outside the leafsets go, and rings settle. Definitions and theorems, no code.
#![tactic(auto)]
