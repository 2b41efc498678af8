// Leafsets as choices, and those of a ring at rest: definitions and theorems, no code.
#![tactic(auto)]
