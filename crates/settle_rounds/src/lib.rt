// Fair rounds, what becomes of a message in them, and that they bring every node its leafset. Definitions and
// theorems, no code.
#![tactic(auto)]
