// What every event keeps, over lists of words: closure, improvement, jams. Definitions and theorems, no code.
#![tactic(auto)]
