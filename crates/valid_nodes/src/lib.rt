// Whether the first words read: word 0 and the nodes; and whether words that belong to nothing are 0.
#![tactic(auto)]

pub mod clear;
pub mod head;
pub mod nodes;
