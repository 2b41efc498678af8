// By value: an own record, messages, and what a step leaves of both.
#![tactic(auto)]

pub mod effect;
pub mod message;
pub mod node;
pub mod own;
