// Texts of scripts, read a chunk at a time into lent buffers.
#![tactic(auto)]

pub mod chunk;
pub mod fault;
pub mod put;
