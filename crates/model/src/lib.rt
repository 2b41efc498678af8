// The types that contracts cite.
#![tactic(auto)]

pub mod event;
pub mod listener;
pub mod message;
pub mod node;
pub mod refusal;
pub mod screen;
pub mod timer;
pub mod values;
