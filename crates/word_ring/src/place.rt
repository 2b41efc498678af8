// Where a ring's words stand: word 0, then two a node, two a pair of nodes, five a message.

// The first node's words.
pub const NODES: usize = 1;

// The first pair's.
pub const PAIRS: usize = 129;

// The oldest message's.
pub const MESSAGES: usize = 8_321;

// All of them.
pub const LENGTH: usize = 13_441;
