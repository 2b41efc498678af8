// A node's own record.
use super::values::{NodeNumber, Stamp};

// The held and the candidate nodes as sets of bits, bit s for node s; a spare and a commit stamp for every node.
#[derive(Clone, Copy)]
pub struct NodeRecord {
    pub held: u64,
    pub candidates: u64,
    pub spare: [NodeNumber; 64],
    pub commit: [Stamp; 64],
}
