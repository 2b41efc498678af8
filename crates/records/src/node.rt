// What a step is lent of its node. A step that uses less is given only what it uses.
use model::node::NodeRecord;
use model::values::{NodeNumber, Sides};

// The table's keys, A and B, the node me of it, and the own record of that node.
#[derive(Clone, Copy)]
pub struct Node<'a> {
    pub keys: &'a [u32],
    pub sides: Sides,
    pub me: NodeNumber,
    pub own: &'a NodeRecord,
}
