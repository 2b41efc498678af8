// Keys, stamps, node numbers, A and B: numbers that are never mixed up.
ghost use Rattle.std.specs.Prelude.{◌≡◌, ◌<◌, ◌^◌};

// A place on the ring of 16,777,216 places.
#[derive(Clone, Copy, Debug, PartialEq, Eq, PartialOrd, Ord)]
pub struct Key(pub u32);

// A value of one node's clock. It is compared only with stamps of the same clock.
#[derive(Clone, Copy, Debug, PartialEq, Eq, PartialOrd, Ord)]
pub struct Stamp(pub u32);

// The number of a node, document 01's stand; 64 is none. Words are loaded as they stand, with other numbers above 63
// too, so that records hold the number and no Option.
#[derive(Clone, Copy, Debug, PartialEq, Eq, PartialOrd, Ord)]
pub struct NodeNumber(pub u8);

impl NodeNumber {
    pub const NONE: NodeNumber = NodeNumber(64);

    // Its place in a list of the nodes.
    pub fn index(self) -> usize
        ensures value { result ≡ self.0 }
        ensures bound { result < 2 ^ 8 }
    {
        usize::from(self.0)
    }
}

// How many nodes a leafset has on the sides of its own: A clockwise, B counter-clockwise.
#[derive(Clone, Copy, Debug, PartialEq, Eq)]
pub struct Sides {
    pub ahead: u32,
    pub behind: u32,
}
