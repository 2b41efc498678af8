// A set of nodes is a u64, "bit s for stand s".
#![tactic(auto)]

ghost use Rattle.std.specs.Prelude.{◌≡◌, not, ◌&&◌, ℕ, ◌<◌};
ghost use Rattle.model.specs.Sets.{of_bits, count};
ghost use Rattle.model.specs.Sets as model;
ghost use Rattle.sets.specs.Rest.{IsRest};

use model::values::NodeNumber;

pub mod iter;

pub use iter::members;

// Whether x is a member of the set.
pub fn has(set: u64, x: NodeNumber) -> bool
    requires bounds { x.0 < 64 }
    ensures value { result ≡ of_bits set x.0 }
{
    (set >> x.0) % 2 == 1
}

// The set with x.
pub fn with(set: u64, x: NodeNumber) -> u64
    requires bounds { x.0 < 64 }
    ensures members { of_bits result ≡ model.with (of_bits set) x.0 }
{
    set | (1 << x.0)
}

// The set without x.
pub fn without(set: u64, x: NodeNumber) -> u64
    requires bounds { x.0 < 64 }
    ensures members { of_bits result ≡ model.without (of_bits set) x.0 }
{
    set - (set & (1 << x.0))
}

// The members of a that are not in b.
pub fn minus(a: u64, b: u64) -> u64
    ensures members { of_bits result ≡ (λ (y : ℕ). of_bits a y && not (of_bits b y)) }
{
    a ^ (a & b)
}

// How many members the set has.
pub fn size(set: u64) -> u32
    ensures value { result ≡ count 64 (of_bits set) }
{
    set.count_ones()
}

// The lowest member of the set, or none.
pub fn lowest(set: u64) -> NodeNumber
    ensures value { result.0 ≡ model.lowest 64 (of_bits set) }
{
    NodeNumber(set.trailing_zeros() as u8)
}

// The set without its lowest member.
pub fn rest(set: u64) -> u64
    requires bounds { 0 < set }
    ensures rest { IsRest set result }
{
    set & (set - 1)
}
