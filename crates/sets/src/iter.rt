// A set, member by member.
ghost use Rattle.std.specs.Prelude.{◌≡◌, ◌<◌, ◌^◌};
ghost use Rattle.std.specs.Iterator.{YieldsFirstBy, item_count};
ghost use Rattle.model.specs.Sets.{of_bits};
ghost use Rattle.model.specs.Sets as model;

use crate::{lowest, rest};
use model::values::NodeNumber;

// The members of a set in rising order; `rest` has those that are still to come.
#[derive(Clone, Copy)]
pub struct Iter {
    rest: u64,
    ghost word: { rest < 2 ^ 64 },
}

// The members of the set in rising order.
pub fn members(set: u64) -> Iter
    ensures all { result.rest ≡ set }
{
    Iter { rest: set }
}

impl Iterator for Iter {
    type Item = NodeNumber;

    ghost next_gives = { YieldsFirstBy (λ y. y.0) (λ s. model.members 64 (of_bits s.rest)) };

    ghost remaining = { item_count (λ s. model.members 64 (of_bits s.rest)) };

    fn next(&mut self) -> Option<NodeNumber> {
        if self.rest == 0 {
            return None;
        }
        let y = lowest(self.rest);
        self.rest = rest(self.rest);
        Some(y)
    }
}
