// How far the members of a set lie from a key, and the member that lies nearest.
#![tactic(auto)]

ghost use Rattle.std.specs.Prelude.{◌≡◌, ◌<◌, length};
ghost use Rattle.model.specs.Key.{clockwise as clockwiseOf, distance as distance_of};
ghost use Rattle.model.specs.Sets.{of_bits};
ghost use Rattle.sets.specs.Within.{Within};
ghost use Rattle.leafset_nearest.specs.Span.{rank_of, span_of, span_to, Nearest};

use model::values::{Key, NodeNumber};

// What the nodes are ordered by: one of the two ways round, or the distance.
#[derive(Clone, Copy)]
pub enum Way {
    Clockwise,
    CounterClockwise,
    Either,
}

// The clockwise distance. Every distance goes through it.
pub fn clockwise(from: Key, to: Key) -> u32
    ensures value { result ≡ clockwiseOf from.0 to.0 }
{
    to.0.wrapping_sub(from.0) % 16_777_216
}

// The smaller of the two distances between the keys.
pub fn distance(from: Key, to: Key) -> u32
    ensures value { result ≡ distance_of from.0 to.0 }
{
    clockwise(from, to).min(clockwise(to, from))
}

// By distance; of two equally near, the clockwise one first.
fn rank(from: Key, to: Key) -> u32
    ensures value { result ≡ rank_of from.0 to.0 }
{
    (2 * clockwise(from, to)).min(2 * clockwise(to, from) + 1)
}

pub fn span(way: Way, from: Key, to: Key) -> u32
    ensures value { result ≡ span_of way from.0 to.0 }
{
    match way {
        Way::Clockwise => clockwise(from, to),
        Way::CounterClockwise => clockwise(to, from),
        Way::Either => rank(from, to),
    }
}

// The member of the set nearest to the key, the lowest of those equally near.
pub fn nearest(keys: &[u32], way: Way, from: Key, set: u64) -> Option<NodeNumber>
    requires members { Within (length keys.now) set }
    ensures nearest { Nearest (of_bits set) (span_to way from.0 keys.now) result }
{
    sets::members(set).min_by_key(|y| span(way, from, Key(keys[y.index()])))
}
