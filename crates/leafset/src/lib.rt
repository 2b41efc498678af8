// The leafset, and the members of a set that lie outside it.
#![tactic(auto)]

ghost use Rattle.std.specs.Prelude.{◌≡◌, ◌&&◌, not, ℕ, ◌≤◌, ltb, length};
ghost use Rattle.model.specs.Sets.{of_bits, to_bits, count};
ghost use Rattle.model.specs.Structs.{table_of, RoomSides};
ghost use Rattle.model.specs.Leafset as model;
ghost use Rattle.sets.specs.Within.{Within, InTable};
ghost use Rattle.leafset_nearest.specs.Span.{span_to};
ghost use Rattle.leafset.specs.Near.{is_near, IsLimit};

use leafset_nearest::{Way, nearest, span};
use model::values::{Key, NodeNumber, Sides};

// The limit below which the spans of the `many` nearest members lie.
fn limit(keys: &[u32], many: u32, way: Way, from: Key, set: u64) -> u32
    requires members { Within (length keys.now) set }
    requires enough { many ≤ count 64 (of_bits set) }
    ensures limit { IsLimit many (of_bits set) (span_to way from.0 keys.now) result }
{
    let mut limit = 0;
    let mut left = set;
    for _ in 0..many {
        let y = nearest(keys, way, from, left).unwrap();
        limit = span(way, from, Key(keys[y.index()])) + 1;
        left = sets::without(left, y);
    }
    limit
}

// The members of the set whose span is below the limit.
fn below(keys: &[u32], limit: u32, way: Way, from: Key, set: u64) -> u64
    requires members { Within (length keys.now) set }
    ensures members { (y : ℕ)
        → of_bits result y ≡ (of_bits set y && ltb (span_to way from.0 keys.now y) limit) }
{
    let mut out = 0;
    for y in sets::members(set) {
        if span(way, from, Key(keys[y.index()])) < limit {
            out = sets::with(out, y);
        }
    }
    out
}

// The `many` nearest members of the set.
fn near(keys: &[u32], many: u32, way: Way, from: Key, set: u64) -> u64
    requires members { Within (length keys.now) set }
    requires enough { many ≤ count 64 (of_bits set) }
    ensures members { (y : ℕ)
        → of_bits result y ≡ (of_bits set y && is_near many (of_bits set) (span_to way from.0 keys.now) y) }
{
    let limit = limit(keys, many, way, from, set);
    below(keys, limit, way, from, set)
}

// "everything if fewer than A + B are left, else the A nearest clockwise and the B nearest the other way"
pub fn leafset(keys: &[u32], sides: Sides, x: NodeNumber, set: u64) -> u64
    requires table { InTable keys.now x.0 set }
    requires sides { RoomSides sides }
    ensures value { result ≡ to_bits 64 (model.leafset (table_of sides keys.now) x.0 (of_bits set)) }
{
    let left = sets::without(set, x);
    if sets::size(left) < sides.ahead + sides.behind {
        return left;
    }
    let from = Key(keys[x.index()]);
    let ahead = near(keys, sides.ahead, Way::Clockwise, from, left);
    let behind = near(keys, sides.behind, Way::CounterClockwise, from, left);
    ahead | behind
}

pub fn outside(keys: &[u32], sides: Sides, me: NodeNumber, held: u64) -> u64
    requires table { InTable keys.now me.0 held }
    requires sides { RoomSides sides }
    ensures members { of_bits result
        ≡
        (λ (z : ℕ). of_bits held z
        && not (model.leafset (table_of sides keys.now) me.0 (of_bits held) z)) }
{
    sets::minus(held, leafset(keys, sides, me, held))
}
