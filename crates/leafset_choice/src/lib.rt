// Choices by nearness: the successor, whether a node passes zero, and the spare that type 7 offers.
#![tactic(auto)]

ghost use Rattle.std.specs.Prelude.{◌≡◌, ◌<◌, true, length, IfSome};
ghost use Rattle.model.specs.Sets.{of_bits};
ghost use Rattle.model.specs.Structs.{table_of, RoomSides};
ghost use Rattle.model.specs.declared.values.Sides.{Sides};
ghost use Rattle.model.specs.Leafset as model;
ghost use Rattle.sets.specs.Within.{InTable};
ghost use Rattle.sets.specs.Numbers.{number_or_none};

use leafset::leafset;
use leafset_nearest::{Way, clockwise, distance, nearest};
use model::values::{Key, NodeNumber, Sides};

// "a stand's successor is its held stand nearest clockwise"; none for a node that holds nobody
pub fn successor(keys: &[u32], x: NodeNumber, held: u64) -> Option<NodeNumber>
    requires table { InTable keys.now x.0 held }
    ensures value { (sides : Sides)
        → number_or_none result ≡ model.successor (table_of sides keys.now) x.0 (of_bits held) }
    ensures member { IfSome result (λ y. of_bits held y.0 ≡ true) }
{
    nearest(keys, Way::Clockwise, Key(keys[x.index()]), held)
}

// "it passes zero when the stand's clockwise distance to key 0 is below that to the successor; one that holds nobody
// doesn't pass zero"
pub fn passes_zero(keys: &[u32], x: NodeNumber, held: u64) -> bool
    requires table { InTable keys.now x.0 held }
    ensures value { (sides : Sides)
        → result ≡ model.passes_zero (table_of sides keys.now) x.0 (of_bits held) }
{
    let Some(next) = successor(keys, x, held) else {
        return false;
    };
    let from = Key(keys[x.index()]);
    clockwise(from, Key(0)) < clockwise(from, Key(keys[next.index()]))
}

// "the member of my leafset, other than a, nearest to a and strictly nearer to a than I am; of two equally near, the
// clockwise one from a; else 64", at x
pub fn closest(
    keys: &[u32],
    sides: Sides,
    x: NodeNumber,
    held: u64,
    a: NodeNumber,
) -> Option<NodeNumber>
    requires table { InTable keys.now x.0 held × RoomSides sides × (a.0 < length keys.now) }
    ensures value { number_or_none result
        ≡ model.closest (table_of sides keys.now) x.0 (of_bits held) a.0 }
    ensures member { IfSome result (λ y. y.0 < length keys.now) }
{
    let others = sets::without(leafset(keys, sides, x, held), a);
    let from = Key(keys[a.index()]);
    let y = nearest(keys, Way::Either, from, others)?;
    let is_nearer = distance(from, Key(keys[y.index()])) < distance(from, Key(keys[x.index()]));
    if is_nearer { Some(y) } else { None }
}
