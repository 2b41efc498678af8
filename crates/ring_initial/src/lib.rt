// The initial ring, document 01's fresh ring.
#![tactic(auto)]

ghost use Rattle.std.specs.Prelude.{◌≡◌, ℕ, ◌^◌, ◌<◌, ◌≤◌, length, get_or};
ghost use Rattle.model.specs.Ring.{initial};
ghost use Rattle.model.specs.Words.{ring_length, node_place, word_at, encode};
ghost use Rattle.model.specs.Structs.{table_of, RoomSides};
ghost use Rattle.model.specs.declared.values.Sides.{Sides};
ghost use Rattle.ring_ranges.specs.Spans.{Patched};
ghost use Rattle.ring_initial.specs.Rows.{Rows};

use model::values::{Key, Sides, Stamp};
use word_ring::{ClockWord, HeadWord, KeyWord, place};

// Writes the initial ring over any old words.
pub fn write(words: &mut [u32], sides: Sides, keys: &[u32])
    requires words { (length words.old ≡ ring_length) × RoomSides sides × (length keys.now ≤ 64)
        × ((s : ℕ) → get_or keys.now s 0 < 2 ^ 24) }
    ensures words { words.new ≡ encode (initial (table_of sides keys.now)) }
{
    let n = keys.len();
    ring_ranges::clear(words, 0, place::LENGTH);
    words[0] = HeadWord::new(sides, n as u32, 0).0;
    write_nodes(words, keys);
    write_pairs(words, n);
}

// Writes the nodes' words.
fn write_nodes(words: &mut [u32], keys: &[u32])
    requires words { (length words.old ≡ ring_length) × (length keys.now ≤ 64)
        × ((s : ℕ) → get_or keys.now s 0 < 2 ^ 24) }
    ensures value { (sides : Sides)
        → Patched words.old words.new (node_place 0) (node_place (length keys.now))
        (word_at (initial (table_of sides keys.now))) }
{
    let clock = ClockWord::new(Stamp(0)).0;
    for (s, key) in keys.iter().enumerate() {
        let at = place::NODES + 2 * s;
        words[at] = KeyWord::new(Key(*key), false).0;
        words[at + 1] = clock;
    }
}

// Writes the words of the pairs of n nodes; x is the number of a node.
fn write_pairs(words: &mut [u32], n: usize)
    requires length { length words.old ≡ ring_length }
    requires bounds { n ≤ 64 }
    ensures value { Rows words.old words.new n n }
{
    for x in 0..n {
        ring_pairs::clear(words, x, 0, x);
        ring_pairs::clear(words, x, x + 1, n);
    }
}
