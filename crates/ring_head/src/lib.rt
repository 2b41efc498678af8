// What every part of a ring in lent words builds on: word 0, and the table of keys.
#![tactic(auto)]

ghost use Rattle.std.specs.Prelude.{◌≡◌, ◌^◌, ◌<◌, ◌≤◌, length, take};
ghost use Rattle.model.specs.Sets.{tabulate};
ghost use Rattle.model.specs.Leafset.{size};
ghost use Rattle.model.specs.Words.{ring_length, decode_table, decode};
ghost use Rattle.model.specs.Leafset as model;

use model::values::{Key, NodeNumber, Sides};
use word_ring::{HeadWord, KeyWord, place};

// A and B.
#[tactic(auto, unfolding(model::specs::Words::decode_table))]
pub fn sides(words: &[u32]) -> Sides
    requires length { length words.now ≡ ring_length }
    ensures value { result ≡ (decode_table words.now).sides }
{
    HeadWord(words[0]).sides()
}

// The number of nodes.
#[tactic(auto, using(crate::proofs::Decoded::size_read))]
pub fn nodes(words: &[u32]) -> usize
    requires length { length words.now ≡ ring_length }
    ensures value { result ≡ size (decode_table words.now) }
    ensures bound { result < 2 ^ 7 }
{
    HeadWord(words[0]).nodes() as usize
}

// The number of messages in flight.
#[tactic(auto, using(crate::proofs::Decoded::count_read))]
pub fn messages(words: &[u32]) -> usize
    requires length { length words.now ≡ ring_length }
    ensures value { result ≡ length (decode words.now).messages }
    ensures bound { result < 2 ^ 11 }
{
    HeadWord(words[0]).messages() as usize
}

// The key of node x.
#[tactic(auto, using(crate::proofs::Decoded::key_read))]
pub fn key(words: &[u32], x: NodeNumber) -> Key
    requires length { length words.now ≡ ring_length }
    requires bounds { x.0 < size (decode_table words.now) }
    ensures value { result.0 ≡ model.key (decode_table words.now) x.0 }
{
    KeyWord(words[place::NODES + 2 * x.index()]).key()
}

// The keys of the n nodes, node 0's first, then zeros.
pub fn keys(words: &[u32], n: usize) -> [u32; 64]
    requires words { (length words.now ≡ ring_length) × (n ≡ size (decode_table words.now)) × (n ≤ 64) }
    ensures places { length result ≡ 64 }
    ensures keys { (take n result ≡ (decode_table words.now).keys)
        × (result ≡ tabulate 64 (model.key (decode_table words.now))) }
{
    let mut keys = [0; 64];
    for (x, key) in keys[..n].iter_mut().enumerate() {
        *key = KeyWord(words[place::NODES + 2 * x]).key().0;
    }
    keys
}
