// Which nodes are connected, and in how many groups: "Two running stands are connected if steps between running stands
// lead from one to the other, each step a pair of which one holds the other; a stand is connected to itself."
#![tactic(auto)]

ghost use Rattle.std.specs.Prelude.{◌≡◌, true, not, ◌&&◌, ◌||◌, ℕ, ◌<◌, ◌≤◌, length};
ghost use Rattle.model.specs.Sets.{of_bits};
ghost use Rattle.model.specs.Leafset.{size};
ghost use Rattle.model.specs.Words.{ring_length, decode_table, decode};
ghost use Rattle.model.specs.Connection as model;
ghost use Rattle.ring_connection.specs.Links.{held_at, Closed};

use model::values::NodeNumber;
use word_ring::{PairWord, place};

// Whether x holds z.
pub fn holds(words: &[u32], x: NodeNumber, z: NodeNumber) -> bool
    requires words { (length words.now ≡ ring_length) × (x.0 < 64) × (z.0 < 64) }
    ensures value { result ≡ held_at words.now x.0 z.0 }
{
    PairWord(words[place::PAIRS + 2 * (64 * x.index() + z.index())]).held()
}

// The members of the set that x holds or that hold x.
fn neighbours(words: &[u32], x: NodeNumber, set: u64) -> u64
    requires length { length words.now ≡ ring_length }
    requires bounds { x.0 < 64 }
    ensures members { (z : ℕ)
        → of_bits result z
        ≡ (of_bits set z && (held_at words.now x.0 z || held_at words.now z x.0)) }
{
    let mut out = 0;
    for z in sets::members(set) {
        if holds(words, x, z) | holds(words, z, x) {
            out = sets::with(out, z);
        }
    }
    out
}

// The members of the set that are not connected to its member a. `todo` grows on the way.
fn apart(words: &[u32], set: u64, a: NodeNumber) -> u64
    requires words { (length words.now ≡ ring_length) × Closed (decode words.now) (of_bits set)
        × (of_bits set a.0 ≡ true) }
    ensures members { (b : ℕ)
        → of_bits result b ≡ (of_bits set b && not (model.connected (decode words.now) a.0 b)) }
{
    let mut unseen = sets::without(set, a);
    let mut todo = sets::with(0, a);
    while todo != 0 {
        let x = sets::lowest(todo);
        let found = neighbours(words, x, unseen);
        unseen -= found;
        todo = sets::rest(todo) | found;
    }
    unseen
}

// The members of the set that are connected to its member a.
pub fn group(words: &[u32], set: u64, a: NodeNumber) -> u64
    requires words { (length words.now ≡ ring_length) × Closed (decode words.now) (of_bits set)
        × (of_bits set a.0 ≡ true) }
    ensures members { (b : ℕ)
        → of_bits result b ≡ (of_bits set b && model.connected (decode words.now) a.0 b) }
{
    sets::minus(set, apart(words, set, a))
}

// Whether a and b are connected.
pub fn connected(words: &[u32], n: usize, a: NodeNumber, b: NodeNumber) -> bool
    requires words { (length words.now ≡ ring_length) × (n ≡ size (decode_table words.now)) × (n ≤ 64) × (a.0 < n)
        × (b.0 < n) }
    ensures value { result ≡ model.connected (decode words.now) a.0 b.0 }
{
    let running = ring_nodes::running(words, n);
    if !sets::has(running, a) {
        return false;
    }
    sets::has(running, b) & !sets::has(apart(words, running, a), b)
}

// "the number of connected groups of running stands": each turn takes a whole group out.
pub fn groups(words: &[u32], n: usize) -> u32
    requires words { (length words.now ≡ ring_length) × (n ≡ size (decode_table words.now)) × (n ≤ 64) }
    ensures value { result ≡ model.groups (decode words.now) }
{
    let mut groups = 0;
    let mut left = ring_nodes::running(words, n);
    while left != 0 {
        left = apart(words, left, sets::lowest(left));
        groups += 1;
    }
    groups
}
