// A node's own record in its pairs: loaded, stored, cleared.
#![tactic(auto)]

ghost use Rattle.std.specs.Prelude.{◌≡◌, ◌+◌, ◌*◌, ◌<◌, ◌≤◌, ◌^◌, length, if◌then◌else◌};
ghost use Rattle.model.specs.Leafset.{size};
ghost use Rattle.model.specs.Words.{ring_length, decode_table};
ghost use Rattle.model.specs.Ring.{cleared};
ghost use Rattle.model.specs.Structs.{own_of, RoomNode};
ghost use Rattle.ring_pairs.specs.Loaded.{LoadedNode};
ghost use Rattle.ring_pairs.specs.Stored.{Stored};

use model::node::NodeRecord;
use model::values::{NodeNumber, Stamp};
use word_ring::{PairWord, SpareWord, place};

// The own record of node x, of n, from its last pair down. What would be x's pair with itself is read, and dropped.
pub fn load(words: &[u32], n: usize, x: NodeNumber) -> NodeRecord
    requires words { (length words.now ≡ ring_length) × (n ≡ size (decode_table words.now)) × (n ≤ 64)
        × (x.0 < n) }
    ensures loaded { LoadedNode words.now x.0 result }
{
    let mut held = 0;
    let mut candidates = 0;
    let mut spare = [NodeNumber::NONE; 64];
    let mut commit = [Stamp(0); 64];
    let me = x.index();
    // z has a place in each of two arrays, and its words have another.
    for z in (0..n).rev() {
        let at = place::PAIRS + 2 * (64 * me + z);
        let first = PairWord(words[at]);
        held = raised(held, first.held());
        candidates = raised(candidates, first.candidate());
        commit[z] = first.commit();
        spare[z] = SpareWord(words[at + 1]).spare();
    }
    commit[me] = Stamp(0);
    spare[me] = NodeNumber::NONE;
    NodeRecord {
        held: sets::without(held, x),
        candidates: sets::without(candidates, x),
        spare,
        commit,
    }
}

// The set with each member one higher, and with 0 where b is true.
fn raised(set: u64, b: bool) -> u64
    requires bounds { set < 2 ^ 63 }
    ensures value { result ≡ 2 * set + (if b then 1 else 0) }
{
    2 * set + u64::from(b)
}

// Writes the pairs of x and each z from a up to b. Bit 0 of the two sets is z's. z counts, since it has a place in each
// of three arrays.
pub fn store(words: &mut [u32], x: usize, a: usize, b: usize, own: NodeRecord)
    requires words { (length words.old ≡ ring_length) × (x < 64) × (a ≤ b) × (b ≤ 64) × RoomNode own }
    ensures value { Stored words.old words.new x a b (own_of own) }
{
    if a == b {
        return;
    }
    let mut held = own.held >> a;
    let mut candidates = own.candidates >> a;
    for z in a..b {
        let at = place::PAIRS + 2 * (64 * x + z);
        words[at] = PairWord::new(own.commit[z], held % 2 == 1, candidates % 2 == 1).0;
        words[at + 1] = SpareWord::new(own.spare[z]).0;
        held = held / 2;
        candidates = candidates / 2;
    }
}

// Clears the pairs of x and each z from a up to b: `store` of an empty record, with no record to read. z counts, since
// a proof knows nothing of what is written through `chunks_exact_mut`.
pub fn clear(words: &mut [u32], x: usize, a: usize, b: usize)
    requires words { (length words.old ≡ ring_length) × (x < 64) × (a ≤ b) × (b ≤ 64) }
    ensures value { Stored words.old words.new x a b cleared }
{
    let first = PairWord::new(Stamp(0), false, false).0;
    let second = SpareWord::new(NodeNumber::NONE).0;
    for z in a..b {
        let at = place::PAIRS + 2 * (64 * x + z);
        words[at] = first;
        words[at + 1] = second;
    }
}
