// A node in the words of a ring: its running mark and clock, and what an event leaves of it.
#![tactic(auto)]

ghost use Rattle.std.specs.Prelude.{◌≡◌, ℕ, ◌^◌, ◌<◌, ◌+◌, ◌≤◌, length};
ghost use Rattle.model.specs.Leafset.{size};
ghost use Rattle.model.specs.Sets.{of_bits};
ghost use Rattle.model.specs.Ring.{Ring, is_running};
ghost use Rattle.model.specs.Words.{ring_length, decode_table, decode_node, decode};
ghost use Rattle.model.specs.Play.{started, stopped};
ghost use Rattle.model.specs.Structs.{own_of, RoomNode};
ghost use Rattle.ring_head.specs.Parts.{Encodes, update, set_running, set_clock, stepped};

use model::node::NodeRecord;
use model::values::{NodeNumber, Stamp};
use word_ring::{ClockWord, KeyWord, place};

// Whether node x runs.
#[tactic(auto, using(ring_head::proofs::Decoded::running_read))]
pub fn is_running(words: &[u32], x: NodeNumber) -> bool
    requires length { length words.now ≡ ring_length }
    requires bounds { x.0 < size (decode_table words.now) }
    ensures value { result ≡ (decode_node words.now x.0).running }
{
    KeyWord(words[place::NODES + 2 * x.index()]).running()
}

// The nodes that run. x is the number of a node, and has its place.
pub fn running(words: &[u32], n: usize) -> u64
    requires words { (length words.now ≡ ring_length) × (n ≡ size (decode_table words.now)) × (n ≤ 64) }
    ensures members { (x : ℕ) → of_bits result x ≡ is_running (decode words.now) x }
{
    let mut set = 0;
    for x in 0..n {
        if KeyWord(words[place::NODES + 2 * x]).running() {
            set = sets::with(set, NodeNumber(x as u8));
        }
    }
    set
}

// The clock of node x.
#[tactic(auto, using(ring_head::proofs::Decoded::clock_read))]
pub fn clock(words: &[u32], x: NodeNumber) -> Stamp
    requires length { length words.now ≡ ring_length }
    requires bounds { x.0 < size (decode_table words.now) }
    ensures value { result.0 ≡ (decode_node words.now x.0).clock }
{
    let at = place::NODES + 2 * x.index();
    ClockWord(words[at + 1]).clock()
}

// Writes the running mark of node x.
pub fn set_running(words: &mut [u32], x: NodeNumber, running: bool)
    requires length { length words.old ≡ ring_length }
    requires bounds { x.0 < 64 }
    ensures ring { (ρ : Ring) (n m : ℕ) → Encodes words.old n m ρ → x.0 < n
        → Encodes words.new n m (update x.0 (set_running running) ρ) }
{
    let at = place::NODES + 2 * x.index();
    let key = KeyWord(words[at]).key();
    words[at] = KeyWord::new(key, running).0;
}

// Writes the clock of node x.
pub fn set_clock(words: &mut [u32], x: NodeNumber, clock: Stamp)
    requires words { (length words.old ≡ ring_length) × (x.0 < 64) × (clock.0 < 2 ^ 24) }
    ensures ring { (ρ : Ring) (n m : ℕ) → Encodes words.old n m ρ → x.0 < n
        → Encodes words.new n m (update x.0 (set_clock clock.0) ρ) }
{
    let at = place::NODES + 2 * x.index();
    words[at + 1] = ClockWord::new(clock).0;
}

// On at node x: sets the running mark, and its clock to `time`.
pub fn start(words: &mut [u32], x: NodeNumber, time: Stamp)
    requires words { (length words.old ≡ ring_length) × (x.0 < 64) × (time.0 < 2 ^ 24) }
    ensures ring { (ρ : Ring) (n m : ℕ) → Encodes words.old n m ρ → x.0 < n
        → time.0 ≡ (ρ.node x.0).clock + 1 → Encodes words.new n m (update x.0 started ρ) }
{
    set_running(words, x, true);
    set_clock(words, x, time);
}

// Off at node x, of n: clears the running mark and the own record.
pub fn stop(words: &mut [u32], n: usize, x: NodeNumber)
    requires words { (length words.old ≡ ring_length) × (n ≤ 64) × (x.0 < n) }
    ensures ring { (ρ : Ring) (m : ℕ) → Encodes words.old n m ρ
        → Encodes words.new n m (update x.0 stopped ρ) }
{
    set_running(words, x, false);
    let me = x.index();
    ring_pairs::clear(words, me, 0, me);
    ring_pairs::clear(words, me, me + 1, n);
}

// Writes what a step of node x, of n, leaves: its clock `time`, and its own record.
pub fn store(words: &mut [u32], n: usize, x: NodeNumber, time: Stamp, own: NodeRecord)
    requires words { (length words.old ≡ ring_length) × (n ≤ 64) × (x.0 < n) × (time.0 < 2 ^ 24) × RoomNode own }
    ensures ring { (ρ : Ring) (m : ℕ) → Encodes words.old n m ρ
        → Encodes words.new n m (update x.0 (stepped time.0 (own_of own)) ρ) }
{
    set_clock(words, x, time);
    let me = x.index();
    ring_pairs::store(words, me, 0, me, own);
    ring_pairs::store(words, me, me + 1, n, own);
}
