// A change that was decided, written over the ring's words.
ghost use Rattle.std.specs.Prelude.{◌≡◌, ℕ, ◌+◌, ◌^◌, ◌<◌, ◌≤◌, length};
ghost use Rattle.model.specs.Ring.{Ring};
ghost use Rattle.model.specs.Words.{ring_length, encode, decode};
ghost use Rattle.model.specs.Structs.{own_of, RoomNode};
ghost use Rattle.ring_head.specs.Parts.{Encodes};
ghost use Rattle.event_act.specs.declared.decision.Becomes.TheVariants.{Starts};
ghost use Rattle.event_act.specs.Changes.{TakenLow, taken_out, node_changed, changed, Writable};

use super::decision::{Becomes, Change};
use model::node::NodeRecord;
use model::values::{NodeNumber, Stamp};

// Takes the message out of m. How many are left.
fn take_out(words: &mut [u32], m: usize, taken: Option<usize>) -> usize
    requires words { (length words.old ≡ ring_length) × (m ≤ 1024) × TakenLow m taken }
    ensures ring { (ρ : Ring) (n : ℕ) → Encodes words.old n m ρ
        → Encodes words.new n result (taken_out taken ρ) }
{
    match taken {
        None => m,
        Some(k) => {
            ring_messages::remove(words, m, k);
            m - 1
        }
    }
}

// Node x, of n, becomes what it is to be.
fn write_node(
    words: &mut [u32],
    n: usize,
    x: NodeNumber,
    becomes: Becomes,
    time: Stamp,
    own: NodeRecord,
)
    requires words { (length words.old ≡ ring_length) × (n ≤ 64) × (x.0 < n) × (time.0 < 2 ^ 24) × RoomNode own }
    ensures ring { (ρ : Ring) (m : ℕ) → Encodes words.old n m ρ
        → (becomes ≡ Starts → time.0 ≡ (ρ.node x.0).clock + 1)
        → Encodes words.new n m (node_changed becomes x.0 time.0 (own_of own) ρ) }
{
    match becomes {
        Becomes::Stays => {}
        Becomes::Starts => ring_nodes::start(words, x, time),
        Becomes::Stops => ring_nodes::stop(words, n, x),
        Becomes::Acts => ring_nodes::store(words, n, x, time, own),
    }
}

pub fn write(words: &mut [u32], change: Change)
    requires change { Writable words.old change }
    ensures words { words.new ≡ encode (changed change (decode words.old)) }
{
    let n = ring_head::nodes(words);
    let m = ring_head::messages(words);
    let x = change.node;
    let time = change.time;
    let becomes = change.becomes;
    let effect = change.effect;
    let own = effect.own;
    let left = take_out(words, m, change.taken);
    write_node(words, n, x, becomes, time, own);
    let sent = ring_messages::send(words, left, x, time, own, effect.first);
    ring_messages::send(words, sent, x, time, own, effect.second);
}
