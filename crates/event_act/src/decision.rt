// What an event would do, decided before anything is written.
ghost use Rattle.std.specs.Prelude.{true, ◌≡◌, ◌≤◌, ◌<◌, length};
ghost use Rattle.model.specs.Leafset.{size};
ghost use Rattle.model.specs.Ring.{Ring};
ghost use Rattle.model.specs.Words.{decode_table, decode, reads_as_ring};
ghost use Rattle.event_act.specs.declared.decision.Becomes.TheVariants.{Acts};
ghost use Rattle.event_act.specs.Changes.{TakenLow, taken_out, Counts, Full, Decided, Silent};

use model::refusal::Refusal;
use model::values::{NodeNumber, Stamp};
use records::effect::{EffectRecord, count};
use records::own;
use word_ring::limit;

// What becomes of the node.
#[derive(Clone, Copy, Debug, PartialEq, Eq)]
pub enum Becomes {
    Stays,
    Starts,
    Stops,
    Acts,
}

// A message taken out, by its position, or none; then the node changed, its clock `time` where it rises; then messages
// sent by it.
#[derive(Clone, Copy)]
pub struct Change {
    pub taken: Option<usize>,
    pub node: NodeNumber,
    pub becomes: Becomes,
    pub time: Stamp,
    pub effect: EffectRecord,
}

// How many of m messages are left.
fn left(m: usize, taken: Option<usize>) -> usize
    requires taken { TakenLow m taken }
    ensures value { (ρ : Ring) → length ρ.messages ≡ m → result ≡ length (taken_out taken ρ).messages }
    ensures bound { result ≤ m }
{
    match taken {
        None => m,
        Some(_) => m - 1,
    }
}

// Whether node x, which sends `sent` messages beside the m, would have too many of the `all` that there are then. They
// are counted only where that can be.
fn sender_full(words: &[u32], m: usize, x: NodeNumber, sent: usize, all: usize) -> bool
    requires ring { (reads_as_ring words.now ≡ true) × (m ≡ length (decode words.now).messages) }
    requires bounds { sent ≤ 128 }
    ensures full { Full (decode words.now).messages x.0 sent all result }
{
    if sent == 0 {
        return false;
    }
    if all <= limit::SENDER {
        return false;
    }
    limit::SENDER < ring_messages::sent_by(words, m, x) + sent
}

// The change, on words of m messages, unless too many would be left, of all or of the node: 11 and 17.
pub fn decided(words: &[u32], m: usize, change: Change) -> Result<Change, Refusal>
    requires counts { Counts words.now m change }
    ensures decided { Decided (decode words.now) change result }
{
    let effect = change.effect;
    let sent = count(effect.first) + count(effect.second);
    let all = left(m, change.taken) + sent;
    if limit::MESSAGES < all {
        return Err(Refusal::PoolFull);
    }
    if sender_full(words, m, change.node, sent, all) {
        return Err(Refusal::SenderFull);
    }
    Ok(change)
}

// Node x acts at `time` with the effect of its step.
pub fn acting(
    words: &[u32],
    m: usize,
    taken: Option<usize>,
    x: NodeNumber,
    time: Stamp,
    effect: EffectRecord,
) -> Result<Change, Refusal>
    requires counts { Counts words.now m
        (record { taken = taken; node = x; becomes = Acts; time = time; effect = effect }) }
    ensures decided { Decided (decode words.now)
        (record { taken = taken; node = x; becomes = Acts; time = time; effect = effect }) result }
{
    decided(
        words,
        m,
        Change {
            taken,
            node: x,
            becomes: Becomes::Acts,
            time,
            effect,
        },
    )
}

// The node x becomes what it is to be and sends nothing, after a message is taken out or none.
pub fn silent(
    words: &[u32],
    m: usize,
    taken: Option<usize>,
    x: NodeNumber,
    becomes: Becomes,
    time: Stamp,
) -> Result<Change, Refusal>
    requires ring { (reads_as_ring words.now ≡ true) × (m ≡ length (decode words.now).messages) }
    requires change { TakenLow m taken × (x.0 < size (decode_table words.now)) }
    ensures decided { Silent (decode words.now) taken x becomes time result }
{
    let effect = EffectRecord::quiet(own::empty());
    decided(
        words,
        m,
        Change {
            taken,
            node: x,
            becomes,
            time,
            effect,
        },
    )
}
