// The events deliver and lose: what they would do, with their refusals from the state.
#![tactic(auto)]

ghost use Rattle.std.specs.Prelude.{◌≡◌, true};
ghost use Rattle.model.specs.Words.{decode, reads_as_ring};
ghost use Rattle.model.specs.Steps as steps;
ghost use Rattle.model.specs.Structs.{own_of, message_of};
ghost use Rattle.model.specs.declared.event.Event.TheVariants.{Deliver, Lose};
ghost use Rattle.records.specs.Effects.{Delivered, Leaves};
ghost use Rattle.event_act.specs.Acting.{IsActor};
ghost use Rattle.event_act.specs.Changes.{Decides};
ghost use Rattle.event_message.specs.Arrivals.{taken_by};

use event_act::decision::{Becomes, Change};
use event_act::{Actor, decision};
use model::message::MessageRecord;
use model::refusal::Refusal;
use model::values::{NodeNumber, Stamp};
use records::effect::EffectRecord;
use records::node::Node;

// "Delivery takes the message out first; to a stand that is off, nothing else happens." An echo leaves it.
pub fn deliver(words: &[u32], position: u16, echo: bool) -> Result<Change, Refusal>
    requires ring { reads_as_ring words.now ≡ true }
    ensures decides { Decides words.now (Deliver position echo) result }
{
    let m = ring_head::messages(words);
    let k = position as usize;
    if m <= k {
        return Err(Refusal::OutOfTable);
    }
    let message = ring_messages::load(words, k);
    let y = message.receiver;
    if !ring_nodes::is_running(words, y) {
        return decision::silent(words, m, taken(k, echo), y, Becomes::Stays, Stamp(0));
    }
    event_act::may_act(words, y)?;
    let actor = event_act::load(words, y);
    let effect = step(words, actor, message);
    decision::acting(words, m, taken(k, echo), y, actor.time, effect)
}

// The message at k is taken out, unless it is echoed.
fn taken(k: usize, echo: bool) -> Option<usize>
    ensures value { result ≡ taken_by k echo }
{
    if echo { None } else { Some(k) }
}

// The step of the message, by its receiver.
fn step(words: &[u32], actor: Actor, message: MessageRecord) -> EffectRecord
    requires ring { (reads_as_ring words.now ≡ true) × IsActor words.now message.receiver.0 actor
        × Delivered actor.n message }
    ensures effect { Leaves actor.n message.receiver.0 actor.time.0 result
        (steps.deliver (decode words.now).table message.receiver.0 actor.time.0 (own_of actor.own)
        (message_of message)) }
{
    let n = actor.n;
    let sides = ring_head::sides(words);
    let keys = ring_head::keys(words, n);
    let node = Node {
        keys: &keys[..n],
        sides,
        me: message.receiver,
        own: &actor.own,
    };
    step_dispatch::deliver(&node, actor.time, message)
}

pub fn lose(words: &[u32], position: u16) -> Result<Change, Refusal>
    requires ring { reads_as_ring words.now ≡ true }
    ensures decides { Decides words.now (Lose position) result }
{
    let m = ring_head::messages(words);
    let k = position as usize;
    if m <= k {
        return Err(Refusal::OutOfTable);
    }
    decision::silent(words, m, Some(k), NodeNumber(0), Becomes::Stays, Stamp(0))
}
