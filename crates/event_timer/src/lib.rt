// The event timer: what it would do, with its refusals from the state.
#![tactic(auto)]

ghost use Rattle.std.specs.Prelude.{◌≡◌, true};
ghost use Rattle.model.specs.Steps as steps;
ghost use Rattle.model.specs.Structs.{own_of};
ghost use Rattle.model.specs.Words.{decode, reads_as_ring};
ghost use Rattle.model.specs.declared.event.Event.TheVariants.{Timer};
ghost use Rattle.records.specs.Effects.{Leaves};
ghost use Rattle.event_act.specs.Acting.{IsActor};
ghost use Rattle.event_act.specs.Changes.{Decides};

use event_act::decision::Change;
use event_act::{Actor, decision};
use model::refusal::Refusal;
use model::values::NodeNumber;
use records::effect::EffectRecord;
use records::node::Node;

// Timer k at node x. 1 and above 4 no timer has a step: only the clock rises.
pub fn timer(words: &[u32], x: NodeNumber, k: u8) -> Result<Change, Refusal>
    requires ring { reads_as_ring words.now ≡ true }
    ensures decides { Decides words.now (Timer x k) result }
{
    event_act::may_act(words, x)?;
    let actor = event_act::load(words, x);
    let effect = step(words, x, k, actor);
    decision::acting(words, actor.m, None, x, actor.time, effect)
}

// The step of timer k, by the node x.
fn step(words: &[u32], x: NodeNumber, k: u8, actor: Actor) -> EffectRecord
    requires ring { reads_as_ring words.now ≡ true }
    requires actor { IsActor words.now x.0 actor }
    ensures effect { Leaves actor.n x.0 actor.time.0 result
        (steps.timer (decode words.now).table x.0 actor.time.0 (own_of actor.own) k) }
{
    let n = actor.n;
    let sides = ring_head::sides(words);
    let keys = ring_head::keys(words, n);
    let node = Node {
        keys: &keys[..n],
        sides,
        me: x,
        own: &actor.own,
    };
    step_dispatch::timer(&node, k)
}
