// The events of two nodes, a contact and a notice: what they would do, with their refusals from the state.
#![tactic(auto)]

ghost use Rattle.std.specs.Prelude.{◌≡◌, true};
ghost use Rattle.model.specs.Answers.{answer_number, first_of};
ghost use Rattle.model.specs.Words.{decode, reads_as_ring};
ghost use Rattle.model.specs.declared.event.Event.TheVariants.{Notice, Contact};
ghost use Rattle.event_act.specs.Changes.{Decides};
ghost use Rattle.event_contact.specs.Meeting.{may_meet};

use event_act::decision;
use event_act::decision::Change;
use model::refusal::Refusal;
use model::values::NodeNumber;

// Whether x may act on y: y is in the table too.
fn may_meet(words: &[u32], x: NodeNumber, y: NodeNumber) -> Result<(), Refusal>
    requires ring { reads_as_ring words.now ≡ true }
    ensures answer { answer_number result ≡ first_of (may_meet (decode words.now) x.0 y.0) }
{
    if ring_head::nodes(words) <= y.index() {
        return Err(Refusal::OutOfTable);
    }
    event_act::may_act(words, x)
}

pub fn contact(words: &[u32], x: NodeNumber, y: NodeNumber) -> Result<Change, Refusal>
    requires ring { reads_as_ring words.now ≡ true }
    ensures decides { Decides words.now (Contact x y) result }
{
    may_meet(words, x, y)?;
    let a = event_act::load(words, x);
    let effect = step_contact::contact(x, a.own, y);
    decision::acting(words, a.m, None, x, a.time, effect)
}

pub fn notice(words: &[u32], x: NodeNumber, z: NodeNumber) -> Result<Change, Refusal>
    requires ring { reads_as_ring words.now ≡ true }
    ensures decides { Decides words.now (Notice x z) result }
{
    may_meet(words, x, z)?;
    let a = event_act::load(words, x);
    let effect = step_contact::notice(a.own, z);
    decision::acting(words, a.m, None, x, a.time, effect)
}
