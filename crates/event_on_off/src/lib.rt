// The events on and off: what they would do, with their refusals from the state.
#![tactic(auto)]

ghost use Rattle.std.specs.Prelude.{◌≡◌, true};
ghost use Rattle.model.specs.Words.{reads_as_ring};
ghost use Rattle.model.specs.declared.event.Event.TheVariants.{On, Off};
ghost use Rattle.event_act.specs.Changes.{Decides};

use event_act::decision;
use event_act::decision::{Becomes, Change};
use model::refusal::Refusal;
use model::values::{NodeNumber, Stamp};
use word_ring::limit;

pub fn on(words: &[u32], x: NodeNumber) -> Result<Change, Refusal>
    requires ring { reads_as_ring words.now ≡ true }
    ensures decides { Decides words.now (On x) result }
{
    if ring_head::nodes(words) <= x.index() {
        return Err(Refusal::OutOfTable);
    }
    if ring_nodes::is_running(words, x) {
        return Err(Refusal::AlreadyRunning);
    }
    let clock = ring_nodes::clock(words, x).0;
    if clock == limit::CLOCK {
        return Err(Refusal::ClockSpent);
    }
    let m = ring_head::messages(words);
    decision::silent(words, m, None, x, Becomes::Starts, Stamp(clock + 1))
}

// Polite, it first sends type 13 to each held node.
pub fn off(words: &[u32], x: NodeNumber, polite: bool) -> Result<Change, Refusal>
    requires ring { reads_as_ring words.now ≡ true }
    ensures decides { Decides words.now (Off x polite) result }
{
    let n = ring_head::nodes(words);
    if n <= x.index() {
        return Err(Refusal::OutOfTable);
    }
    if !ring_nodes::is_running(words, x) {
        return Err(Refusal::NodeOff);
    }
    let m = ring_head::messages(words);
    if !polite {
        return decision::silent(words, m, None, x, Becomes::Stops, Stamp(0));
    }
    let own = ring_pairs::load(words, n, x);
    let effect = step_leave::leaving(own);
    decision::decided(
        words,
        m,
        Change {
            taken: None,
            node: x,
            becomes: Becomes::Stops,
            time: Stamp(0),
            effect,
        },
    )
}
