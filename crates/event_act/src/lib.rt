// What every event has in common: a node that is to act, its refusals, and what is read of the words for its step; what
// an event would do, decided; and that written.
#![tactic(auto)]

pub mod decision;
pub mod write;

ghost use Rattle.std.specs.Prelude.{◌≡◌, true};
ghost use Rattle.model.specs.Answers.{answer_number, first_of};
ghost use Rattle.model.specs.Words.{decode, reads_as_ring};
ghost use Rattle.event_act.specs.Acting.{may_act, IsActor};

use model::node::NodeRecord;
use model::refusal::Refusal;
use model::values::{NodeNumber, Stamp};
use word_ring::limit;

// A node of n, with m messages in flight: `time` is its "now", `own` its own record.
#[derive(Clone, Copy)]
pub struct Actor {
    pub n: usize,
    pub m: usize,
    pub time: Stamp,
    pub own: NodeRecord,
}

// Whether node x is in the table, runs, and has a clock that can rise: 7, 8 and 10.
pub fn may_act(words: &[u32], x: NodeNumber) -> Result<(), Refusal>
    requires ring { reads_as_ring words.now ≡ true }
    ensures answer { answer_number result ≡ first_of (may_act (decode words.now) x.0) }
{
    if ring_head::nodes(words) <= x.index() {
        return Err(Refusal::OutOfTable);
    }
    if !ring_nodes::is_running(words, x) {
        return Err(Refusal::NodeOff);
    }
    if ring_nodes::clock(words, x).0 == limit::CLOCK {
        return Err(Refusal::ClockSpent);
    }
    Ok(())
}

// Node x, which may act.
pub fn load(words: &[u32], x: NodeNumber) -> Actor
    requires ring { reads_as_ring words.now ≡ true }
    requires actor { first_of (may_act (decode words.now) x.0) ≡ 0 }
    ensures actor { IsActor words.now x.0 result }
{
    let n = ring_head::nodes(words);
    let m = ring_head::messages(words);
    let clock = ring_nodes::clock(words, x).0;
    let own = ring_pairs::load(words, n, x);
    Actor {
        n,
        m,
        time: Stamp(clock + 1),
        own,
    }
}
