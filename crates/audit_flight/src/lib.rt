// The messages in flight: those that decide whether the promise may begin.
#![tactic(auto)]

ghost use Rattle.std.specs.Prelude.{◌≡◌, true, ℕ, ◌≤◌};
ghost use Rattle.model.specs.Sets.{of_bits};
ghost use Rattle.model.specs.Ring.{is_running};
ghost use Rattle.model.specs.Words.{decode, reads_as_ring};
ghost use Rattle.audit_account.specs.Points as points;

use model::message::MessageType;
use word_ring::{MessageWord, place};

// How many are acknowledgements, and how many are of type 13, although their sender runs.
#[derive(Clone, Copy)]
pub struct Flight {
    pub acknowledgements: u32,
    pub leaves: u32,
}

// `running` are the nodes that run.
pub fn look(words: &[u32], running: u64) -> Flight
    requires ring { reads_as_ring words.now ≡ true }
    requires running { (x : ℕ) → of_bits running x ≡ is_running (decode words.now) x }
    ensures acknowledgements { result.acknowledgements
        ≡ points.acknowledgements (decode words.now) }
    ensures leaves { result.leaves ≡ points.late_leaves (decode words.now) }
    ensures bounds { (result.acknowledgements ≤ 1024) × (result.leaves ≤ 1024) }
{
    let m = ring_head::messages(words);
    let mut acknowledgements = 0;
    let mut leaves = 0;
    // A message has five words: i counts messages, and its place follows.
    for i in 0..m {
        let message = MessageWord(words[place::MESSAGES + 5 * i]);
        let tag = message.tag();
        acknowledgements += u32::from(tag == MessageType::PongReplace as u8);
        let late = (tag == MessageType::Leave as u8) & sets::has(running, message.sender());
        leaves += u32::from(late);
    }
    Flight {
        acknowledgements,
        leaves,
    }
}
