// An event played and noted, and what is seen after it.
ghost use Rattle.std.specs.Prelude.{◌≡◌, true, ℕ, ◌+◌, ◌<◌, ◌≤◌, ◌^◌, length};
ghost use Rattle.model.specs.Sets.{of_bits};
ghost use Rattle.model.specs.Ring.{is_running};
ghost use Rattle.model.specs.Leafset.{size};
ghost use Rattle.model.specs.Words.{decode_table, decode, reads_as_ring};
ghost use Rattle.audit_account.specs.Points.{is_point};
ghost use Rattle.audit_account.specs.Accounts.{Standing};
ghost use Rattle.audit_lines.specs.Seen.{Sees};
ghost use Rattle.audit_parting.specs.Groups.{AreGroups};
ghost use Rattle.audit_event.specs.Kept.{Few, Fresh, Long, Kept, Noted};

use super::{cause, note};
use audit_account::{Entry, Log};
use audit_lines::Sight;
use model::refusal::Refusal;
use word_event::word::EventWord;

// Plays the word, and notes and lists it in the log.
pub fn play(words: &mut [u32], word: u32, log: &mut Log) -> Result<(), Refusal>
    requires ring { reads_as_ring words.old ≡ true }
    requires account { Few log.old.account × (log.old.account.count + 1 < 2 ^ 64) }
    requires lists { Long log.old }
    ensures noted { (s : Standing) → Kept s words.old log.old
        → Noted s word words.new log.new result }
    ensures bounds { Fresh log.new.account }
    ensures ring { reads_as_ring words.new ≡ true }
    ensures lists { Long log.new × (log.new.groups ≡ log.old.groups) }
{
    let running = ring_nodes::running(words, ring_head::nodes(words));
    let harmful = cause::is_harmful(word, running);
    let answer = event_play::play_word(words, word);
    let uncovered = answer.is_ok() & harmful;
    let account = log.account;
    let entry = Entry {
        number: account.count + 1,
        word,
    };
    note::list(&mut log.listed, uncovered, account.uncovered, entry);
    log.account = note::noted(account, EventWord(word).event(), uncovered);
    answer
}

// What is seen of a ring: its numbers, how many nodes it has, which of them run, and whether the promise may begin.
#[derive(Clone, Copy)]
pub struct View {
    pub sight: Sight,
    pub nodes: usize,
    pub running: u64,
    pub point: bool,
}

// Looks at the ring, and puts its groups.
pub fn look(words: &[u32], groups: &mut [u64]) -> View
    requires ring { (reads_as_ring words.now ≡ true) × (length groups.old ≡ 64) }
    ensures groups { AreGroups (decode words.now) groups.new }
    ensures sight { Sees result.sight (decode words.now) }
    ensures running { (x : ℕ) → of_bits result.running x ≡ is_running (decode words.now) x }
    ensures nodes { (result.nodes ≡ size (decode_table words.now)) × (result.nodes ≤ 64) }
    ensures point { result.point ≡ is_point (decode words.now) }
{
    let n = ring_head::nodes(words);
    let running = ring_nodes::running(words, n);
    let flight = audit_flight::look(words, running);
    View {
        sight: Sight {
            messages: ring_head::messages(words) as u64,
            acknowledgements: u64::from(flight.acknowledgements),
            groups: u64::from(audit_parting::find(words, n, groups)),
        },
        nodes: n,
        running,
        point: flight.acknowledgements + flight.leaves == 0,
    }
}
