// The lines of an account, as bytes.
#![tactic(auto)]

ghost use Rattle.std.specs.Prelude.{◌≡◌, ◌++◌, ◌+◌, ◌≤◌, min, length, take};
ghost use Rattle.bench_lines.specs.Decimal.{decimal};
ghost use Rattle.bench_lines.specs.Put.{Put};
ghost use Rattle.model.specs.Answers.{number_of, answer_number};
ghost use Rattle.model.specs.Ring.{Ring};
ghost use Rattle.text_form.specs.Ascii.{ascii};
ghost use Rattle.text_form.specs.Describe.{word_text};
ghost use Rattle.audit_account.specs.Accounts.{most, answer_text, state_text};
ghost use Rattle.audit_account.specs.Accounts.{event_text, entry_text, entries_text};
ghost use Rattle.audit_account.specs.Accounts.{no_ring_text, more_text, verdict_text, end_text};
ghost use Rattle.audit_lines.specs.Seen.{Sees};

use audit_account::{Account, Entry};
use bench_lines::{put_byte, put_bytes, put_number};
use model::refusal::Refusal;
use text_event::put_word;

const NEWLINE: u8 = b'\n';

const SPACE: u8 = b' ';

// How many uncovered events a verdict lists.
pub const MOST: u64 = 16;

// How many messages are in flight, how many of them are acknowledgements, and how many groups there are.
#[derive(Clone, Copy)]
pub struct Sight {
    pub messages: u64,
    pub acknowledgements: u64,
    pub groups: u64,
}

// Puts a text, and a number after it.
pub fn put_numbered(out: &mut [u8], at: usize, text: &[u8], n: u64) -> usize
    requires room { at + length text.now + 20 ≤ length out.old }
    ensures bytes { Put out.old out.new at result (text.now ++ decimal n) }
    ensures end { result ≤ at + length text.now + 20 }
{
    let start = put_bytes(out, at, text);
    put_number(out, start, n)
}

// A refusal in words. 12 to 16, and those after 17, are no event's.
#[tactic(auto, unfolding(audit_account::specs::Accounts::answer_text))]
fn refusal_text(refusal: Refusal) -> &'static [u8]
    ensures text { result.now ≡ answer_text (number_of refusal) }
    ensures short { length result.now ≤ 60 }
{
    match refusal {
        Refusal::WrongLength => b"refused, 1: a ring buffer is not 13,441 words",
        Refusal::OpeningOutOfRange => b"refused, 2: n, A or B is out of range",
        Refusal::BadKey => b"refused, 3: a key is too big, or two are equal",
        Refusal::NotAnEvent => b"refused, 4: not an event",
        Refusal::SameNode => b"refused, 5: a node with itself",
        Refusal::NotARing => b"refused, 6: the words do not read as a ring",
        Refusal::OutOfTable => b"refused, 7: no such node, or no such message",
        Refusal::NodeOff => b"refused, 8: the node is off",
        Refusal::AlreadyRunning => b"refused, 9: the node runs already",
        Refusal::ClockSpent => b"refused, 10: the clock is spent",
        Refusal::PoolFull => b"refused, 11: more than 1,024 messages would be in flight",
        Refusal::SenderFull => b"refused, 17: a sender would have more than 256 in flight",
        Refusal::KeyOutOfRange
        | Refusal::ListTooShort
        | Refusal::SidesDiffer
        | Refusal::TablesClash
        | Refusal::TooManyMessages
        | Refusal::NotWatched
        | Refusal::NotShort
        | Refusal::PlaceTooSmall => b"",
    }
}

// Puts an answer in words.
#[tactic(auto, unfolding(audit_account::specs::Accounts::answer_text))]
fn put_answer(out: &mut [u8], at: usize, answer: Result<(), Refusal>) -> usize
    requires room { at + 60 ≤ length out.old }
    ensures bytes { Put out.old out.new at result (answer_text (answer_number answer)) }
    ensures end { result ≤ at + 60 }
{
    match answer {
        Ok(()) => put_bytes(out, at, b"accepted"),
        Err(refusal) => put_bytes(out, at, refusal_text(refusal)),
    }
}

// Puts what is in flight, and how many groups there are.
fn put_state(out: &mut [u8], at: usize, sight: Sight) -> usize
    requires room { at + 101 ≤ length out.old }
    ensures bytes { (r : Ring) → Sees sight r → Put out.old out.new at result (state_text r) }
    ensures end { result ≤ at + 101 }
{
    let first = put_numbered(out, at, b"; in flight ", sight.messages);
    let second = put_numbered(out, first, b", acknowledgements ", sight.acknowledgements);
    let third = put_numbered(out, second, b", groups ", sight.groups);
    put_byte(out, third, NEWLINE)
}

// Puts the answer, and what it leaves, after the event's text.
pub fn put_answered(out: &mut [u8], at: usize, answer: Result<(), Refusal>, sight: Sight) -> usize
    requires room { at + 163 ≤ length out.old }
    ensures bytes { (r : Ring) → Sees sight r
        → Put out.old out.new at result (ascii ": " ++ answer_text (answer_number answer) ++ state_text r) }
    ensures end { result ≤ at + 163 }
{
    let first = put_bytes(out, at, b": ");
    let second = put_answer(out, first, answer);
    put_state(out, second, sight)
}

// Puts the line of event `number`, the word.
pub fn put_event(
    out: &mut [u8],
    at: usize,
    number: u64,
    word: u32,
    answer: Result<(), Refusal>,
    sight: Sight,
) -> usize
    requires room { at + 224 ≤ length out.old }
    ensures bytes { (r : Ring) → Sees sight r
        → Put out.old out.new at result (event_text number (word_text word) (answer_number answer) r) }
    ensures end { result ≤ at + 224 }
{
    let first = put_number(out, at, number);
    let second = put_byte(out, first, SPACE);
    let third = put_word(out, second, word);
    put_answered(out, third, answer, sight)
}

// Puts the line of an uncovered event in a verdict.
fn put_entry(out: &mut [u8], at: usize, entry: Entry) -> usize
    requires room { at + 66 ≤ length out.old }
    ensures bytes { Put out.old out.new at result (entry_text entry) }
    ensures end { result ≤ at + 66 }
{
    let first = put_numbered(out, at, b"    ", entry.number);
    let second = put_byte(out, first, SPACE);
    let third = put_word(out, second, entry.word);
    put_byte(out, third, NEWLINE)
}

// Puts the lines of uncovered events.
fn put_entries(out: &mut [u8], at: usize, entries: &[Entry]) -> usize
    requires room { at + 1056 ≤ length out.old }
    requires few { length entries.now ≤ 16 }
    ensures bytes { Put out.old out.new at result (entries_text entries.now) }
    ensures end { result ≤ at + 1056 }
{
    let mut end = at;
    for entry in entries {
        end = put_entry(out, end, *entry);
    }
    end
}

// Puts how many more there are than are listed.
fn put_more(out: &mut [u8], at: usize, uncovered: u64) -> usize
    requires room { at + 34 ≤ length out.old }
    ensures bytes { Put out.old out.new at result (more_text uncovered) }
    ensures end { result ≤ at + 34 }
{
    if uncovered <= MOST {
        return at;
    }
    let first = put_numbered(out, at, b"    and ", uncovered - MOST);
    put_bytes(out, first, b" more\n")
}

// How many are listed.
pub fn listed(uncovered: u64) -> usize
    ensures value { result ≡ min uncovered most }
    ensures bound { result ≤ 16 }
{
    uncovered.min(MOST) as usize
}

// Puts the verdict: the last point, and the events since it that the promise does not cover, of which the first are in
// `entries`.
pub fn put_verdict(out: &mut [u8], at: usize, account: Account, entries: &[Entry]) -> usize
    requires room { at + 1180 ≤ length out.old }
    requires entries { length entries.now ≡ 16 }
    ensures bytes { Put out.old out.new at result
        (verdict_text account (take (min account.uncovered most) entries.now)) }
    ensures end { result ≤ at + 1180 }
{
    let first = put_numbered(
        out,
        at,
        b"  the promise last began after event ",
        account.point,
    );
    let second = put_bytes(out, first, b"; it does not cover, since then:\n");
    let third = put_entries(out, second, &entries[..listed(account.uncovered)]);
    put_more(out, third, account.uncovered)
}

// Puts the last line.
pub fn put_end(out: &mut [u8], at: usize, account: Account) -> usize
    requires room { at + 200 ≤ length out.old }
    ensures bytes { Put out.old out.new at result (end_text account) }
    ensures end { result ≤ at + 200 }
{
    if account.partings == 0 {
        return put_bytes(out, at, b"never parted\n");
    }
    let first = put_numbered(out, at, b"times parted: ", account.partings);
    let second = put_numbered(out, first, b"; an on in the verdict: ", account.ons);
    let third = put_numbered(out, second, b", an off: ", account.offs);
    let fourth = put_numbered(out, third, b", a wrong notice: ", account.notices);
    put_byte(out, fourth, NEWLINE)
}

// Puts the line of a script that opens no ring. The number of the refusal is what is printed.
pub fn put_no_ring(out: &mut [u8], at: usize, refusal: u32) -> usize
    requires room { at + 70 ≤ length out.old }
    ensures bytes { Put out.old out.new at result (no_ring_text refusal) }
    ensures end { result ≤ at + 70 }
{
    if refusal == 2 {
        return put_bytes(
            out,
            at,
            b"no ring: refused, 2: the first word is at fault, or a key is missing\n",
        );
    }
    put_bytes(
        out,
        at,
        b"no ring: refused, 3: a key is at fault, or two are equal\n",
    )
}
