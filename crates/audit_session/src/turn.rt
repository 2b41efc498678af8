// The turns of a session of the audit, once a ring is open: a chunk of events audited.
ghost use Rattle.std.specs.Prelude.{◌≡◌, true, false, ◌+◌, ◌^◌, ◌<◌, ◌≤◌, length, replicate};
ghost use Rattle.model.specs.Words.{decode, reads_as_ring};
ghost use Rattle.bench_lines.specs.Put.{Put};
ghost use Rattle.bench_script.specs.Chunks.{tail_of};
ghost use Rattle.audit_account.specs.Accounts.{Standing, opened};
ghost use Rattle.audit_account.specs.Whole.{tail_line};
ghost use Rattle.audit_lines.specs.Seen.{Sees};
ghost use Rattle.audit_session.specs.Turns.{end_of, played_turn};
ghost use Rattle.audit_session.specs.Sessions.{standing_of, Holds, Stepped};

use super::events;
use audit_account::{Account, Entry, Log};
use audit_event::played;
use audit_lines::Sight;
use bench_lines::{put_bytes, put_number};
use model::refusal::Refusal;

// How a session stands: whether there is more to come, whether a ring is open, the log so far, and where the bytes end
// that the last chunk put out. All four pairs of the flags occur, and the log and the end hold in each.
#[derive(Clone, Copy)]
pub struct Session {
    pub more: bool,
    pub opened: bool,
    pub log: Log,
    pub end: usize,
}

impl Session {
    // The bytes of a chunk. A shorter one is the last.
    pub const CHUNK: usize = 4096;

    // Its words.
    pub const WORDS: usize = Session::CHUNK / 4;

    // Room for what a chunk prints.
    pub const ROOM: usize = 3_000_000;

    // Before the first chunk.
    pub fn new() -> Session
        ensures session { (result.opened ≡ false) × (result.log.account ≡ opened) }
        ensures lists { (length result.log.listed ≡ 16) × (result.log.groups ≡ replicate 64 0) }
    {
        Session {
            more: true,
            opened: false,
            log: nothing(),
            end: 0,
        }
    }

    // No ring was opened.
    pub fn ended(end: usize) -> Session
        ensures session { (result.more ≡ false) × (result.opened ≡ false) × (result.log.account ≡ opened)
            × (result.end ≡ end) }
    {
        Session {
            more: false,
            opened: false,
            log: nothing(),
            end,
        }
    }
}

// The log of no events.
#[tactic(auto, unfolding(audit_account::specs::Accounts::opened))]
fn nothing() -> Log
    ensures account { result.account ≡ opened }
    ensures lists { (length result.listed ≡ 16) × (result.groups ≡ replicate 64 0) }
{
    let account = Account {
        count: 0,
        point: 0,
        uncovered: 0,
        on: false,
        off: false,
        notice: false,
        partings: 0,
        ons: 0,
        offs: 0,
        notices: 0,
    };
    Log {
        account,
        listed: [Entry { number: 0, word: 0 }; 16],
        groups: [0; 64],
    }
}

// Audits the events of a chunk, and puts its tail and the end of the account.
pub fn play(
    session: Session,
    script: &[u32],
    bytes: &[u8],
    words: &mut [u32],
    out: &mut [u8],
) -> Session
    requires session { Holds (standing_of words.old session.log) words.old session.log }
    requires room { (length script.now ≤ 1024) × (3000000 ≤ length out.old)
        × (session.log.account.count + 1025 < 2 ^ 64) }
    ensures turn { Stepped
        (played_turn (standing_of words.old session.log) script.now bytes.now)
        words.new out.old out.new result }
{
    let mut log = session.log;
    let audited = events::audit_all(words, script, &mut log, out);
    let tail_end = put_tail(words, bytes, log.account.count, out, audited);
    let more = bytes.len() == Session::CHUNK;
    let end = put_end(log.account, more, out, tail_end);
    Session {
        more,
        opened: true,
        log,
        end,
    }
}

// "A tail under 4 bytes is an event answered 4."
fn put_tail(words: &[u32], bytes: &[u8], count: u64, out: &mut [u8], at: usize) -> usize
    requires ring { reads_as_ring words.now ≡ true }
    requires room { (at + 200 ≤ length out.old) × (count + 1 < 2 ^ 64) }
    ensures bytes { (s : Standing) → decode words.now ≡ s.ring → count ≡ s.account.count
        → Put out.old out.new at result (tail_line s (tail_of bytes.now)) }
    ensures end { result ≤ at + 200 }
{
    let start = bytes.len() - bytes.len() % 4;
    if start == bytes.len() {
        return at;
    }
    let sight = see(words);
    put_tail_line(&bytes[start..], count + 1, sight, out, at)
}

// What is seen of the ring.
fn see(words: &[u32]) -> Sight
    requires ring { reads_as_ring words.now ≡ true }
    ensures sight { Sees result (decode words.now) }
{
    let mut groups = [0u64; 64];
    let view = played::look(words, &mut groups);
    view.sight
}

// Puts the line of the tail, as event `number`.
fn put_tail_line(tail: &[u8], number: u64, sight: Sight, out: &mut [u8], at: usize) -> usize
    requires room { (at + 200 ≤ length out.old) × (length tail.now < 4) × (0 < length tail.now) }
    ensures bytes { (s : Standing) → Sees sight s.ring → number ≡ s.account.count + 1
        → Put out.old out.new at result (tail_line s tail.now) }
    ensures end { result ≤ at + 200 }
{
    let first = put_number(out, at, number);
    let second = put_bytes(out, first, b" tail ");
    let third = text_describe::put_hex(out, second, tail);
    audit_lines::put_answered(out, third, Err(Refusal::NotAnEvent), sight)
}

// The last line, unless there is more to come.
fn put_end(account: Account, more: bool, out: &mut [u8], at: usize) -> usize
    requires room { at + 200 ≤ length out.old }
    ensures bytes { Put out.old out.new at result (end_of more account) }
    ensures end { result ≤ at + 200 }
{
    if more {
        return at;
    }
    audit_lines::put_end(out, at, account)
}

// Room for what a chunk prints.
pub fn room() -> [u8; Session::ROOM]
    ensures long { length result ≡ 3000000 }
{
    [0u8; Session::ROOM]
}
