// The turns of a session of the bench, once a ring is open: a chunk of events played.
ghost use Rattle.std.specs.Prelude.{◌≡◌, true, false, ◌+◌, ◌^◌, ◌<◌, ◌≤◌, length};
ghost use Rattle.model.specs.Words.{ring_length, decode, reads_as_ring};
ghost use Rattle.bench_lines.specs.Decimal.{lines_bytes};
ghost use Rattle.bench_lines.specs.Put.{Put};
ghost use Rattle.bench_session.specs.Turns.{tail_lines, end_of, played_turn, Stepped};

use super::play;
use model::refusal::Refusal;

// How a session stands: whether there is more to come, whether a ring is open, how many events were played, and where
// the bytes end that the last chunk put out. All four pairs of the flags occur, and the numbers hold in each.
#[derive(Clone, Copy)]
pub struct Session {
    pub more: bool,
    pub opened: bool,
    pub count: u64,
    pub end: usize,
}

impl Session {
    // The bytes of a chunk. A shorter one is the last.
    pub const CHUNK: usize = 4096;

    // Its words.
    pub const WORDS: usize = Session::CHUNK / 4;

    // Room for what a chunk prints.
    pub const ROOM: usize = 160_000;

    // Before the first chunk.
    pub fn new() -> Session
        ensures opened { result.opened ≡ false }
        ensures count { result.count ≡ 0 }
    {
        Session {
            more: true,
            opened: false,
            count: 0,
            end: 0,
        }
    }
}

// Plays the events of a chunk of `size` bytes, `count` events having been played before.
pub fn play(count: u64, script: &[u32], size: usize, words: &mut [u32], out: &mut [u8]) -> Session
    requires ring { (length script.now ≤ 1024) × (reads_as_ring words.old ≡ true) × (160000 ≤ length out.old)
        × (count + 1025 < 2 ^ 64) }
    ensures turn { Stepped (played_turn count (decode words.old) script.now size)
        words.new out.old out.new result }
{
    let lines_end = play::play_all(words, script, count, out);
    let played = count + script.len() as u64;
    let tail_end = put_tail(words, size, played, out, lines_end);
    let more = size == Session::CHUNK;
    let end = put_end(words, more, out, tail_end);
    Session {
        more,
        opened: true,
        count: played,
        end,
    }
}

// "A tail under 4 bytes is an event answered 4."
fn put_tail(words: &[u32], size: usize, count: u64, out: &mut [u8], at: usize) -> usize
    requires words { (length words.now ≡ ring_length) × (at + 63 ≤ length out.old) × (count + 1 < 2 ^ 64) }
    ensures bytes { Put out.old out.new at result
        (lines_bytes (tail_lines count (decode words.now) size)) }
    ensures end { result ≤ at + 63 }
{
    if size % 4 == 0 {
        return at;
    }
    let refusal = answers::number::<()>(Err(Refusal::NotAnEvent));
    bench_lines::put_three(
        out,
        at,
        count + 1,
        u64::from(refusal),
        ring_head::messages(words) as u64,
    )
}

// The end of the output, unless there is more to come.
fn put_end(words: &[u32], more: bool, out: &mut [u8], at: usize) -> usize
    requires ring { reads_as_ring words.now ≡ true }
    requires room { at + 93000 ≤ length out.old }
    ensures bytes { Put out.old out.new at result (end_of more (decode words.now)) }
    ensures end { result ≤ at + 93000 }
{
    if more {
        return at;
    }
    bench_report::put_end(words, out, at)
}
