// A session of the bench: a script comes in by chunks of bytes, and what it prints goes out by chunks.
#![tactic(auto)]

pub mod chunks;
pub mod play;
pub mod turn;

ghost use Rattle.std.specs.Prelude.{◌≡◌, ◌+◌, ◌^◌, ◌≤◌, length};
ghost use Rattle.model.specs.Words.{ring_length, decode};
ghost use Rattle.bench_session.specs.Turns.{first_turn, words_turn, turn, Ready, Stepped};

use bench_script::loading;
use turn::Session;

// Plays the next chunk of the script, and puts what it prints at the start of `out`.
pub fn step(session: Session, bytes: &[u8], words: &mut [u32], out: &mut [u8]) -> Session
    requires session { Ready (2 ^ 63) session words.old × (length bytes.now ≤ 4096)
        × (160000 ≤ length out.old) }
    ensures turn { Stepped
        (turn session.opened session.count (decode words.old) bytes.now) words.new
        out.old out.new result }
{
    let mut script = [0u32; Session::WORDS];
    let n = loading::load(bytes, &mut script);
    take_words(session, &script[..n], bytes.len(), words, out)
}

// The words of a chunk of `size` bytes.
fn take_words(
    session: Session,
    script: &[u32],
    size: usize,
    words: &mut [u32],
    out: &mut [u8],
) -> Session
    requires session { Ready (2 ^ 63) session words.old × (length script.now ≤ 1024)
        × (160000 ≤ length out.old) }
    ensures turn { Stepped
        (words_turn session.opened session.count (decode words.old) script.now size)
        words.new out.old out.new result }
{
    if session.opened {
        return turn::play(session.count, script, size, words, out);
    }
    begin(script, size, words, out)
}

// The first chunk: opens the ring, and plays the events after the keys.
fn begin(script: &[u32], size: usize, words: &mut [u32], out: &mut [u8]) -> Session
    requires words { (length script.now ≤ 1024) × (length words.old ≡ ring_length)
        × (160000 ≤ length out.old) }
    ensures turn { Stepped (first_turn script.now size) words.new out.old
        out.new result }
{
    let opened = bench_open::open_script(script, words);
    if opened.is_err() {
        return Session {
            more: false,
            opened: false,
            count: 0,
            end: bench_lines::put_three(out, 0, 0, u64::from(answers::number(opened)), 0),
        };
    }
    let first = 1 + ring_head::nodes(words);
    turn::play(0, &script[first..], size, words, out)
}
