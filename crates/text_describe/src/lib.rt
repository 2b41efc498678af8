// The text of a script: the script comes in by chunks of bytes, and its text goes out by chunks.
#![tactic(auto)]

pub mod chunks;
pub mod opening;

ghost use Rattle.std.specs.Prelude.{◌≡◌, false, [], ◌∷◌, ◌++◌, ◌+◌, ◌*◌, ◌<◌, ◌≤◌, length};
ghost use Rattle.io.specs.Digits.{last_digits};
ghost use Rattle.bench_lines.specs.Decimal.{newline};
ghost use Rattle.bench_lines.specs.Put.{Put};
ghost use Rattle.model.specs.Answers.{is_accepted};
ghost use Rattle.model.specs.Bench.{script_answer};
ghost use Rattle.text_form.specs.Describe.{word_lines, hex_bytes, tail_text, words_text};
ghost use Rattle.text_describe.specs.Turns.{line_text, chunk_text, opens_ring, turn, Stepped};

use bench_lines::{put_byte, put_bytes};
use bench_script::loading;
use text_event::{put_raw, put_word};

const NEWLINE: u8 = b'\n';

// How a session stands: whether there is more to come, whether there was a chunk, whether the script opens a ring, and
// where the text ends that the last chunk gave.
#[derive(Clone, Copy)]
pub struct Session {
    pub more: bool,
    pub started: bool,
    pub opened: bool,
    pub end: usize,
}

// What the words of a chunk gave: whether the script opens a ring, and where their text ends.
#[derive(Clone, Copy)]
struct Given {
    opened: bool,
    end: usize,
}

impl Session {
    // The bytes of a chunk. A shorter one is the last.
    pub const CHUNK: usize = 4096;

    // Its words.
    pub const WORDS: usize = Session::CHUNK / 4;

    // Room for the text of a chunk.
    pub const ROOM: usize = 20_000;

    // Before the first chunk.
    pub fn new() -> Session
        ensures started { result.started ≡ false }
    {
        Session {
            more: true,
            started: false,
            opened: false,
            end: 0,
        }
    }
}

// Puts what the next chunk of the script gives at the start of `out`.
pub fn step(session: Session, bytes: &[u8], out: &mut [u8]) -> Session
    requires room { (length bytes.now ≤ 4096) × (20000 ≤ length out.old) }
    ensures turn { Stepped (turn session.started session.opened bytes.now)
        out.old out.new result }
{
    let mut script = [0u32; Session::WORDS];
    let n = loading::load(bytes, &mut script);
    let given = put_chunk(session, &script[..n], out);
    Session {
        more: bytes.len() == Session::CHUNK,
        started: true,
        opened: given.opened,
        end: put_tail(out, given.end, &bytes[4 * n..]),
    }
}

// Puts the words of a chunk.
fn put_chunk(session: Session, script: &[u32], out: &mut [u8]) -> Given
    requires room { (length script.now ≤ 1024) × (20000 ≤ length out.old) }
    ensures bytes { Put out.old out.new 0 result.end
        (chunk_text session.started session.opened script.now) }
    ensures opened { result.opened ≡ opens_ring session.started session.opened script.now }
    ensures end { result.end ≤ 19500 }
{
    if session.started {
        return Given {
            opened: session.opened,
            end: put_words(out, 0, script, session.opened),
        };
    }
    put_first(script, out)
}

// Puts the words of the first chunk.
fn put_first(script: &[u32], out: &mut [u8]) -> Given
    requires room { (length script.now ≤ 1024) × (20000 ≤ length out.old) }
    ensures bytes { Put out.old out.new 0 result.end (words_text script.now) }
    ensures opened { result.opened ≡ is_accepted (script_answer script.now) }
    ensures end { result.end ≤ 19500 }
{
    if !opening::opens(script) {
        return Given {
            opened: false,
            end: put_words(out, 0, script, false),
        };
    }
    let first = opening::put_opening(out, script);
    let events = 1 + opening::nodes(script);
    Given {
        opened: true,
        end: put_words(out, first, &script[events..], true),
    }
}

// Puts a line for each word.
fn put_words(out: &mut [u8], at: usize, script: &[u32], opened: bool) -> usize
    requires room { at + 17 * length script.now + 40 ≤ length out.old }
    ensures bytes { Put out.old out.new at result
        (word_lines (line_text opened) script.now) }
    ensures end { result ≤ at + 17 * length script.now }
{
    let mut end = at;
    for word in script {
        end = put_line(out, end, *word, opened);
    }
    end
}

// Puts the line of a word.
fn put_line(out: &mut [u8], at: usize, word: u32, opened: bool) -> usize
    requires room { at + 40 ≤ length out.old }
    ensures bytes { Put out.old out.new at result (line_text opened word ++ newline ∷ []) }
    ensures end { result ≤ at + 17 }
{
    let end = put_text(out, at, word, opened);
    put_byte(out, end, NEWLINE)
}

// Puts the text of a word.
fn put_text(out: &mut [u8], at: usize, word: u32, opened: bool) -> usize
    requires room { at + 40 ≤ length out.old }
    ensures bytes { Put out.old out.new at result (line_text opened word) }
    ensures end { result ≤ at + 16 }
{
    if opened {
        return put_word(out, at, word);
    }
    put_raw(out, at, word)
}

// Puts the line of the tail, unless there is none.
fn put_tail(out: &mut [u8], at: usize, tail: &[u8]) -> usize
    requires room { (at + 40 ≤ length out.old) × (length tail.now < 4) }
    ensures bytes { Put out.old out.new at result (tail_text tail.now) }
{
    if tail.is_empty() {
        return at;
    }
    let first = put_bytes(out, at, b"tail ");
    let second = put_hex(out, first, tail);
    put_byte(out, second, NEWLINE)
}

// Puts two hexadecimal digits for each byte.
pub fn put_hex(out: &mut [u8], at: usize, bytes: &[u8]) -> usize
    requires room { at + 2 * length bytes.now ≤ length out.old }
    ensures bytes { Put out.old out.new at result (hex_bytes bytes.now) }
    ensures end { result ≤ at + 2 * length bytes.now }
{
    let mut end = at;
    for byte in bytes {
        end = put_pair(out, end, *byte);
    }
    end
}

// Puts the two hexadecimal digits of a byte.
fn put_pair(out: &mut [u8], at: usize, byte: u8) -> usize
    requires room { at + 2 ≤ length out.old }
    ensures bytes { Put out.old out.new at result (last_digits 16 2 byte) }
    ensures end { result ≤ at + 2 }
{
    let mut pair = [0u8; 16];
    let k = io::hex(u64::from(byte), 2, &mut pair);
    put_bytes(out, at, &pair[..k])
}
