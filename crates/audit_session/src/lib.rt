// A session of the audit: a script comes in by chunks of bytes, and its account goes out by chunks.
#![tactic(auto)]

pub mod chunks;
pub mod events;
pub mod turn;

ghost use Rattle.std.specs.Prelude.{◌≡◌, ◌≤◌, ◌^◌, length};
ghost use Rattle.model.specs.Words.{ring_length};
ghost use Rattle.audit_session.specs.Turns.{first_turn, words_turn, audit_turn};
ghost use Rattle.audit_session.specs.Sessions.{standing_of, Ready, Stepped};

use bench_script::loading;
use turn::Session;

// Audits the next chunk of the script, and puts what it prints at the start of `out`.
pub fn step(session: Session, bytes: &[u8], words: &mut [u32], out: &mut [u8]) -> Session
    requires session { Ready (2 ^ 63) session words.old }
    requires room { (length bytes.now ≤ 4096) × (3000000 ≤ length out.old) }
    ensures turn { Stepped
        (audit_turn session.opened
        (standing_of words.old session.log)
        bytes.now)
        words.new out.old out.new result }
{
    let mut script = [0u32; Session::WORDS];
    let n = loading::load(bytes, &mut script);
    take_words(session, &script[..n], bytes, words, out)
}

// The words of a chunk.
fn take_words(
    session: Session,
    script: &[u32],
    bytes: &[u8],
    words: &mut [u32],
    out: &mut [u8],
) -> Session
    requires session { Ready (2 ^ 63) session words.old }
    requires room { (length script.now ≤ 1024) × (3000000 ≤ length out.old) }
    ensures turn { Stepped
        (words_turn session.opened
        (standing_of words.old session.log)
        script.now bytes.now)
        words.new out.old out.new result }
{
    if session.opened {
        return turn::play(session, script, bytes, words, out);
    }
    begin(script, bytes, words, out)
}

// The first chunk: opens the ring, and audits the events after the keys.
fn begin(script: &[u32], bytes: &[u8], words: &mut [u32], out: &mut [u8]) -> Session
    requires words { length words.old ≡ ring_length }
    requires room { (length script.now ≤ 1024) × (3000000 ≤ length out.old) }
    ensures turn { Stepped (first_turn script.now bytes.now)
        words.new out.old out.new result }
{
    if let Err(refusal) = bench_open::open_script(script, words) {
        let number = answers::number::<()>(Err(refusal));
        return Session::ended(audit_lines::put_no_ring(out, 0, number));
    }
    let first = 1 + ring_head::nodes(words);
    turn::play(Session::new(), &script[first..], bytes, words, out)
}
