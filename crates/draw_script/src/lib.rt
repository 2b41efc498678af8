// The drawing of the ring that a script leaves. The script is played as the bench plays it; the lines are dropped.
#![tactic(auto)]

ghost use Rattle.std.specs.Prelude.{◌≡◌, ◌^◌, ◌≤◌, length, IfOk, OnErr};
ghost use Rattle.io.specs.Counts.{IsPrefixLen};
ghost use Rattle.model.specs.Words.{ring_length};
ghost use Rattle.bench_session.specs.Turns.{Ready};
ghost use Rattle.draw_svg.specs.Room.{Room};

use bench_script::loading;
use bench_session::chunks;
use bench_session::chunks::NextPlayed;
use bench_session::turn::Session;
use draw_svg::frame;
use std::io;
use std::io::Read;
use word_ring::place;

// More chunks than any script has: the loop over them is proved to end.
const MOST: u64 = 0x1000_0000_0000;

// Plays the script of an open file, chunk after chunk. How the last one was played.
fn play<R: Read>(
    file: &mut R,
    words: &mut [u32],
    bytes: &mut [u8],
    lines: &mut [u8],
) -> io::Result<NextPlayed>
    requires words { (length words.old ≡ ring_length) × (length bytes.old ≡ 4096)
        × (length lines.old ≡ 160000) }
    ensures session { IfOk result (λ last. Ready (2 ^ 63) last.session words.new) }
    ensures counts { IfOk result (λ last. IsPrefixLen last.read bytes.new × (length bytes.new ≡ 4096)) }
{
    let mut session = Session::new();
    for _ in 0..MOST {
        let next = chunks::play_next(file, session, bytes, words, lines)?;
        session = next.session;
        if !session.more {
            return Ok(next);
        }
    }
    Ok(NextPlayed { read: 0, session })
}

// The refusal of the opening by a script that begins with these bytes.
fn refusal(bytes: &[u8], words: &mut [u32]) -> u32
    requires words { (length words.old ≡ ring_length) × (length bytes.now ≤ 4096) }
{
    let mut script = [0u32; Session::WORDS];
    let n = loading::load(bytes, &mut script);
    answers::number(bench_open::open_script(&script[..n], words))
}

// Draws by the lent words, bytes and lines.
fn draw_by<R: Read>(
    file: &mut R,
    words: &mut [u32],
    bytes: &mut [u8],
    lines: &mut [u8],
    out: &mut [u8],
) -> io::Result<usize>
    requires words { (length words.old ≡ ring_length) × (length bytes.old ≡ 4096)
        × (length lines.old ≡ 160000) × (1740000 ≤ length out.old) }
    ensures room { IfOk result (λ end. Room out.old out.new 0 end 1740000) }
    ensures err { OnErr result (out.new ≡ out.old) }
{
    let last = play(file, words, bytes, lines)?;
    if last.session.opened {
        return Ok(draw_ring::put_ring(words, out));
    }
    let refusal = refusal(&bytes[..last.read], words);
    Ok(frame::put_refusal(out, refusal))
}

// Puts the drawing of the ring that the script of an open file leaves, or of the refusal, at the start of `out`, and
// answers where it ends. An error is one of reading the file, before anything is put.
pub fn draw<R: Read>(file: &mut R, out: &mut [u8]) -> io::Result<usize>
    requires room { 1740000 ≤ length out.old }
    ensures room { IfOk result (λ end. Room out.old out.new 0 end 1740000) }
    ensures err { OnErr result (out.new ≡ out.old) }
{
    let mut words = [0u32; place::LENGTH];
    let mut bytes = [0u8; Session::CHUNK];
    let mut lines = [0u8; Session::ROOM];
    draw_by(file, &mut words, &mut bytes, &mut lines, out)
}
