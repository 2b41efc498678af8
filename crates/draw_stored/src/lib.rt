// The drawing of a ring that was stored as a short ring.
#![tactic(auto)]

ghost use Rattle.std.specs.Prelude.{◌≡◌, ◌≤◌, length, IfOk, OnErr};
ghost use Rattle.model.specs.Words.{ring_length};
ghost use Rattle.draw_svg.specs.Room.{Room};

use bench_script::loading;
use draw_svg::frame;
use model::refusal::Refusal;
use std::io;
use std::io::Read;
use word_ring::place;

// One word more than any short ring has, so that a longer input is seen to be none.
const WORDS: usize = 13_314;

// Puts the drawing of the ring whose short edition is lent, or of the refusal.
fn draw_short(short: &[u32], words: &mut [u32], out: &mut [u8]) -> usize
    requires room { (length words.old ≡ ring_length) × (1740000 ≤ length out.old) }
    ensures room { Room out.old out.new 0 result 1740000 }
{
    match call_short::lengthen(short, words) {
        Ok(()) => draw_ring::put_ring(words, out),
        Err(refusal) => frame::put_refusal(out, refusal as u32),
    }
}

// The same from bytes, four a word, lowest first; a tail under 4 bytes makes no short ring.
fn draw_bytes(bytes: &[u8], out: &mut [u8]) -> usize
    requires room { (length bytes.now ≤ 53256) × (1740000 ≤ length out.old) }
    ensures room { Room out.old out.new 0 result 1740000 }
{
    if bytes.len() % 4 != 0 {
        return frame::put_refusal(out, Refusal::NotShort as u32);
    }
    let mut short = [0u32; WORDS];
    let mut words = [0u32; place::LENGTH];
    let n = loading::load(bytes, &mut short);
    draw_short(&short[..n], &mut words, out)
}

// Puts the drawing of the ring that an open file has as a short ring, or of the refusal, at the start of `out`, and
// answers where it ends. An error is one of reading the file, before anything is put.
pub fn draw<R: Read>(file: &mut R, out: &mut [u8]) -> io::Result<usize>
    requires room { 1740000 ≤ length out.old }
    ensures room { IfOk result (λ end. Room out.old out.new 0 end 1740000) }
    ensures err { OnErr result (out.new ≡ out.old) }
{
    let mut bytes = [0u8; 4 * WORDS];
    let read = streams::read_full(file, &mut bytes)?;
    Ok(draw_bytes(&bytes[..read], out))
}
