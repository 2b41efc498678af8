// The bench program: plays the script on standard input, and prints what came of it.
#![tactic(auto)]

ghost use Rattle.std.specs.Prelude.{◌≡◌, length};
ghost use Rattle.model.specs.Words.{ring_length};

use bench_session::chunks;
use bench_session::turn::Session;
use std::io;
use std::io::{Read, Write};
use word_ring::place;

// More chunks than any script has.
const MOST: u64 = 0x1000_0000_0000;

// Plays chunk after chunk, and prints.
fn run<R: Read, W: Write>(
    input: &mut R,
    output: &mut W,
    words: &mut [u32],
    bytes: &mut [u8],
    out: &mut [u8],
) -> io::Result<()>
    requires words { (length words.old ≡ ring_length) × (length bytes.old ≡ 4096) × (length out.old ≡ 160000) }
{
    let mut session = Session::new();
    for _ in 0..MOST {
        let next = chunks::play_next(input, session, bytes, words, out)?;
        session = next.session;
        output.write_all(&out[..session.end])?;
        if !session.more {
            return Ok(());
        }
    }
    Ok(())
}

fn main(rt: HostRuntime) -> io::Result<()> {
    let mut words = [0u32; place::LENGTH];
    let mut bytes = [0u8; Session::CHUNK];
    let mut out = [0u8; Session::ROOM];
    run(
        &mut rt.stdin(),
        &mut rt.stdout(),
        &mut words,
        &mut bytes,
        &mut out,
    )
}
