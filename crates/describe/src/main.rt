// The program describe: the script on standard input, its text on standard output.
#![tactic(auto)]

ghost use Rattle.std.specs.Prelude.{◌≡◌, length};

use std::io;
use std::io::{Read, Write};
use text_describe::{Session, chunks};

// More chunks than any script has.
const MOST: u64 = 0x1000_0000_0000;

// Describes chunk after chunk, and writes.
fn run<R: Read, W: Write>(
    input: &mut R,
    output: &mut W,
    bytes: &mut [u8],
    out: &mut [u8],
) -> io::Result<()>
    requires lengths { (length bytes.old ≡ 4096) × (length out.old ≡ 20000) }
{
    let mut session = Session::new();
    for _ in 0..MOST {
        let next = chunks::describe_next(input, session, bytes, out)?;
        session = next.session;
        output.write_all(&out[..session.end])?;
        if !session.more {
            return Ok(());
        }
    }
    Ok(())
}

fn main(rt: HostRuntime) -> io::Result<()> {
    let mut bytes = [0u8; Session::CHUNK];
    let mut out = [0u8; Session::ROOM];
    run(&mut rt.stdin(), &mut rt.stdout(), &mut bytes, &mut out)
}
