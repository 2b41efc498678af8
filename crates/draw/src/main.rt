// The drawing program: plays the script on standard input, and draws the ring that it leaves as an SVG.
#![tactic(auto)]

ghost use Rattle.std.specs.Prelude.{◌≡◌, length};

use std::io;
use std::io::{Read, Write};

// As in `show` but for the one call: each is a program of its own.
fn run<R: Read, W: Write>(input: &mut R, output: &mut W, out: &mut [u8]) -> io::Result<()>
    requires room { length out.old ≡ 1740000 }
{
    let end = draw_script::draw(input, out)?;
    output.write_all(&out[..end])
}

fn main(rt: HostRuntime) -> io::Result<()> {
    let mut out = [0u8; draw_ring::ROOM];
    run(&mut rt.stdin(), &mut rt.stdout(), &mut out)
}
