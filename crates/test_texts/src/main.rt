// Makes random scripts, describes each, assembles its text, and compares the bytes: how many come back.
#![tactic(auto)]

mod make;
mod random;

ghost use Rattle.std.specs.Prelude.{◌≡◌, ◌≤◌, length, IfOk};
ghost use Rattle.text_assemble.specs.Chunks.{KeysBounded};

use std::io;
use text_assemble::chunk::ChunkRead;
use text_describe::Session;

const SCRIPTS: u64 = 10_000;

// Tries the script of a number: 1 if it comes back. Else its number is printed.
fn try_one(
    rt: &impl Print,
    number: u64,
    script: &mut [u8],
    text: &mut [u8],
    keys: &mut [u32],
    out: &mut [u8],
) -> io::Result<u64>
    requires buffers { (length script.old ≡ 16384) × (length text.old ≡ 20000) × KeysBounded keys.old
        × (length out.old ≡ 266240) }
    ensures bound { IfOk result (λ same. same ≤ 1) }
    ensures buffers { (length script.new ≡ 16384) × (length text.new ≡ 20000)
        × KeysBounded keys.new × (length out.new ≡ 266240) }
{
    let n = make::make(number, script);
    if test_trip::comes_back(&script[..n], text, keys, out) {
        return Ok(1);
    }
    println!(rt; "{number} DIFFERS")?;
    Ok(0)
}

// Tries the scripts one after the other: how many come back.
fn try_all(
    rt: &impl Print,
    script: &mut [u8],
    text: &mut [u8],
    keys: &mut [u32],
    out: &mut [u8],
) -> io::Result<u64>
    requires buffers { (length script.old ≡ 16384) × (length text.old ≡ 20000) × KeysBounded keys.old
        × (length out.old ≡ 266240) }
{
    let mut same = 0;
    for number in 0..SCRIPTS {
        same += try_one(rt, number, script, text, keys, out)?;
    }
    Ok(same)
}

fn main(rt: HostRuntime) -> io::Result<()> {
    let mut script = [0u8; test_trip::SCRIPT];
    let mut text = [0u8; Session::ROOM];
    let mut keys = [0u32; ChunkRead::KEYS];
    let mut out = [0u8; ChunkRead::ROOM];
    let same = try_all(&rt, &mut script, &mut text, &mut keys, &mut out)?;
    println!(rt; "{same} same")
}
