// Audits the scripts that the arguments name, and compares every byte of each account with the file of that name that
// ends in .log.
#![tactic(auto)]

ghost use Rattle.std.specs.Prelude.{◌≡◌, length};

use audit_session::turn::Session;
use audit_session::{chunks, turn};
use std::io;
use std::io::Read;
use std::rt::Runtime;
use word_ring::place;

// Audits the script, which is shorter than a chunk: whether its account is just what is expected.
fn compare<R: Read>(
    script: &mut R,
    expected: &mut R,
    bytes: &mut [u8],
    out: &mut [u8],
    room: &mut [u8],
) -> io::Result<bool>
    requires room { (length bytes.old ≡ 4096) × (length out.old ≡ 3000000) × (length room.old ≡ 3000000) }
{
    let mut words = [0u32; place::LENGTH];
    let next = chunks::audit_next(script, Session::new(), bytes, &mut words, out)?;
    let session = next.session;
    let end = session.end;
    if session.more {
        return Ok(false);
    }
    if !test_files::are_next(expected, &out[..end], room)? {
        return Ok(false);
    }
    test_files::is_at_end(expected)
}

// Audits the script of a name, and compares.
fn run<R: Runtime>(rt: &R, name: &str) -> io::Result<bool> {
    let mut bytes = [0u8; Session::CHUNK];
    let mut out = turn::room();
    let mut room = turn::room();
    let mut script = test_files::open(rt, name, ".bin")?;
    let mut expected = test_files::open(rt, name, ".log")?;
    compare(&mut script, &mut expected, &mut bytes, &mut out, &mut room)
}

fn main(rt: HostRuntime) -> io::Result<()> {
    test_files::run_all(&rt, run)
}
