// Plays the scripts that the arguments name, and compares every byte of what each prints with the file of that name
// that ends in .out; and every byte of its text with the one that ends in .txt. Each has to come back from its text.
#![tactic(auto)]

mod texts;

ghost use Rattle.std.specs.Prelude.{◌≡◌, length};
ghost use Rattle.model.specs.Words.{ring_length};

use bench_session::chunks;
use bench_session::turn::Session;
use std::io;
use std::io::Read;
use std::rt::Runtime;
use word_ring::place;

// More chunks than any script has: the loop over them is proved to end.
const MOST: u64 = 0x1000_0000_0000;

// Plays the script, chunk after chunk: whether it prints just what is expected.
fn compare<R: Read>(
    script: &mut R,
    expected: &mut R,
    words: &mut [u32],
    bytes: &mut [u8],
    out: &mut [u8],
    room: &mut [u8],
) -> io::Result<bool>
    requires words { (length words.old ≡ ring_length) × (length bytes.old ≡ 4096) × (length out.old ≡ 160000)
        × (length room.old ≡ 160000) }
{
    let mut session = Session::new();
    for _ in 0..MOST {
        let next = chunks::play_next(script, session, bytes, words, out)?;
        session = next.session;
        if !test_files::are_next(expected, &out[..session.end], room)? {
            return Ok(false);
        }
        if !session.more {
            return test_files::is_at_end(expected);
        }
    }
    Ok(false)
}

// Plays the script of a name, and compares.
fn run<R: Runtime>(rt: &R, name: &str) -> io::Result<bool> {
    let mut words = [0u32; place::LENGTH];
    let mut bytes = [0u8; Session::CHUNK];
    let mut out = [0u8; Session::ROOM];
    let mut room = [0u8; Session::ROOM];
    let mut script = test_files::open(rt, name, ".bin")?;
    let mut expected = test_files::open(rt, name, ".out")?;
    compare(
        &mut script,
        &mut expected,
        &mut words,
        &mut bytes,
        &mut out,
        &mut room,
    )
}

// Whether the script of a name prints what is expected, has the text that is expected and comes back from it.
fn is_same<R: Runtime>(rt: &R, name: &str) -> io::Result<bool> {
    Ok(run(rt, name)? & texts::run(rt, name)? & texts::comes_back(rt, name)?)
}

fn main(rt: HostRuntime) -> io::Result<()> {
    test_files::run_all(&rt, is_same)
}
