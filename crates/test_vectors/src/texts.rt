// The texts of scripts.
ghost use Rattle.std.specs.Prelude.{◌≡◌, length};

use std::io;
use std::io::Read;
use std::rt::Runtime;
use text_assemble::chunk::ChunkRead;
use text_describe::{Session, chunks};

// More chunks than any script has: the loop over them is proved to end.
const MOST: u64 = 0x1000_0000_0000;

// Describes the script, chunk after chunk: whether it has just the text that is expected.
fn compare<R: Read>(
    script: &mut R,
    expected: &mut R,
    bytes: &mut [u8],
    text: &mut [u8],
    room: &mut [u8],
) -> io::Result<bool>
    requires lengths { (length bytes.old ≡ 4096) × (length text.old ≡ 20000) × (length room.old ≡ 20000) }
{
    let mut session = Session::new();
    for _ in 0..MOST {
        let next = chunks::describe_next(script, session, bytes, text)?;
        session = next.session;
        if !test_files::are_next(expected, &text[..session.end], room)? {
            return Ok(false);
        }
        if !session.more {
            return test_files::is_at_end(expected);
        }
    }
    Ok(false)
}

// Describes the script of a name, and compares.
pub fn run<R: Runtime>(rt: &R, name: &str) -> io::Result<bool> {
    let mut bytes = [0u8; Session::CHUNK];
    let mut text = [0u8; Session::ROOM];
    let mut room = [0u8; Session::ROOM];
    let mut script = test_files::open(rt, name, ".bin")?;
    let mut expected = test_files::open(rt, name, ".txt")?;
    compare(&mut script, &mut expected, &mut bytes, &mut text, &mut room)
}

// Whether the script of a name comes back from its text. Of a longer script that is its start.
pub fn comes_back<R: Runtime>(rt: &R, name: &str) -> io::Result<bool> {
    let mut bytes = [0u8; test_trip::SCRIPT];
    let mut text = [0u8; Session::ROOM];
    let mut keys = [0u32; ChunkRead::KEYS];
    let mut out = [0u8; ChunkRead::ROOM];
    let mut script = test_files::open(rt, name, ".bin")?;
    let n = streams::read_full(&mut script, &mut bytes)?;
    Ok(test_trip::comes_back(&bytes[..n], &mut text, &mut keys, &mut out))
}
