// Draws the rings of the scripts that the arguments name, and compares every byte with the file of that name that ends
// in .svg.
#![tactic(auto)]

ghost use Rattle.std.specs.Prelude.{◌≡◌, length};

use std::io;
use std::io::Read;
use std::rt::Runtime;

// Draws: whether the drawing is just what is expected.
fn compare<R: Read>(
    script: &mut R,
    expected: &mut R,
    out: &mut [u8],
    room: &mut [u8],
) -> io::Result<bool>
    requires lengths { (length out.old ≡ 1740000) × (length room.old ≡ 1740000) }
{
    let end = draw_script::draw(script, out)?;
    if !test_files::are_next(expected, &out[..end], room)? {
        return Ok(false);
    }
    test_files::is_at_end(expected)
}

// Draws the ring of a script by its name, and compares.
fn run<R: Runtime>(rt: &R, name: &str) -> io::Result<bool> {
    let mut out = [0u8; draw_ring::ROOM];
    let mut room = [0u8; draw_ring::ROOM];
    let mut script = test_files::open(rt, name, ".bin")?;
    let mut expected = test_files::open(rt, name, ".svg")?;
    compare(&mut script, &mut expected, &mut out, &mut room)
}

fn main(rt: HostRuntime) -> io::Result<()> {
    test_files::run_all(&rt, run)
}
