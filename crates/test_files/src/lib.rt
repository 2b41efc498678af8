// Files of a test: a script and what is expected of it have one name, and endings of their own.
#![tactic(auto)]

ghost use Rattle.std.specs.Prelude.{◌≤◌, length};

use std::io::Read;
use std::rt::{Files, Runtime};
use std::{env, fs, io};

// Opens the file of a name and an ending.
pub fn open<R: Files + Alloc>(rt: &R, name: &str, ending: &str) -> io::Result<R::File> {
    let path = format!(in rt.alloc(); "{name}{ending}")?;
    fs::open(rt, path.as_str())
}

// Whether the bytes are the next ones of the file.
pub fn are_next<R: Read>(file: &mut R, bytes: &[u8], room: &mut [u8]) -> io::Result<bool>
    requires lengths { length bytes.now ≤ length room.old }
{
    let size = bytes.len();
    let n = streams::read_full(file, &mut room[..size])?;
    Ok(bytes == &room[..n])
}

// Whether the file is at its end.
pub fn is_at_end<R: Read>(file: &mut R) -> io::Result<bool> {
    let mut byte = [0u8; 1];
    let n = streams::read_full(file, &mut byte)?;
    Ok(n == 0)
}

// Prints the line of a script: whether it gave what is expected.
pub fn print(rt: &impl Print, name: &str, same: bool) -> io::Result<()> {
    if same {
        println!(rt; "{name} same")
    } else {
        println!(rt; "{name} DIFFERS")
    }
}

// Prints how many gave what is expected.
pub fn print_count(rt: &impl Print, same: u64) -> io::Result<()> {
    println!(rt; "{same} same")
}

// Checks each argument after the first, which is the program's own, and prints its line, then how many gave what is
// expected.
pub fn run_all<R: Runtime, F: Fn(&R, &str) -> io::Result<bool>>(rt: &R, check: F) -> io::Result<()>
    requires callable { F.IsAlwaysCallable check }
{
    let mut count = 0;
    for name in env::args(rt)?.skip(1) {
        let same = check(rt, name.as_str())?;
        print(rt, name.as_str(), same)?;
        count += u64::from(same);
    }
    print_count(rt, count)
}
