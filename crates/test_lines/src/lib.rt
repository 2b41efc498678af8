// What the test programs share: commands from standard input, digests, and the lines that they print.
#![tactic(auto)]

pub mod digests;

ghost use Rattle.std.specs.Prelude.{◌≤◌, length};

use bench_script::loading;
use std::io;
use std::io::{Read, Write};

const NEWLINE: u8 = b'\n';

// Six words: the number, a, b, c, d, and how many words of a buffer are lent to the call. A program looks at those that
// it needs.
#[derive(Clone, Copy)]
pub struct Command {
    pub number: u32,
    pub a: u32,
    pub b: u32,
    pub c: u32,
    pub d: u32,
    pub lent: u32,
}

// The next command of standard input; at its end there is none.
pub fn read<R: Read>(input: &mut R) -> io::Result<Option<Command>> {
    let mut bytes = [0u8; 24];
    let read = streams::read_full(input, &mut bytes)?;
    if read < 24 {
        return Ok(None);
    }
    let mut words = [0u32; 6];
    loading::load(&bytes, &mut words);
    Ok(Some(Command {
        number: words[0],
        a: words[1],
        b: words[2],
        c: words[3],
        d: words[4],
        lent: words[5],
    }))
}

// Prints one to five numbers as a line.
pub fn print<W: Write>(output: &mut W, numbers: &[u64]) -> io::Result<()>
    requires count { (1 ≤ length numbers.now) × (length numbers.now ≤ 5) }
{
    let mut out = [0u8; 105];
    let end = put(&mut out, numbers);
    output.write_all(&out[..end])
}

// Puts the numbers of a line at the start of `out`, and answers where they end.
fn put(out: &mut [u8], numbers: &[u64]) -> usize
    requires count { (1 ≤ length numbers.now) × (length numbers.now ≤ 5) }
    requires room { 105 ≤ length out.old }
    ensures bound { result ≤ 105 }
{
    let mut end = bench_lines::put_number(out, 0, numbers[0]);
    for n in &numbers[1..] {
        end = bench_lines::put_next(out, end, *n);
    }
    bench_lines::put_byte(out, end, NEWLINE)
}
