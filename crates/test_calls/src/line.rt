// The lines that the program prints.
ghost use Rattle.std.specs.Prelude.{◌≡◌, length};

use super::memory;
use std::io;
use std::io::Write;
use test_lines::digests;

// What a call gives: the answer's number, and the value that comes with it, 0 where none does.
#[derive(Clone, Copy)]
pub struct Outcome {
    pub answer: u32,
    pub value: u64,
}

// Prints the line of a call: the command's number, the answer, the value, how many words the call changed, and the
// digest of all words after it.
pub fn print<W: Write>(
    output: &mut W,
    number: u32,
    outcome: Outcome,
    before: &[u32],
    words: &[u32],
) -> io::Result<()>
    requires lengths { length before.now ≡ length words.now }
{
    let changed = memory::differing(before, words);
    let digest = digests::digest(words);
    let numbers = [
        u64::from(number),
        u64::from(outcome.answer),
        outcome.value,
        changed,
        digest,
    ];
    test_lines::print(output, &numbers)
}
