// Runs the public calls by commands from standard input, and prints a line for each call. The file stdout has what
// document 01 demands of them, by an implementation of its own (compare/README.md).
#![tactic(auto)]

mod ask;
mod calls;
mod command;
mod events;
mod joins;
mod line;
mod memory;
mod screens;
mod shorts;

ghost use Rattle.std.specs.Prelude.{◌≡◌, length};

use std::io;
use std::io::{Read, Write};
use test_lines::Command;
use word_ring::place;

// Each buffer has one word more than a ring.
const WORDS: usize = place::LENGTH + 1;

// More commands than any input has: the loop over them is proved to end.
const MOST: u32 = 1_000_000;

// A call, with its line.
fn call<W: Write>(
    output: &mut W,
    command: Command,
    words: &mut [u32],
    list: &[u32],
    places: &mut [u8],
    second: &mut [u32],
    third: &mut [u32],
    stamps: &mut [u32; 4096],
    spares: &mut [u8; 4096],
) -> io::Result<()>
    requires length { length words.old ≡ 13442 }
{
    let mut before = [0u32; WORDS];
    before.copy_from_slice(words);
    let end = memory::at_most(command.lent, words);
    let outcome = calls::call(
        command,
        &mut words[..end],
        list,
        places,
        second,
        third,
        stamps,
        spares,
    );
    line::print(output, command.number, outcome, &before, words)
}

fn run<W: Write>(
    output: &mut W,
    command: Command,
    words: &mut [u32],
    list: &mut [u32],
    places: &mut [u8],
    second: &mut [u32],
    third: &mut [u32],
    stamps: &mut [u32; 4096],
    spares: &mut [u8; 4096],
) -> io::Result<()>
    requires lengths { (length words.old ≡ 13442) × (length second.old ≡ 13442) × (length third.old ≡ 13442) }
{
    match command.number {
        command::FILL_WORDS => memory::fill(words, command.a, command.b, command.c),
        command::FILL_LIST => memory::fill(list, command.a, command.b, command.c),
        command::FILL_SECOND => memory::fill(second, command.a, command.b, command.c),
        command::FILL_THIRD => memory::fill(third, command.a, command.b, command.c),
        command::KEEP => second.copy_from_slice(words),
        command::TAKE => words.copy_from_slice(third),
        command::FILL_SCREEN => memory::fill_all(stamps, spares, command.a, command.b),
        _ => {
            return call(
                output, command, words, list, places, second, third, stamps, spares,
            );
        }
    }
    Ok(())
}

fn run_all<R: Read, W: Write>(
    input: &mut R,
    output: &mut W,
    words: &mut [u32],
    list: &mut [u32],
    places: &mut [u8],
    second: &mut [u32],
    third: &mut [u32],
    stamps: &mut [u32; 4096],
    spares: &mut [u8; 4096],
) -> io::Result<()>
    requires lengths { (length words.old ≡ 13442) × (length second.old ≡ 13442) × (length third.old ≡ 13442) }
{
    for _ in 0..MOST {
        let Some(command) = test_lines::read(input)? else {
            return Ok(());
        };
        run(
            output, command, words, list, places, second, third, stamps, spares,
        )?;
    }
    Ok(())
}

// The list has keys, and after them a script; or a script alone. The places take the answers of its words, or the
// nodes of a route. The second buffer is for previews and, with the third, for joins; the third takes short rings, too.
// Stamps and spares are the technician's.
fn main(rt: HostRuntime) -> io::Result<()> {
    let mut words = [0u32; WORDS];
    let mut list = [0u32; 1200];
    let mut places = [0u8; 1040];
    let mut second = [0u32; WORDS];
    let mut third = [0u32; WORDS];
    let mut stamps = [0u32; 4096];
    let mut spares = [0u8; 4096];
    run_all(
        &mut rt.stdin(),
        &mut rt.stdout(),
        &mut words,
        &mut list,
        &mut places,
        &mut second,
        &mut third,
        &mut stamps,
        &mut spares,
    )
}
