// Makes the listener's calls by commands from standard input, and prints a line for each call. The file stdout has what
// document 02's note 13 demands of them, by an implementation of its own (compare/README.md).
#![tactic(auto)]

mod command;

use model::listener::ListenerRecord;
use model::refusal::Refusal;
use model::values::NodeNumber;
use std::io;
use std::io::Write;
use test_lines::{Command, digests};

// More commands than any input has: the loop over them is proved to end.
const MOST: u32 = 1_000_000;

fn node(number: u32) -> NodeNumber {
    NodeNumber((number % 256) as u8)
}

fn empty() -> ListenerRecord {
    ListenerRecord {
        watched: 0,
        silences: [0; 64],
        windows: [0; 64],
    }
}

fn set_watched(record: &mut ListenerRecord, low: u32, high: u32) {
    record.watched = u64::from(high) * 0x1_0000_0000 + u64::from(low);
}

fn set_values(record: &mut ListenerRecord, command: Command) {
    let at = (command.a % 64) as usize;
    record.silences[at] = (command.b % 256) as u8;
    record.windows[at] = (command.c % 256) as u8;
}

// The line has the command's number, the answer, the notices, and the digest of the record after the call.
fn print<W: Write>(
    output: &mut W,
    number: u32,
    answer: u32,
    notices: u64,
    record: &ListenerRecord,
) -> io::Result<()> {
    let watched = digests::digest_set(0, record.watched);
    let silences = digests::digest_on(watched, &record.silences);
    let digest = digests::digest_on(silences, &record.windows);
    test_lines::print(
        output,
        &[u64::from(number), u64::from(answer), notices, digest],
    )
}

fn called<W: Write>(
    output: &mut W,
    number: u32,
    answer: Result<(), Refusal>,
    record: &ListenerRecord,
) -> io::Result<()> {
    print(output, number, answers::number(answer), 0, record)
}

// A tick has no answer: 0 stands for it.
fn ticked<W: Write>(output: &mut W, number: u32, record: &mut ListenerRecord) -> io::Result<()> {
    let notices = listener::tick(record);
    print(output, number, 0, notices, record)
}

fn run<W: Write>(output: &mut W, command: Command, record: &mut ListenerRecord) -> io::Result<()> {
    let number = command.number;
    match number {
        command::EMPTY => {
            *record = empty();
        }
        command::WATCHED => set_watched(record, command.a, command.b),
        command::VALUES => set_values(record, command),
        command::WATCH => {
            let answer = listener::watch(record, node(command.a));
            called(output, number, answer, record)?;
        }
        command::TICK => ticked(output, number, record)?,
        _ => {
            let answer = listener::hear(record, node(command.a));
            called(output, number, answer, record)?;
        }
    }
    Ok(())
}

fn main(rt: HostRuntime) -> io::Result<()> {
    let mut input = rt.stdin();
    let mut output = rt.stdout();
    let mut record = empty();
    for _ in 0..MOST {
        let Some(command) = test_lines::read(&mut input)? else {
            return Ok(());
        };
        run(&mut output, command, &mut record)?;
    }
    Ok(())
}
