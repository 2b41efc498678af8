// The calls that leave the words as they are.
use super::events::{given, node};
use super::line::Outcome;
use super::{command, events};
use model::values::NodeNumber;
use test_lines::Command;

pub fn ask(command: Command, words: &[u32]) -> Outcome {
    match command.number {
        command::LEAFSET => leafset_of(words, node(command.a)),
        command::CONNECTED => connected(words, node(command.a), node(command.b)),
        command::GROUPS => groups(words),
        command::READ => events::read(command.a),
        _ => events::write(command),
    }
}

fn leafset_of(words: &[u32], x: NodeNumber) -> Outcome {
    given(call_questions::leafset_of(words, x))
}

fn connected(words: &[u32], a: NodeNumber, b: NodeNumber) -> Outcome {
    given(call_questions::connected(words, a, b).map(u64::from))
}

fn groups(words: &[u32]) -> Outcome {
    given(call_questions::groups(words).map(u64::from))
}
