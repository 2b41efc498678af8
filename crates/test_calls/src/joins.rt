// Two rings joined, by a command.
use super::events::outcome;
use super::line::Outcome;
use super::memory;
use model::refusal::Refusal;
use test_lines::{Command, digests};

pub fn join(words: &[u32], command: Command, second: &[u32], third: &mut [u32]) -> Outcome {
    let from = memory::at_most(command.a, second);
    let end = memory::at_most(command.b, third);
    let answer = call_join::join(words, &second[..from], &mut third[..end]);
    digested(answer, second, third)
}

pub fn join_itself(words: &[u32], command: Command, second: &[u32], third: &mut [u32]) -> Outcome {
    let end = memory::at_most(command.b, third);
    let answer = call_join::join(words, words, &mut third[..end]);
    digested(answer, second, third)
}

// The value is the digest of the whole second buffer and the whole third one, also of the words that are not lent.
fn digested(answer: Result<(), Refusal>, second: &[u32], third: &[u32]) -> Outcome {
    outcome(answer, digests::digest_on(digests::digest(second), third))
}
