// A ring turned short and a short ring made long, by a command.
use super::events::outcome;
use super::line::Outcome;
use super::memory;
use test_lines::{Command, digests};

// The value has the digest of the whole third buffer, also of the words that are not lent, then the length written, in
// five decimal digits.
pub fn shorten(words: &[u32], command: Command, third: &mut [u32]) -> Outcome {
    let end = memory::at_most(command.a, third);
    let reply = call_short::shorten(words, &mut third[..end]);
    let length = u64::from(reply.unwrap_or(0) % 100_000);
    outcome(reply, digests::digest(third) * 100_000 + length)
}

pub fn lengthen(words: &mut [u32], command: Command, third: &[u32]) -> Outcome {
    let end = memory::at_most(command.a, third);
    outcome(call_short::lengthen(&third[..end], words), 0)
}
