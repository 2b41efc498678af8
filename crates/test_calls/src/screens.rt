// The screens, by a command.
ghost use Rattle.std.specs.Prelude.{◌<◌, ◌^◌};

use super::command;
use super::events::outcome;
use super::line::Outcome;
use model::screen::{ConductorScreen, TechnicianScreen};
use test_lines::{Command, digests};

pub fn show(
    command: Command,
    words: &[u32],
    stamps: &mut [u32; 4096],
    spares: &mut [u8; 4096],
) -> Outcome {
    match command.number {
        command::CONDUCTOR => conductor(words),
        command::TECHNICIAN => technician(words, stamps, spares),
        _ => messages(words),
    }
}

fn conductor(words: &[u32]) -> Outcome {
    let reply = call_screens::conductor(words);
    outcome(
        reply,
        digest(reply.unwrap_or(call_screens::empty_conductor())),
    )
}

// The value is the digest of A, B, n, the running nodes, the keys and the leafsets.
fn digest(screen: ConductorScreen) -> u64
    ensures bound { result < 2 ^ 32 }
{
    let numbers = [screen.sides.ahead, screen.sides.behind, screen.nodes];
    let running = digests::digest_set(digests::digest(&numbers), screen.running);
    let keys = digests::digest_on(running, &screen.keys);
    digests::digest_sets(keys, &screen.leafsets)
}

// The value is the digest of what the conductor's screen has, of the candidates, the stamps and the spares.
fn technician(words: &[u32], stamps: &mut [u32; 4096], spares: &mut [u8; 4096]) -> Outcome {
    let reply = call_screens::technician(words, stamps, spares);
    let screen = reply.unwrap_or(TechnicianScreen {
        conductor: call_screens::empty_conductor(),
        candidates: [0; 64],
    });
    let candidates = digests::digest_sets(digest(screen.conductor), &screen.candidates);
    outcome(
        reply,
        digests::digest_on(digests::digest_on(candidates, &stamps[..]), &spares[..]),
    )
}

// The value has the digest of the part, then its length, four decimal digits. The call has no answer: 0 stands for it.
fn messages(words: &[u32]) -> Outcome {
    let part = call_screens::messages(words);
    Outcome {
        answer: 0,
        value: digests::digest(part) * 10_000 + (part.len() % 10_000) as u64,
    }
}
