// The public calls, by a command.
ghost use Rattle.std.specs.Prelude.{◌<◌, ◌^◌};

use super::ask::ask;
use super::events::{node, outcome};
use super::line::Outcome;
use super::{command, joins, memory, screens, shorts};
use call_open::open;
use model::values::NodeNumber;
use test_lines::{Command, digests};

pub fn call(
    command: Command,
    words: &mut [u32],
    list: &[u32],
    places: &mut [u8],
    second: &mut [u32],
    third: &mut [u32],
    stamps: &mut [u32; 4096],
    spares: &mut [u8; 4096],
) -> Outcome {
    match command.number {
        command::OPEN => opened(words, command, list),
        command::PLAY => outcome(call_play::play(words, command.a), 0),
        command::LEAFSET..=command::WRITE => ask(command, words),
        command::REPLAY => replayed(words, command, list, places),
        command::PLAY_ALL => played_all(words, command, list, places),
        command::ROUTE => routed(words, command, places),
        command::REACH => reached(words, command),
        command::CONDUCTOR..=command::MESSAGES => screens::show(command, words, stamps, spares),
        command::JOIN => joins::join(words, command, second, third),
        command::JOIN_ITSELF => joins::join_itself(words, command, second, third),
        command::SHORTEN => shorts::shorten(words, command, third),
        command::LENGTHEN => shorts::lengthen(words, command, third),
        _ => previewed(words, command, second),
    }
}

fn opened(words: &mut [u32], command: Command, list: &[u32]) -> Outcome {
    let n = memory::at_most(command.c, list);
    outcome(open(words, command.a, command.b, &list[..n]), 0)
}

// The value is the digest of all places.
fn replayed(words: &mut [u32], command: Command, list: &[u32], places: &mut [u8]) -> Outcome {
    let n = memory::at_most(command.c, list);
    let rest = &list[n..];
    let end = memory::at_most(command.d, rest);
    let keys = &list[..n];
    let answer = call_play::replay(words, command.a, command.b, keys, &rest[..end], places);
    outcome(answer, digests::digest(places))
}

// The value is the digest of all places, also of those that are not lent.
fn played_all(words: &mut [u32], command: Command, list: &[u32], places: &mut [u8]) -> Outcome {
    let script = &list[..memory::at_most(command.b, list)];
    let from = memory::at_most(command.a, script);
    let end = memory::at_most(command.c, places);
    let answer = call_play::play_all(words, &script[from..], &mut places[..end]);
    outcome(answer, digests::digest(places))
}

// The value has the digest of all places, also of those that are not lent, then end and hops, two decimal digits each.
fn routed(words: &[u32], command: Command, places: &mut [u8]) -> Outcome {
    let end = memory::at_most(command.c, places);
    let reply = call_route::route(words, node(command.a), command.b, &mut places[..end]);
    let digits = match reply {
        Ok(arrival) => digits(arrival.end, arrival.hops),
        Err(_) => digits(NodeNumber::NONE, 0),
    };
    outcome(reply, digests::digest(places) * 10_000 + digits)
}

// The value has end and hops, two decimal digits each.
fn reached(words: &[u32], command: Command) -> Outcome {
    let reply = call_reach::reach(words, node(command.a), command.b);
    let digits = match reply {
        Ok(arrival) => digits(arrival.end, arrival.hops),
        Err(_) => digits(NodeNumber::NONE, 0),
    };
    outcome(reply, digits)
}

// End and hops, two decimal digits each.
fn digits(end: NodeNumber, hops: u32) -> u64
    ensures bound { result < 2 ^ 40 }
{
    u64::from(end.0) * 100 + u64::from(hops)
}

// The value is the digest of the whole second buffer, also of the words that are not lent.
fn previewed(words: &[u32], command: Command, second: &mut [u32]) -> Outcome {
    let end = memory::at_most(command.b, second);
    let answer = call_preview::preview(words, command.a, &mut second[..end]);
    outcome(answer, digests::digest(second))
}
