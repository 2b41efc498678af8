// Reading and writing event words, by a command.
use super::line::Outcome;
use model::event::Event;
use model::refusal::Refusal;
use model::values::NodeNumber;
use test_lines::Command;
use word_event::word::EventKind;

// The answer with a value that comes with it, refused or not.
pub fn outcome<T: Copy>(answer: Result<T, Refusal>, value: u64) -> Outcome {
    Outcome {
        answer: answers::number(answer),
        value,
    }
}

// The answer with the value that it gives, 0 where it refuses.
pub fn given(answer: Result<u64, Refusal>) -> Outcome {
    outcome(answer, answer.unwrap_or(0))
}

pub fn node(number: u32) -> NodeNumber {
    NodeNumber((number % 256) as u8)
}

// The value has the event's kind and its two parts, four decimal digits each.
pub fn read(word: u32) -> Outcome {
    given(word_event::read_event(word).map(spelt))
}

fn spelt(e: Event) -> u64 {
    match e {
        Event::On(x) => digits(EventKind::On, u16::from(x.0), 0),
        Event::Off(x, polite) => digits(EventKind::Off, u16::from(x.0), u16::from(polite)),
        Event::Notice(x, z) => digits(EventKind::Notice, u16::from(x.0), u16::from(z.0)),
        Event::Contact(x, y) => digits(EventKind::Contact, u16::from(x.0), u16::from(y.0)),
        Event::Timer(x, k) => digits(EventKind::Timer, u16::from(x.0), u16::from(k)),
        Event::Deliver(i, echo) => digits(EventKind::Deliver, i, u16::from(echo)),
        Event::Lose(i) => digits(EventKind::Lose, i, 0),
    }
}

fn digits(kind: EventKind, first: u16, second: u16) -> u64 {
    (kind as u64) * 100_000_000 + u64::from(first) * 10_000 + u64::from(second)
}

pub fn write(command: Command) -> Outcome {
    given(word_event::write_event(event_of(command)).map(u64::from))
}

// The event of kind a with the parts b and c; where there is no such kind, an on.
fn event_of(command: Command) -> Event {
    let x = node(command.b);
    let other = node(command.c);
    let position = (command.b % 65536) as u16;
    let odd = command.c % 2 == 1;
    match EventKind::try_from(command.a) {
        Ok(EventKind::Off) => Event::Off(x, odd),
        Ok(EventKind::Notice) => Event::Notice(x, other),
        Ok(EventKind::Contact) => Event::Contact(x, other),
        Ok(EventKind::Timer) => Event::Timer(x, other.0),
        Ok(EventKind::Deliver) => Event::Deliver(position, odd),
        Ok(EventKind::Lose) => Event::Lose(position),
        _ => Event::On(x),
    }
}
