// Events as C's numbers.
#![tactic(auto)]

ghost use Rattle.std.specs.Prelude.{◌≡◌, true};
ghost use Rattle.model.specs.Answers.{answer_number, given_or};
ghost use Rattle.model.specs.Events.{word_answer};
ghost use Rattle.mekvalgs_event.specs.Parts.{numbers, parts_of, read_parts, parts_are, event_of_parts};
ghost use Rattle.mekvalgs_event.specs.Parts.{parts_answer, write_parts};

use model::event::Event;
use model::refusal::Refusal;
use model::values::NodeNumber;
use word_event::word::{EventKind, EventWord};
use word_event::{read_event, write_event};

// The numbers that C gives and takes: the kind; the node or the position; the other node, the timer, or 1 for a polite
// off or an echo; 0 where the event has none of them.
#[derive(Clone, Copy, Debug, PartialEq, Eq)]
pub struct Parts {
    pub kind: u32,
    pub first: u32,
    pub second: u32,
}

// The numbers of the event of a word, or refusal 4 or 5.
pub fn read(word: u32) -> Result<Parts, Refusal>
    ensures answer { answer_number result ≡ word_answer word }
    ensures parts { given_or (numbers 0 0 0) result ≡ read_parts word }
{
    let e = read_event(word)?;
    Ok(of_event(e))
}

// The word of the event of the numbers, or refusal 4 or 5.
pub fn write(p: Parts) -> Result<u32, Refusal>
    ensures answer { answer_number result ≡ parts_answer p }
    ensures word { given_or 0 result ≡ write_parts p }
{
    if !fit(p) {
        return Err(Refusal::NotAnEvent);
    }
    write_event(event(p))
}

// The numbers of an event.
fn of_event(e: Event) -> Parts
    ensures value { result ≡ parts_of e }
{
    match e {
        Event::On(x) => make(EventKind::On as u32, u32::from(x.0), 0),
        Event::Off(x, polite) => make(EventKind::Off as u32, u32::from(x.0), u32::from(polite)),
        Event::Notice(x, z) => make(EventKind::Notice as u32, u32::from(x.0), u32::from(z.0)),
        Event::Contact(x, y) => make(EventKind::Contact as u32, u32::from(x.0), u32::from(y.0)),
        Event::Timer(x, k) => make(EventKind::Timer as u32, u32::from(x.0), u32::from(k)),
        Event::Deliver(i, echo) => make(EventKind::Deliver as u32, u32::from(i), u32::from(echo)),
        Event::Lose(i) => make(EventKind::Lose as u32, u32::from(i), 0),
    }
}

pub fn make(kind: u32, first: u32, second: u32) -> Parts
    ensures value { result ≡ numbers kind first second }
{
    Parts {
        kind,
        first,
        second,
    }
}

// Whether the numbers are an event's.
fn fit(p: Parts) -> bool
    ensures value { result ≡ parts_are p }
{
    match EventKind::try_from(p.kind) {
        Ok(EventKind::On) => (p.second == 0) & (p.first < 64),
        Ok(EventKind::Off) => (p.second <= 1) & (p.first < 64),
        Ok(EventKind::Notice) => (p.first < 64) & (p.second < 64),
        Ok(EventKind::Contact) => (p.first < 64) & (p.second < 64),
        Ok(EventKind::Timer) => (p.first < 64) & EventWord::is_timer(p.second),
        Ok(EventKind::Deliver) => (p.second <= 1) & (p.first < EventWord::POSITIONS),
        Ok(EventKind::Lose) => (p.second == 0) & (p.first < EventWord::POSITIONS),
        Err(_) => false,
    }
}

// The event of numbers that are one's.
fn event(p: Parts) -> Event
    requires parts { parts_are p ≡ true }
    ensures value { result ≡ event_of_parts p }
{
    match EventKind::try_from(p.kind) {
        Ok(EventKind::On) => Event::On(NodeNumber(p.first as u8)),
        Ok(EventKind::Off) => Event::Off(NodeNumber(p.first as u8), p.second == 1),
        Ok(EventKind::Notice) => Event::Notice(
            NodeNumber(p.first as u8),
            NodeNumber(p.second as u8),
        ),
        Ok(EventKind::Contact) => Event::Contact(
            NodeNumber(p.first as u8),
            NodeNumber(p.second as u8),
        ),
        Ok(EventKind::Timer) => Event::Timer(NodeNumber(p.first as u8), p.second as u8),
        Ok(EventKind::Deliver) => Event::Deliver(p.first as u16, p.second == 1),
        Ok(EventKind::Lose) => Event::Lose(p.first as u16),
        Err(_) => unreachable!(),
    }
}
