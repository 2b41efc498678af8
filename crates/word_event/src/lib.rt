// Event words. Public: one read, and one written.
#![tactic(auto)]

pub mod word;

ghost use Rattle.std.specs.Prelude.{◌≡◌};
ghost use Rattle.model.specs.Answers.{answer_number, given_or};
ghost use Rattle.model.specs.Events.{parts_fit, same_node, event_answer, write_event, read_event, reading_of};

use model::event::Event;
use model::refusal::Refusal;
use word::EventWord;

const POSITIONS: u16 = EventWord::POSITIONS as u16;

// Whether each part has room in its bits, and the timer is one.
fn parts_fit(e: Event) -> bool
    ensures value { result ≡ parts_fit e }
{
    match e {
        Event::On(x) => x.0 < 64,
        Event::Off(x, _) => x.0 < 64,
        Event::Notice(x, z) => (x.0 < 64) & (z.0 < 64),
        Event::Contact(x, y) => (x.0 < 64) & (y.0 < 64),
        Event::Timer(x, k) => (x.0 < 64) & EventWord::is_timer(u32::from(k)),
        Event::Deliver(i, _) => i < POSITIONS,
        Event::Lose(i) => i < POSITIONS,
    }
}

// Whether the event is a contact or a notice of one node with itself.
fn same_node(e: Event) -> bool
    ensures value { result ≡ same_node e }
{
    match e {
        Event::Notice(x, z) => x == z,
        Event::Contact(x, y) => x == y,
        _ => false,
    }
}

// Refusals 4 and 5.
fn check(e: Event) -> Result<(), Refusal>
    ensures answer { answer_number result ≡ event_answer e }
{
    if !parts_fit(e) {
        return Err(Refusal::NotAnEvent);
    }
    if same_node(e) {
        return Err(Refusal::SameNode);
    }
    Ok(())
}

// The word of an event, or refusal 4 or 5.
pub fn write_event(e: Event) -> Result<u32, Refusal>
    ensures answer { answer_number result ≡ event_answer e }
    ensures word { given_or 0 result ≡ write_event e }
{
    check(e)?;
    let word = EventWord::new(e);
    Ok(word.0)
}

// The event of a word, or refusal 4 or 5.
pub fn read_event(word: u32) -> Result<Event, Refusal>
    ensures value { reading_of result ≡ read_event word }
{
    let e = EventWord(word).event();
    if EventWord::new(e).0 != word {
        return Err(Refusal::NotAnEvent);
    }
    check(e)?;
    Ok(e)
}
