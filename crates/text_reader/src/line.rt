// Lines: which may come, what their parts are, and what they give.
ghost use Rattle.std.specs.Prelude.{◌≡◌, ◌-◌, ◌≤◌, Some, None, length, get_or, if◌then◌else◌};
ghost use Rattle.model.specs.Events.{is_timer};
ghost use Rattle.text_form.specs.Assemble as form;
ghost use Rattle.text_reader.specs.Bounds.{PartsBounded};

use super::token;
use model::event::Event;
use model::values::NodeNumber;
use text_form::{Command, Expected, Given, Stage};
use word_event::word::EventWord;
use word_ring::limit;

// The most keys of an opening: one for each node.
pub const KEYS: u8 = NodeNumber::NONE.0;

// What a node, a key and a position are below.
const NODE_END: u32 = KEYS as u32;

const KEY_END: u32 = limit::KEY + 1;

const POSITION_END: u32 = EventWord::POSITIONS;

pub fn is_sides(command: Command) -> bool
    ensures value { result ≡ form.is_sides command }
{
    matches!(command, Command::Sides)
}

pub fn is_keys(command: Command) -> bool
    ensures value { result ≡ form.is_keys command }
{
    matches!(command, Command::Keys)
}

// Whether a script without an opening may begin so.
fn is_raw(command: Command) -> bool
    ensures value { result ≡ form.is_raw command }
{
    matches!(command, Command::Word | Command::Tail)
}

fn is_later(command: Command) -> bool
    ensures value { result ≡ form.is_later command }
{
    !is_sides(command) & !is_keys(command)
}

// Whether a line of this command may come.
pub fn allowed(stage: Stage, keys: u8, command: Command) -> bool
    ensures value { result ≡ form.allowed stage keys command }
{
    match stage {
        Stage::Start => is_sides(command) | is_raw(command),
        Stage::Sides => is_keys(command),
        Stage::Keys => (is_keys(command) & (keys < KEYS)) | is_later(command),
        Stage::Events => is_later(command),
        Stage::End => false,
    }
}

// What comes before the lines after one of this command.
pub fn stage_after(command: Command) -> Stage
    ensures value { result ≡ form.stage_after command }
{
    match command {
        Command::Sides => Stage::Sides,
        Command::Keys => Stage::Keys,
        Command::Tail => Stage::End,
        _ => Stage::Events,
    }
}

// Whether the words of the opening come with a line of this command.
pub fn opens(stage: Stage, command: Command) -> bool
    ensures value { result ≡ form.opens stage command }
{
    match stage {
        Stage::Keys => !is_keys(command),
        Stage::Start | Stage::Sides | Stage::Events | Stage::End => false,
    }
}

// The line that is expected.
pub fn expected(stage: Stage) -> Expected
    ensures value { result ≡ form.line_at stage }
{
    match stage {
        Stage::Start => Expected::Opening,
        Stage::Sides => Expected::Keys,
        Stage::Keys | Stage::Events => Expected::Event,
        Stage::End => Expected::NoLine,
    }
}

// The parts of a line; the keys of one count as a single part.
fn parts(command: Command) -> &'static [Expected]
    ensures value { result.now ≡ form.parts command }
{
    match command {
        Command::Sides => &[Expected::Side, Expected::Side],
        Command::Keys => &[Expected::Key],
        Command::On | Command::Off | Command::Leave => &[Expected::Node],
        Command::Notice | Command::Contact => &[Expected::Node, Expected::Node],
        Command::Timer => &[Expected::Timer, Expected::At, Expected::Node],
        Command::Deliver | Command::Echo | Command::Lose => &[Expected::Position],
        Command::Word => &[Expected::Word],
        Command::Tail => &[Expected::Tail],
    }
}

// How many parts a line of this command has.
pub fn arity(command: Command) -> u8
    ensures value { result ≡ length (form.parts command) }
{
    parts(command).len() as u8
}

// The part at a place of a line, from 1.
pub fn part(command: Command, place: u8) -> Expected
    requires place { 1 ≤ place }
    ensures value { result ≡ get_or (form.parts command) (place - 1) Expected.LineEnd }
{
    parts(command)
        .get(usize::from(place - 1))
        .copied()
        .unwrap_or(Expected::LineEnd)
}

// The value of a token as the part that is expected, if it is one.
pub fn value(expected: Expected, token: u64) -> Option<u32>
    ensures value { result ≡ (if form.fits expected token then Some (form.value_of expected token) else None) }
{
    match expected {
        Expected::Side => token::decimal(token).filter(|n| (1 <= *n) & (*n <= limit::SIDE)),
        Expected::Key => token::decimal(token).filter(|n| *n < KEY_END),
        Expected::Node => token::decimal(token).filter(|n| *n < NODE_END),
        Expected::Timer => token::decimal(token).filter(|n| EventWord::is_timer(*n)),
        Expected::At => token::is_at(token).then_some(0),
        Expected::Position => token::decimal(token).filter(|n| *n < POSITION_END),
        Expected::Word => token::hexadecimal(token).filter(|_| 0x100_0000_0000_0000 <= token),
        Expected::Tail => token::hexadecimal(token).filter(|_| token::pairs(token) != 0),
        Expected::Opening
        | Expected::Keys
        | Expected::Event
        | Expected::NoLine
        | Expected::LineEnd => None,
    }
}

// What a line gives with its last part.
pub fn given(command: Command, first: u32, last: u32, token: u64) -> Given
    requires parts { PartsBounded command first last }
    ensures value { result ≡ form.line_given command first last token }
{
    match command {
        Command::Sides => Given::Nothing,
        Command::Keys => Given::Key(last),
        Command::On => event(Event::On(NodeNumber(last as u8))),
        Command::Off => event(Event::Off(NodeNumber(last as u8), false)),
        Command::Leave => event(Event::Off(NodeNumber(last as u8), true)),
        Command::Notice => event(Event::Notice(NodeNumber(first as u8), NodeNumber(last as u8))),
        Command::Contact => event(Event::Contact(NodeNumber(first as u8), NodeNumber(last as u8))),
        Command::Timer => event(Event::Timer(NodeNumber(last as u8), first as u8)),
        Command::Deliver => event(Event::Deliver(last as u16, false)),
        Command::Echo => event(Event::Deliver(last as u16, true)),
        Command::Lose => event(Event::Lose(last as u16)),
        Command::Word => Given::Word(last),
        Command::Tail => Given::Tail(token::pairs(token), last),
    }
}

fn event(event: Event) -> Given
    ensures value { result ≡ form.event_given event }
{
    Given::Word(EventWord::new(event).0)
}
