// An event word as a type: kinds, constructor and readers.
ghost use Rattle.std.specs.Prelude.{◌≡◌, ◌<◌, ◌^◌};
ghost use Rattle.word_event.specs.Kinds.{kind_number, IsKindOf};
ghost use Rattle.model.specs.Fields.{of_kind};
ghost use Rattle.model.specs.Events.{word_of, event_of, is_timer};

use model::event::Event;
use model::values::NodeNumber;

// The kinds of event words, with their numbers.
#[derive(Clone, Copy, Debug, PartialEq, Eq)]
pub enum EventKind {
    On = 9,
    Off,
    Notice,
    Contact,
    Timer,
    Deliver,
    Lose,
}

// A number that is no such kind's.
#[derive(Clone, Copy, Debug, PartialEq, Eq)]
pub struct NoKind(pub u32);

impl TryFrom<u32> for EventKind {
    type Error = NoKind;

    ghost try_from_gives = { IsKindOf };

    fn try_from(number: u32) -> Result<Self, NoKind> {
        match number {
            9 => Ok(EventKind::On),
            10 => Ok(EventKind::Off),
            11 => Ok(EventKind::Notice),
            12 => Ok(EventKind::Contact),
            13 => Ok(EventKind::Timer),
            14 => Ok(EventKind::Deliver),
            15 => Ok(EventKind::Lose),
            _ => Err(NoKind(number)),
        }
    }
}

#[derive(Clone, Copy, Debug, PartialEq, Eq)]
pub struct EventWord(pub u32);

impl EventWord {
    // A message's position has ten bits.
    pub const POSITIONS: u32 = 0x400;

    // The timers are 0, 2, 3 and 4. An event to be written may have any number.
    pub fn is_timer(k: u32) -> bool
        ensures value { result ≡ is_timer k }
    {
        matches!(k, 0 | 2..=4)
    }

    // The word of the kind whose other bits are `parts`.
    fn of_kind(kind: EventKind, parts: u32) -> EventWord
        requires bounds { parts < 2 ^ 28 }
        ensures value { result.0 ≡ of_kind (kind_number kind) parts }
    {
        EventWord(kind as u32 * 0x1000_0000 + parts)
    }

    pub fn new(e: Event) -> EventWord
        ensures value { result.0 ≡ word_of e }
    {
        match e {
            Event::On(x) => EventWord::of_kind(EventKind::On, u32::from(x.0)),
            Event::Off(x, polite) => EventWord::of_kind(
                EventKind::Off,
                u32::from(polite) * 4096 + u32::from(x.0),
            ),
            Event::Notice(x, z) => EventWord::of_kind(
                EventKind::Notice,
                u32::from(z.0) * 64 + u32::from(x.0),
            ),
            Event::Contact(x, y) => EventWord::of_kind(
                EventKind::Contact,
                u32::from(y.0) * 64 + u32::from(x.0),
            ),
            Event::Timer(x, k) => EventWord::of_kind(
                EventKind::Timer,
                u32::from(k) * 4096 + u32::from(x.0),
            ),
            Event::Deliver(i, echo) => EventWord::of_kind(
                EventKind::Deliver,
                u32::from(echo) * EventWord::POSITIONS + u32::from(i),
            ),
            Event::Lose(i) => EventWord::of_kind(EventKind::Lose, u32::from(i)),
        }
    }

    // The event that the named bits give.
    pub fn event(self) -> Event
        ensures value { result ≡ event_of self.0 }
    {
        let x = NodeNumber((self.0 % 64) as u8);
        let other = NodeNumber((self.0 / 64 % 64) as u8);
        let polite = self.0 / 4096 % 2 == 1;
        let timer = (self.0 / 4096 % 8) as u8;
        let position = (self.0 % EventWord::POSITIONS) as u16;
        let echo = self.0 / EventWord::POSITIONS % 2 == 1;
        let kind = EventKind::try_from(self.0 / 0x1000_0000).unwrap_or(EventKind::On);
        match kind {
            EventKind::On => Event::On(x),
            EventKind::Off => Event::Off(x, polite),
            EventKind::Notice => Event::Notice(x, other),
            EventKind::Contact => Event::Contact(x, other),
            EventKind::Timer => Event::Timer(x, timer),
            EventKind::Deliver => Event::Deliver(position, echo),
            EventKind::Lose => Event::Lose(position),
        }
    }
}
