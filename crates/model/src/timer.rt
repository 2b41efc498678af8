// Timers.
ghost use Rattle.model.specs.Events.{IsTimerOf};

// Document 01's timers but 1, with their numbers.
#[derive(Clone, Copy, Debug, PartialEq, Eq)]
pub enum TimerKind {
    Invite = 0,
    AskReplacement = 2,
    Replace = 3,
    Deloopy = 4,
}

// A number that is no timer's.
#[derive(Clone, Copy, Debug, PartialEq, Eq)]
pub struct NoTimer(pub u8);

impl TryFrom<u8> for TimerKind {
    type Error = NoTimer;

    ghost try_from_gives = { IsTimerOf };

    fn try_from(number: u8) -> Result<Self, NoTimer> {
        match number {
            0 => Ok(TimerKind::Invite),
            2 => Ok(TimerKind::AskReplacement),
            3 => Ok(TimerKind::Replace),
            4 => Ok(TimerKind::Deloopy),
            _ => Err(NoTimer(number)),
        }
    }
}
