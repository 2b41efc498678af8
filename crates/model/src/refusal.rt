// The refusals of documents 01 and 02, with their numbers.
#[derive(Clone, Copy, Debug, PartialEq, Eq)]
pub enum Refusal {
    WrongLength = 1,
    OpeningOutOfRange,
    BadKey,
    NotAnEvent,
    SameNode,
    NotARing,
    OutOfTable,
    NodeOff,
    AlreadyRunning,
    ClockSpent,
    PoolFull,
    KeyOutOfRange,
    ListTooShort,
    SidesDiffer,
    TablesClash,
    TooManyMessages,
    SenderFull,
    NotWatched,
    NotShort,
    PlaceTooSmall,
}
