// The text form of scripts: what its lines are, what a place of it expects, and how far a reader of it has come.
#![tactic(auto)]

use model::values::Sides;

// The first words of lines.
#[derive(Clone, Copy, Debug, PartialEq, Eq)]
pub enum Command {
    Sides,
    Keys,
    On,
    Off,
    Leave,
    Notice,
    Contact,
    Timer,
    Deliver,
    Echo,
    Lose,
    Word,
    Tail,
}

// What came before the line: nothing, the sides, some keys, the whole opening, or the tail.
#[derive(Clone, Copy, Debug, PartialEq, Eq)]
pub enum Stage {
    Start,
    Sides,
    Keys,
    Events,
    End,
}

// What is expected at a place: a line of some kind, a part of a line, or its end.
#[derive(Clone, Copy, Debug, PartialEq, Eq)]
pub enum Expected {
    Opening,
    Keys,
    Event,
    NoLine,
    Side,
    Key,
    Node,
    Timer,
    At,
    Position,
    Word,
    Tail,
    LineEnd,
}

// How far a reader has come: the line, from 1; whether it stopped at a fault; whether it is in a comment; the token
// that is not finished, 0 for none; the line's first word, the place in the line, 0 before that word, and the first
// part, once there is one; the sides, and how many keys there are. The fault is a flag, since its line is written from
// the rest; and a token grows from 0, that of no bytes.
#[derive(Clone, Copy)]
pub struct Reader {
    pub line: u64,
    pub fault: bool,
    pub comment: bool,
    pub token: u64,
    pub stage: Stage,
    pub command: Command,
    pub place: u8,
    pub first: u32,
    pub sides: Sides,
    pub keys: u8,
}

// What a byte of a text gives to the script: nothing, the words of the opening, a key for them, a word, or so many
// bytes at the end.
#[derive(Clone, Copy, Debug, PartialEq, Eq)]
pub enum Given {
    Nothing,
    Opening,
    Key(u32),
    Word(u32),
    Tail(u8, u32),
}

// The reader after a byte, and what the byte gave.
#[derive(Clone, Copy)]
pub struct Step {
    pub reader: Reader,
    pub given: Given,
}
