// The ring's words as types: kinds, constructors and readers. Beside a kind, EMPTY is its word with every named bit 0;
// a field that does not begin at bit 0 has the value of its lowest bit. A word type each, though some differ in no more
// than their kind: an alias of a generic type would be no constructor.
#![tactic(auto)]

pub mod limit;
pub mod place;

ghost use Rattle.std.specs.Prelude.{◌≡◌, ◌^◌, ◌<◌, ◌≤◌};
ghost use Rattle.model.specs.Fields.{bits, flag};
ghost use Rattle.model.specs.Structs.{RoomSides};
ghost use Rattle.model.specs.Words.{sides_of, head_word, key_word, clock_word, pair_word, spare_word};
ghost use Rattle.model.specs.Words.{message_word, stamp_word, view_word};

use model::values::{Key, NodeNumber, Sides, Stamp};

// The first word: "table size n (1 to 64) in 4-10, message count m (0 to 1,024) in 11-21", "A in bits 0-3 and B in bits
// 22-25".
#[derive(Clone, Copy)]
pub struct HeadWord(pub u32);

impl HeadWord {
    pub const KIND: u32 = 1;

    pub const EMPTY: u32 = HeadWord::KIND * 0x1000_0000;

    pub const NODES: u32 = 0x10;

    pub const MESSAGES: u32 = 0x800;

    pub const BEHIND: u32 = 0x40_0000;

    #[tactic(auto, unfolding(model::specs::Words::head_word))]
    pub fn new(sides: Sides, nodes: u32, messages: u32) -> HeadWord
        requires bounds { RoomSides sides × (nodes < 2 ^ 7) × (messages < 2 ^ 11) }
        ensures value { result.0 ≡ head_word sides nodes messages }
    {
        HeadWord(
            HeadWord::EMPTY
                + (sides.behind * HeadWord::BEHIND
                    + messages * HeadWord::MESSAGES
                    + nodes * HeadWord::NODES
                    + sides.ahead),
        )
    }

    pub fn sides(self) -> Sides
        ensures value { result ≡ sides_of self.0 }
    {
        Sides {
            ahead: self.0 % 0x10,
            behind: self.0 / HeadWord::BEHIND % 0x10,
        }
    }

    pub fn nodes(self) -> u32
        ensures value { result ≡ bits 4 7 self.0 }
    {
        self.0 / HeadWord::NODES % 0x80
    }

    pub fn messages(self) -> u32
        ensures value { result ≡ bits 11 11 self.0 }
    {
        self.0 / HeadWord::MESSAGES % 0x800
    }
}

// A node's first word: "key in 0-23, running in bit 24".
#[derive(Clone, Copy)]
pub struct KeyWord(pub u32);

impl KeyWord {
    pub const KIND: u32 = 2;

    pub const EMPTY: u32 = KeyWord::KIND * 0x1000_0000;

    pub const RUNNING: u32 = 0x100_0000;

    #[tactic(auto, unfolding(model::specs::Words::key_word))]
    pub fn new(key: Key, running: bool) -> KeyWord
        requires bounds { key.0 < 2 ^ 24 }
        ensures value { result.0 ≡ key_word key.0 running }
    {
        KeyWord(KeyWord::EMPTY + (u32::from(running) * KeyWord::RUNNING + key.0))
    }

    pub fn key(self) -> Key
        ensures value { result.0 ≡ bits 0 24 self.0 }
    {
        Key(self.0 % KeyWord::RUNNING)
    }

    pub fn running(self) -> bool
        ensures value { result ≡ flag 24 self.0 }
    {
        self.0 / KeyWord::RUNNING % 2 == 1
    }
}

// A node's second word: "clock in 0-23".
#[derive(Clone, Copy)]
pub struct ClockWord(pub u32);

impl ClockWord {
    pub const KIND: u32 = 5;

    pub const EMPTY: u32 = ClockWord::KIND * 0x1000_0000;

    #[tactic(auto, unfolding(model::specs::Words::clock_word))]
    pub fn new(clock: Stamp) -> ClockWord
        requires bounds { clock.0 < 2 ^ 24 }
        ensures value { result.0 ≡ clock_word clock.0 }
    {
        ClockWord(ClockWord::EMPTY + clock.0)
    }

    pub fn clock(self) -> Stamp
        ensures value { result.0 ≡ bits 0 24 self.0 }
    {
        Stamp(self.0 % 0x100_0000)
    }
}

// A pair's first word: "commit stamp in 0-23, held in 24, candidate in 25".
#[derive(Clone, Copy)]
pub struct PairWord(pub u32);

impl PairWord {
    pub const KIND: u32 = 3;

    pub const EMPTY: u32 = PairWord::KIND * 0x1000_0000;

    pub const HELD: u32 = 0x100_0000;

    pub const CANDIDATE: u32 = 0x200_0000;

    #[tactic(auto, unfolding(model::specs::Words::pair_word))]
    pub fn new(commit: Stamp, held: bool, candidate: bool) -> PairWord
        requires bounds { commit.0 < 2 ^ 24 }
        ensures value { result.0 ≡ pair_word commit.0 held candidate }
    {
        PairWord(
            PairWord::EMPTY
                + (u32::from(candidate) * PairWord::CANDIDATE
                    + u32::from(held) * PairWord::HELD
                    + commit.0),
        )
    }

    pub fn commit(self) -> Stamp
        ensures value { result.0 ≡ bits 0 24 self.0 }
    {
        Stamp(self.0 % PairWord::HELD)
    }

    pub fn held(self) -> bool
        ensures value { result ≡ flag 24 self.0 }
    {
        self.0 / PairWord::HELD % 2 == 1
    }

    pub fn candidate(self) -> bool
        ensures value { result ≡ flag 25 self.0 }
    {
        self.0 / PairWord::CANDIDATE % 2 == 1
    }
}

// A pair's second word: "spare in 0-6, a stand or 64 for none".
#[derive(Clone, Copy)]
pub struct SpareWord(pub u32);

impl SpareWord {
    pub const KIND: u32 = 4;

    pub const EMPTY: u32 = SpareWord::KIND * 0x1000_0000;

    pub const NONE: u32 = SpareWord::EMPTY + 64;

    #[tactic(auto, unfolding(model::specs::Words::spare_word))]
    pub fn new(spare: NodeNumber) -> SpareWord
        requires bounds { spare.0 < 2 ^ 7 }
        ensures value { result.0 ≡ spare_word spare.0 }
    {
        SpareWord(SpareWord::EMPTY + u32::from(spare.0))
    }

    pub fn spare(self) -> NodeNumber
        ensures value { result.0 ≡ bits 0 7 self.0 }
    {
        NodeNumber((self.0 % 0x80) as u8)
    }
}

// A message's first word: "type in 0-3, sender in 4-9, receiver in 10-15, subject in 16-22 (64 is none)".
#[derive(Clone, Copy)]
pub struct MessageWord(pub u32);

impl MessageWord {
    pub const KIND: u32 = 6;

    pub const EMPTY: u32 = MessageWord::KIND * 0x1000_0000;

    pub const SENDER: u32 = 0x10;

    pub const RECEIVER: u32 = 0x400;

    pub const SUBJECT: u32 = 0x1_0000;

    #[tactic(auto, unfolding(model::specs::Words::message_word))]
    pub fn new(
        tag: u8,
        sender: NodeNumber,
        receiver: NodeNumber,
        subject: NodeNumber,
    ) -> MessageWord
        requires bounds { (tag < 2 ^ 4) × (sender.0 < 2 ^ 6) × (receiver.0 < 2 ^ 6) × (subject.0 < 2 ^ 7) }
        ensures value { result.0 ≡ message_word tag sender.0 receiver.0 subject.0 }
    {
        MessageWord(
            MessageWord::EMPTY
                + (u32::from(subject.0) * MessageWord::SUBJECT
                    + u32::from(receiver.0) * MessageWord::RECEIVER
                    + u32::from(sender.0) * MessageWord::SENDER
                    + u32::from(tag)),
        )
    }

    pub fn tag(self) -> u8
        ensures value { result ≡ bits 0 4 self.0 }
    {
        (self.0 % 0x10) as u8
    }

    pub fn sender(self) -> NodeNumber
        ensures value { result.0 ≡ bits 4 6 self.0 }
    {
        NodeNumber((self.0 / MessageWord::SENDER % 0x40) as u8)
    }

    pub fn receiver(self) -> NodeNumber
        ensures value { result.0 ≡ bits 10 6 self.0 }
    {
        NodeNumber((self.0 / MessageWord::RECEIVER % 0x40) as u8)
    }

    pub fn subject(self) -> NodeNumber
        ensures value { result.0 ≡ bits 16 7 self.0 }
    {
        NodeNumber((self.0 / MessageWord::SUBJECT % 0x80) as u8)
    }
}

// A message's second word: "a stamp in 0-23".
#[derive(Clone, Copy)]
pub struct StampWord(pub u32);

impl StampWord {
    pub const KIND: u32 = 7;

    pub const EMPTY: u32 = StampWord::KIND * 0x1000_0000;

    #[tactic(auto, unfolding(model::specs::Words::stamp_word))]
    pub fn new(stamp: Stamp) -> StampWord
        requires bounds { stamp.0 < 2 ^ 24 }
        ensures value { result.0 ≡ stamp_word stamp.0 }
    {
        StampWord(StampWord::EMPTY + stamp.0)
    }

    pub fn stamp(self) -> Stamp
        ensures value { result.0 ≡ bits 0 24 self.0 }
    {
        Stamp(self.0 % 0x100_0000)
    }
}

// One of a message's last three words: a part of the view, "stands 0-23, 24-47, 48-63, lowest bit first".
#[derive(Clone, Copy)]
pub struct ViewWord(pub u32);

impl ViewWord {
    pub const KIND: u32 = 8;

    pub const EMPTY: u32 = ViewWord::KIND * 0x1000_0000;

    #[tactic(auto, unfolding(model::specs::Words::view_word))]
    pub fn new(part: u32) -> ViewWord
        requires bounds { part < 2 ^ 24 }
        ensures value { result.0 ≡ view_word part }
    {
        ViewWord(ViewWord::EMPTY + part)
    }

    pub fn part(self) -> u32
        ensures value { result ≡ bits 0 24 self.0 }
    {
        self.0 % 0x100_0000
    }
}
