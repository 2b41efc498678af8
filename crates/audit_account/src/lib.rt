// The account of a script: what is kept from event to event.
#![tactic(auto)]

// How many events were played; the last point: after so many of them no acknowledgement was in flight, and no type 13
// from a running node. Since then: how many events were accepted that the promise does not cover, and whether an on, an
// off or a wrong notice is among them. At how many events nodes were parted, and how many of these have such an event
// in their verdict.
#[derive(Clone, Copy, Debug, PartialEq, Eq)]
pub struct Account {
    pub count: u64,
    pub point: u64,
    pub uncovered: u64,
    pub on: bool,
    pub off: bool,
    pub notice: bool,
    pub partings: u64,
    pub ons: u64,
    pub offs: u64,
    pub notices: u64,
}

// An event that the promise does not cover: its number in the script, and its word.
#[derive(Clone, Copy, Debug, PartialEq, Eq)]
pub struct Entry {
    pub number: u64,
    pub word: u32,
}

// What is kept between two events of a ring: the account, the first of the events that its verdict would list, and the
// group of each node by its number.
#[derive(Clone, Copy, Debug, PartialEq, Eq)]
pub struct Log {
    pub account: Account,
    pub listed: [Entry; 16],
    pub groups: [u64; 64],
}
