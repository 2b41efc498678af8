// Events.
use super::values::NodeNumber;

// An event: the nodes, the timer or the message position that its word holds.
#[derive(Clone, Copy, Debug, PartialEq, Eq)]
pub enum Event {
    On(NodeNumber),
    // Whether it is polite.
    Off(NodeNumber, bool),
    Notice(NodeNumber, NodeNumber),
    Contact(NodeNumber, NodeNumber),
    // Any number: that it is one of the timers is tested where the event is written.
    Timer(NodeNumber, u8),
    // Whether it is an echo: the message stays.
    Deliver(u16, bool),
    Lose(u16),
}
