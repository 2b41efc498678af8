// Messages: their types, and a message by value.
ghost use Rattle.model.specs.Types.{IsTypeOf};

use super::values::{NodeNumber, Stamp};

// Document 01's types, with their numbers.
#[derive(Clone, Copy, Debug, PartialEq, Eq)]
pub enum MessageType {
    PingContact = 1,
    PongContact,
    PingAskInv,
    PongAskInv,
    PingInvite,
    PongInvite,
    PingAskRepl,
    PongAskRepl,
    PingReplace,
    PongReplace,
    PingDeloopy,
    PongDeloopy,
    Leave,
}

// A number that is no type's.
#[derive(Clone, Copy, Debug, PartialEq, Eq)]
pub struct NoType(pub u8);

impl TryFrom<u8> for MessageType {
    type Error = NoType;

    ghost try_from_gives = { IsTypeOf };

    fn try_from(number: u8) -> Result<Self, NoType> {
        match number {
            1 => Ok(MessageType::PingContact),
            2 => Ok(MessageType::PongContact),
            3 => Ok(MessageType::PingAskInv),
            4 => Ok(MessageType::PongAskInv),
            5 => Ok(MessageType::PingInvite),
            6 => Ok(MessageType::PongInvite),
            7 => Ok(MessageType::PingAskRepl),
            8 => Ok(MessageType::PongAskRepl),
            9 => Ok(MessageType::PingReplace),
            10 => Ok(MessageType::PongReplace),
            11 => Ok(MessageType::PingDeloopy),
            12 => Ok(MessageType::PongDeloopy),
            13 => Ok(MessageType::Leave),
            _ => Err(NoType(number)),
        }
    }
}

// The tag is the number of a type, or any other that four bits hold; the view is a set of bits, bit s for node s.
#[derive(Clone, Copy)]
pub struct MessageRecord {
    pub tag: u8,
    pub sender: NodeNumber,
    pub receiver: NodeNumber,
    pub subject: NodeNumber,
    pub stamp: Stamp,
    pub view: u64,
}
