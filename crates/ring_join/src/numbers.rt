// What names nodes of the second ring by their numbers, raised by the n of the first.
ghost use Rattle.std.specs.Prelude.{◌≡◌, true, ℕ, ◌+◌, ◌<◌, ◌≤◌};
ghost use Rattle.model.specs.Fields.{bits};
ghost use Rattle.model.specs.Sets.{of_bits};
ghost use Rattle.model.specs.Words.{spare_word};
ghost use Rattle.model.specs.Structs.{message_of, RoomMessage};
ghost use Rattle.model.specs.Join as model;

use model::message::MessageRecord;
use model::values::NodeNumber;
use word_ring::SpareWord;

// The number of a node; "64 for none stays 64".
fn raised(y: NodeNumber, n: usize) -> NodeNumber
    requires bounds { (n ≤ 64) × (y.0 ≤ 64) }
    ensures value { result.0 ≡ model.raised n y.0 }
{
    if y == NodeNumber::NONE {
        return NodeNumber::NONE;
    }
    NodeNumber(y.0 + n as u8)
}

// A spare's word.
pub fn raised_spare(word: u32, n: usize) -> u32
    requires spare { (n ≤ 64) × (bits 0 7 word ≤ 64) × (word ≡ spare_word (bits 0 7 word)) }
    ensures value { result ≡ spare_word (model.raised n (bits 0 7 word)) }
{
    if word == SpareWord::NONE {
        return word;
    }
    word + n as u32
}

// A message; the members of its view rise too, from one of its words to the next.
pub fn raised_message(message: MessageRecord, n: usize) -> MessageRecord
    requires room { (n < 64) × RoomMessage message × (message.subject.0 ≤ 64) }
    requires low { (message.sender.0 + n < 64) × (message.receiver.0 + n < 64)
        × ((y : ℕ) → of_bits message.view y ≡ true → y + n < 64) }
    ensures message { message_of result ≡ model.raised_message n (message_of message) }
    ensures room { RoomMessage result }
{
    MessageRecord {
        sender: raised(message.sender, n),
        receiver: raised(message.receiver, n),
        subject: raised(message.subject, n),
        view: message.view << n,
        ..message
    }
}
