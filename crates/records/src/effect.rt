// What a step leaves: the own record, and what is to be sent.
ghost use Rattle.std.specs.Prelude.{◌≡◌, List, [], ◌∷◌, ◌++◌, ℕ, ◌≤◌, length};
ghost use Rattle.model.specs.Ring.{Own, Message};
ghost use Rattle.records.specs.Says.{Says};
ghost use Rattle.records.specs.Effects.{Owns, sends_of, Sent, Leaves};

use model::message::MessageRecord;
use model::node::NodeRecord;

// A group of messages.
#[derive(Clone, Copy)]
pub enum Sends {
    Nothing,
    One(MessageRecord),
    // A message of a type to each node of a set, in rising order.
    Each(u8, u64),
    // A request about each node of a set to its spare, in rising order.
    ToSpares(u64),
}

// The messages of the first group come before those of the second.
#[derive(Clone, Copy)]
pub struct EffectRecord {
    pub own: NodeRecord,
    pub first: Sends,
    pub second: Sends,
}

impl EffectRecord {
    pub fn quiet(own: NodeRecord) -> EffectRecord
        ensures effect { (n me time : ℕ) (o : Own) → Owns n own o
            → Leaves n me time result (record { own = o; sent = [] }) }
    {
        EffectRecord {
            own,
            first: Sends::Nothing,
            second: Sends::Nothing,
        }
    }

    pub fn sending_both(own: NodeRecord, first: Sends, second: Sends) -> EffectRecord
        ensures effect { (n me time : ℕ) (o : Own) (ms ns : List Message) → Owns n own o
            → Sent me time own first ms → Sent me time own second ns
            → Leaves n me time result (record { own = o; sent = ms ++ ns }) }
    {
        EffectRecord { own, first, second }
    }

    pub fn sending(own: NodeRecord, sends: Sends) -> EffectRecord
        ensures effect { (n me time : ℕ) (o : Own) (ms : List Message) → Owns n own o
            → Sent me time own sends ms → Leaves n me time result (record { own = o; sent = ms }) }
    {
        EffectRecord {
            own,
            first: sends,
            second: Sends::Nothing,
        }
    }

    pub fn replying(own: NodeRecord, message: MessageRecord) -> EffectRecord
        ensures effect { (n me time : ℕ) (o : Own) (x : Message) → Owns n own o → Says message x
            → Leaves n me time result (record { own = o; sent = x ∷ [] }) }
    {
        EffectRecord::sending(own, Sends::One(message))
    }
}

// How many messages a group has.
pub fn count(sends: Sends) -> usize
    ensures value { (me time : ℕ) (own : NodeRecord) → result ≡ length (sends_of me time own sends) }
    ensures bound { result ≤ 64 }
{
    match sends {
        Sends::Nothing => 0,
        Sends::One(_) => 1,
        Sends::Each(_, to) | Sends::ToSpares(to) => sets::size(to) as usize,
    }
}
