// Messages by value, by the fields that their type uses. The type is a number of four bits, as it is loaded.
ghost use Rattle.std.specs.Prelude.{◌<◌, ◌^◌};
ghost use Rattle.model.specs.Sets.{of_bits};
ghost use Rattle.model.specs.Steps as steps;
ghost use Rattle.records.specs.Says.{Says};

use model::message::MessageRecord;
use model::values::{NodeNumber, Stamp};

// A message of a type that uses subject and stamp.
pub fn stamped(tag: u8, x: NodeNumber, y: NodeNumber, z: NodeNumber, time: Stamp) -> MessageRecord
    requires bounds { (tag < 2 ^ 4) × (x.0 < 64) × (y.0 < 64) × (z.0 < 2 ^ 7) × (time.0 < 2 ^ 24) }
    ensures message { Says result (steps.stamped tag x.0 y.0 z.0 time.0) }
{
    MessageRecord {
        tag,
        sender: x,
        receiver: y,
        subject: z,
        stamp: time,
        view: 0,
    }
}

// Of a type that uses the subject.
pub fn naming(tag: u8, x: NodeNumber, y: NodeNumber, z: NodeNumber) -> MessageRecord
    requires bounds { (tag < 2 ^ 4) × (x.0 < 64) × (y.0 < 64) × (z.0 < 2 ^ 7) }
    ensures message { Says result (steps.naming tag x.0 y.0 z.0) }
{
    stamped(tag, x, y, z, Stamp(0))
}

// Of a type that uses neither.
pub fn plain(tag: u8, x: NodeNumber, y: NodeNumber) -> MessageRecord
    requires bounds { (tag < 2 ^ 4) × (x.0 < 64) × (y.0 < 64) }
    ensures message { Says result (steps.plain tag x.0 y.0) }
{
    naming(tag, x, y, NodeNumber::NONE)
}

// Of a type that uses the view.
pub fn viewing(tag: u8, x: NodeNumber, y: NodeNumber, set: u64) -> MessageRecord
    requires bounds { (tag < 2 ^ 4) × (x.0 < 64) × (y.0 < 64) }
    ensures message { Says result (steps.viewing tag x.0 y.0 (of_bits set)) }
{
    MessageRecord {
        view: set,
        ..plain(tag, x, y)
    }
}
