// Document 01's step 1: a contact, a notice, and message types 1 and 2.
#![tactic(auto)]

ghost use Rattle.std.specs.Prelude.{ℕ, ◌<◌, ◌^◌};
ghost use Rattle.model.specs.Leafset.{Table};
ghost use Rattle.model.specs.Structs.{own_of, RoomNode, message_of};
ghost use Rattle.model.specs.Steps as steps;
ghost use Rattle.records.specs.Effects.{OwnFits, Leaves};

use model::message::{MessageRecord, MessageType};
use model::node::NodeRecord;
use model::values::{NodeNumber, Stamp};
use records::effect::EffectRecord;
use records::message::plain;
use records::own::{forget, hold};

// "Contact y: send type 1 to y"
pub fn contact(me: NodeNumber, own: NodeRecord, y: NodeNumber) -> EffectRecord
    requires bounds { (me.0 < 64) × (y.0 < 64) }
    ensures effect { (t : Table) (time n : ℕ) → OwnFits n own
        → Leaves n me.0 time result (steps.contact t me.0 time (own_of own) y.0) }
{
    EffectRecord::replying(own, plain(MessageType::PingContact as u8, me, y))
}

// A notice: its subject is forgotten.
pub fn notice(own: NodeRecord, z: NodeNumber) -> EffectRecord
    requires bounds { z.0 < 64 }
    requires record { RoomNode own }
    ensures effect { (t : Table) (me time n : ℕ) → OwnFits n own
        → Leaves n me time result (steps.notice t me time (own_of own) z.0) }
{
    EffectRecord::quiet(forget(own, z))
}

// On 1: "its receiver answers type 2". What it shares with `step_invite::on_ping_invite` is `replying`.
pub fn on_ping_contact(me: NodeNumber, own: NodeRecord, message: MessageRecord) -> EffectRecord
    requires bounds { (me.0 < 64) × (message.sender.0 < 64) }
    ensures effect { (t : Table) (time n : ℕ) → OwnFits n own
        → Leaves n me.0 time result (steps.on_ping_contact t me.0 time (own_of own) (message_of message)) }
{
    EffectRecord::replying(
        own,
        plain(MessageType::PongContact as u8, me, message.sender),
    )
}

// "on type 2, take the sender in"
pub fn on_pong_contact(time: Stamp, own: NodeRecord, message: MessageRecord) -> EffectRecord
    requires record { (time.0 < 2 ^ 24) × (message.sender.0 < 64) × RoomNode own }
    ensures effect { (t : Table) (me n : ℕ) → OwnFits n own → message.sender.0 < n
        → Leaves n me time.0 result (steps.on_pong_contact t me time.0 (own_of own) (message_of message)) }
{
    EffectRecord::quiet(hold(own, time, message.sender))
}
