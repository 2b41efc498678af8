// Document 02's note 4: what a node that leaves politely sends, and message type 13.
#![tactic(auto)]

ghost use Rattle.std.specs.Prelude.{ℕ, ◌≤◌, ◌<◌};
ghost use Rattle.model.specs.Leafset.{Table, size};
ghost use Rattle.model.specs.Structs.{own_of, RoomNode, message_of};
ghost use Rattle.model.specs.Steps as steps;
ghost use Rattle.records.specs.Effects.{OwnFits, Leaves};

use model::message::{MessageRecord, MessageType};
use model::node::NodeRecord;
use records::effect::{EffectRecord, Sends};
use records::own::forget;

// "first sends type 13 to each held stand, rising"
pub fn leaving(own: NodeRecord) -> EffectRecord
    ensures effect { (t : Table) (me time : ℕ) → size t ≤ 64 → OwnFits (size t) own
        → Leaves (size t) me time result (steps.leaving t me time (own_of own)) }
{
    EffectRecord::sending(own, Sends::Each(MessageType::Leave as u8, own.held))
}

// "lets go of the sender and strikes it from the candidates"
pub fn on_leave(own: NodeRecord, message: MessageRecord) -> EffectRecord
    requires bounds { message.sender.0 < 64 }
    requires record { RoomNode own }
    ensures effect { (t : Table) (me time n : ℕ) → OwnFits n own
        → Leaves n me time result (steps.on_leave t me time (own_of own) (message_of message)) }
{
    EffectRecord::quiet(forget(own, message.sender))
}
