// Document 01's step 3: timer 2, and message types 7 and 8.
#![tactic(auto)]

ghost use Rattle.std.specs.Prelude.{ℕ, ◌<◌, length};
ghost use Rattle.model.specs.Leafset.{Table};
ghost use Rattle.model.specs.Structs.{own_of, RoomNode, message_of, RoomMessage};
ghost use Rattle.model.specs.Steps as steps;
ghost use Rattle.records.specs.Effects.{OwnFits, Leaves};
ghost use Rattle.records.specs.Lent.{IsLent, Takes, TakesOn};

use leafset::{leafset, outside};
use leafset_choice::closest;
use model::message::{MessageRecord, MessageType};
use model::node::NodeRecord;
use model::values::NodeNumber;
use records::effect::{EffectRecord, Sends};
use records::message::naming;
use records::node::Node;
use records::own::set_spare;

// "type 7 to each held stand outside my leafset of the held"
pub fn timer2(node: &Node<'_>) -> EffectRecord
    requires lent { IsLent node.now }
    ensures effect { (time : ℕ) → Takes node.now time result steps.timer2 }
{
    let outside = outside(node.keys, node.sides, node.me, node.own.held);
    EffectRecord::sending(
        *node.own,
        Sends::Each(MessageType::PingAskRepl as u8, outside),
    )
}

// "On 7 from a: answer 8 whose subject is the member of my leafset, other than a, nearest to a and strictly nearer to
// a than I am; .. else 64."
pub fn on_ping_ask_repl(node: &Node<'_>, message: MessageRecord) -> EffectRecord
    requires lent { IsLent node.now }
    requires sender { message.sender.0 < length node.now.keys.now }
    ensures effect { (time : ℕ) → TakesOn node.now time message result steps.on_ping_ask_repl }
{
    let spare = closest(
        node.keys,
        node.sides,
        node.me,
        node.own.held,
        message.sender,
    )
    .unwrap_or(NodeNumber::NONE);
    EffectRecord::replying(
        *node.own,
        naming(
            MessageType::PongAskRepl as u8,
            node.me,
            message.sender,
            spare,
        ),
    )
}

// "On 8: if the sender is held, its spare becomes the subject."
pub fn on_pong_ask_repl(own: NodeRecord, message: MessageRecord) -> EffectRecord
    requires record { RoomNode own }
    requires message { RoomMessage message }
    ensures effect { (t : Table) (me time n : ℕ) → OwnFits n own
        → Leaves n me time result (steps.on_pong_ask_repl t me time (own_of own) (message_of message)) }
{
    if !sets::has(own.held, message.sender) {
        return EffectRecord::quiet(own);
    }
    EffectRecord::quiet(set_spare(own, message.sender, message.subject))
}
