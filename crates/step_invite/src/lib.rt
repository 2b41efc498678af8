// Document 01's step 2 with document 02's note 7: timer 0, and message types 3 to 6.
#![tactic(auto)]

ghost use Rattle.std.specs.Prelude.{ℕ, ◌<◌, ◌^◌, length};
ghost use Rattle.model.specs.Leafset.{Table};
ghost use Rattle.model.specs.Structs.{own_of, message_of};
ghost use Rattle.model.specs.Steps as steps;
ghost use Rattle.records.specs.Effects.{OwnFits, Leaves};
ghost use Rattle.records.specs.Lent.{IsLent, Takes, TakesOn};
ghost use Rattle.sets.specs.Within.{Within};

use leafset::leafset;
use model::message::{MessageRecord, MessageType};
use model::node::NodeRecord;
use model::values::{NodeNumber, Stamp};
use records::effect::{EffectRecord, Sends};
use records::message::{plain, viewing};
use records::node::Node;
use records::own::{add_candidate, add_candidates, hold, set_candidates};

// "type 5 to each candidate not held that is in my leafset of candidates and held together", then "type 3 to each held
// stand"; no candidate is left.
pub fn timer0(node: &Node<'_>) -> EffectRecord
    requires lent { IsLent node.now }
    ensures effect { (time : ℕ) → Takes node.now time result steps.timer0 }
{
    let near = leafset(
        node.keys,
        node.sides,
        node.me,
        node.own.candidates | node.own.held,
    );
    let invited = sets::minus(node.own.candidates, node.own.held) & near;
    EffectRecord::sending_both(
        set_candidates(*node.own, 0),
        Sends::Each(MessageType::PingInvite as u8, invited),
        Sends::Each(MessageType::PingAskInv as u8, node.own.held),
    )
}

// "On 3: answer type 4 with view = leafset of the sender in my held set; sender becomes a candidate."
pub fn on_ping_ask_inv(node: &Node<'_>, message: MessageRecord) -> EffectRecord
    requires lent { IsLent node.now }
    requires sender { message.sender.0 < length node.now.keys.now }
    ensures effect { (time : ℕ) → TakesOn node.now time message result steps.on_ping_ask_inv }
{
    let view = leafset(node.keys, node.sides, message.sender, node.own.held);
    let next = add_candidate(*node.own, message.sender);
    EffectRecord::replying(
        next,
        viewing(MessageType::PongAskInv as u8, node.me, message.sender, view),
    )
}

// "On 4: the view joins the candidates."
pub fn on_pong_ask_inv(own: NodeRecord, message: MessageRecord) -> EffectRecord
    ensures effect { (t : Table) (me time n : ℕ) → OwnFits n own → Within n message.view
        → Leaves n me time result (steps.on_pong_ask_inv t me time (own_of own) (message_of message)) }
{
    EffectRecord::quiet(add_candidates(own, message.view))
}

// "On 5: answer 6." All that it shares with `step_contact::on_ping_contact` is `replying` with a `plain` message.
pub fn on_ping_invite(me: NodeNumber, own: NodeRecord, message: MessageRecord) -> EffectRecord
    requires bounds { (me.0 < 64) × (message.sender.0 < 64) }
    ensures effect { (t : Table) (time n : ℕ) → OwnFits n own
        → Leaves n me.0 time result (steps.on_ping_invite t me.0 time (own_of own) (message_of message)) }
{
    EffectRecord::replying(
        own,
        plain(MessageType::PongInvite as u8, me, message.sender),
    )
}

// "On 6: take the sender in if it lies in my leafset of held plus sender."
pub fn on_pong_invite(node: &Node<'_>, time: Stamp, message: MessageRecord) -> EffectRecord
    requires lent { IsLent node.now }
    requires message { (time.0 < 2 ^ 24) × (message.sender.0 < length node.now.keys.now) }
    ensures effect { TakesOn node.now time.0 message result steps.on_pong_invite }
{
    let y = message.sender;
    let near = leafset(node.keys, node.sides, node.me, sets::with(node.own.held, y));
    if !sets::has(near, y) {
        return EffectRecord::quiet(*node.own);
    }
    EffectRecord::quiet(hold(*node.own, time, y))
}
