// The step of a timer by its number, and of a delivered message by its type.
#![tactic(auto)]

ghost use Rattle.std.specs.Prelude.{ℕ, ◌<◌, ◌^◌, length};
ghost use Rattle.model.specs.Steps as steps;
ghost use Rattle.records.specs.Effects.{Delivered};
ghost use Rattle.records.specs.Lent.{IsLent, Takes, TakesOn};

use model::message::{MessageRecord, MessageType};
use model::timer::TimerKind;
use model::values::Stamp;
use records::effect::EffectRecord;
use records::node::Node;

// The step of timer k; 1 and above 4 no timer has one.
pub fn timer(node: &Node<'_>, k: u8) -> EffectRecord
    requires lent { IsLent node.now }
    ensures effect { (time : ℕ) → Takes node.now time result (λ t me now o. steps.timer t me now o k) }
{
    match TimerKind::try_from(k) {
        Ok(TimerKind::Invite) => step_invite::timer0(node),
        Ok(TimerKind::AskReplacement) => step_spare::timer2(node),
        Ok(TimerKind::Replace) => step_replace::timer3(node),
        Ok(TimerKind::Deloopy) => step_deloopy::timer4(node.keys, node.me, *node.own),
        Err(_) => EffectRecord::quiet(*node.own),
    }
}

// The step of the message's type; nothing for a number that is no type.
pub fn deliver(node: &Node<'_>, time: Stamp, message: MessageRecord) -> EffectRecord
    requires lent { IsLent node.now }
    requires message { (time.0 < 2 ^ 24) × Delivered (length node.now.keys.now) message }
    ensures effect { TakesOn node.now time.0 message result steps.deliver }
{
    match MessageType::try_from(message.tag) {
        Ok(MessageType::PingContact) => step_contact::on_ping_contact(node.me, *node.own, message),
        Ok(MessageType::PongContact) => step_contact::on_pong_contact(time, *node.own, message),
        Ok(MessageType::PingAskInv) => step_invite::on_ping_ask_inv(node, message),
        Ok(MessageType::PongAskInv) => step_invite::on_pong_ask_inv(*node.own, message),
        Ok(MessageType::PingInvite) => step_invite::on_ping_invite(node.me, *node.own, message),
        Ok(MessageType::PongInvite) => step_invite::on_pong_invite(node, time, message),
        Ok(MessageType::PingAskRepl) => step_spare::on_ping_ask_repl(node, message),
        Ok(MessageType::PongAskRepl) => step_spare::on_pong_ask_repl(*node.own, message),
        Ok(MessageType::PingReplace) => step_replace::on_ping_replace(
            node.me, time, *node.own, message,
        ),
        Ok(MessageType::PongReplace) => step_replace::on_pong_replace(node, time, message),
        Ok(MessageType::PingDeloopy) => step_deloopy::on_ping_deloopy(
            node.keys, node.me, *node.own, message,
        ),
        Ok(MessageType::PongDeloopy) => step_deloopy::on_pong_deloopy(*node.own, message),
        Ok(MessageType::Leave) => step_leave::on_leave(*node.own, message),
        Err(_) => EffectRecord::quiet(*node.own),
    }
}
