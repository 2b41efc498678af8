// Deloopy: timer 4, and message types 11 and 12.
#![tactic(auto)]

ghost use Rattle.std.specs.Prelude.{ℕ, ◌<◌, length};
ghost use Rattle.model.specs.Leafset.{Table};
ghost use Rattle.model.specs.Structs.{table_of, own_of, message_of};
ghost use Rattle.model.specs.Steps as steps;
ghost use Rattle.model.specs.declared.values.Sides.{Sides};
ghost use Rattle.sets.specs.Within.{InTable};
ghost use Rattle.records.specs.Effects.{OwnFits, Leaves};

use leafset_choice::{passes_zero, successor};
use model::message::{MessageRecord, MessageType};
use model::node::NodeRecord;
use model::values::NodeNumber;
use records::effect::EffectRecord;
use records::message::{naming, plain};
use records::own::{add_candidate, hold};

// "if it passes zero, type 11, subject myself, to the successor"
pub fn timer4(keys: &[u32], me: NodeNumber, own: NodeRecord) -> EffectRecord
    requires table { InTable keys.now me.0 own.held }
    requires record { OwnFits (length keys.now) own }
    ensures effect { (sides : Sides) (time : ℕ)
        → Leaves (length keys.now) me.0 time result
        (steps.timer4 (table_of sides keys.now) me.0 time (own_of own)) }
{
    if !passes_zero(keys, me, own.held) {
        return EffectRecord::quiet(own);
    }
    let next = successor(keys, me, own.held).unwrap();
    EffectRecord::replying(own, naming(MessageType::PingDeloopy as u8, me, next, me))
}

// "On 11, subject o: nothing if o is me or I hold nobody; if my successor passes zero, o becomes a candidate and I
// send type 12 to o; else type 11, subject o, to my successor."
pub fn on_ping_deloopy(
    keys: &[u32],
    me: NodeNumber,
    own: NodeRecord,
    message: MessageRecord,
) -> EffectRecord
    requires table { InTable keys.now me.0 own.held × OwnFits (length keys.now) own
        × (message.subject.0 < length keys.now) }
    ensures effect { (sides : Sides) (time : ℕ)
        → Leaves (length keys.now) me.0 time result
        (steps.on_ping_deloopy (table_of sides keys.now) me.0 time (own_of own) (message_of message)) }
{
    if message.subject == me || own.held == 0 {
        return EffectRecord::quiet(own);
    }
    if passes_zero(keys, me, own.held) {
        let next = add_candidate(own, message.subject);
        return EffectRecord::replying(
            next,
            plain(MessageType::PongDeloopy as u8, me, message.subject),
        );
    }
    let next = successor(keys, me, own.held).unwrap();
    EffectRecord::replying(
        own,
        naming(MessageType::PingDeloopy as u8, me, next, message.subject),
    )
}

// "On 12: the sender becomes a candidate."
pub fn on_pong_deloopy(own: NodeRecord, message: MessageRecord) -> EffectRecord
    requires bounds { message.sender.0 < 64 }
    ensures effect { (t : Table) (me time n : ℕ) → OwnFits n own → message.sender.0 < n
        → Leaves n me time result (steps.on_pong_deloopy t me time (own_of own) (message_of message)) }
{
    EffectRecord::quiet(add_candidate(own, message.sender))
}
