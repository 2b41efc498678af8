// Document 01's step 4: timer 3, and message types 9 and 10.
#![tactic(auto)]

ghost use Rattle.std.specs.Prelude.{◌≡◌, not, ◌&&◌, ℕ, ◌<◌, ◌^◌, eqb, ltb, length, if◌then◌else◌};
ghost use Rattle.model.specs.Sets.{of_bits, none_node};
ghost use Rattle.model.specs.Leafset.{Table};
ghost use Rattle.model.specs.Structs.{own_of, spare_at, RoomNode, message_of, stamp_at, RoomMessage};
ghost use Rattle.model.specs.Steps as steps;
ghost use Rattle.records.specs.Effects.{OwnFits, Leaves, Owns};
ghost use Rattle.records.specs.Lent.{IsLent, Takes, TakesOn};

use leafset::{leafset, outside};
use model::message::{MessageRecord, MessageType};
use model::node::NodeRecord;
use model::values::{NodeNumber, Stamp};
use records::effect::{EffectRecord, Sends};
use records::message::stamped;
use records::node::Node;
use records::own::{hold, release, set_commit};

// "for each held z outside my leafset with a spare, type 9 to the spare, subject z, stamp now"
pub fn timer3(node: &Node<'_>) -> EffectRecord
    requires lent { IsLent node.now }
    ensures effect { (time : ℕ) → Takes node.now time result steps.timer3 }
{
    let outside = outside(node.keys, node.sides, node.me, node.own.held);
    EffectRecord::sending(*node.own, Sends::ToSpares(spared(node.own, outside)))
}

// The members of the set that have a spare.
fn spared(own: &NodeRecord, set: u64) -> u64
    requires record { RoomNode own.now }
    ensures members { (z : ℕ) → of_bits result z ≡ (of_bits set z && not (eqb (spare_at own.now z) none_node)) }
{
    let mut out = 0;
    for z in sets::members(set) {
        if own.spare[z.index()] != NodeNumber::NONE {
            out = sets::with(out, z);
        }
    }
    out
}

// "On 9: if z is held, its commit becomes now and I answer 10 with the same subject and stamp."
pub fn on_ping_replace(
    me: NodeNumber,
    time: Stamp,
    own: NodeRecord,
    message: MessageRecord,
) -> EffectRecord
    requires record { (me.0 < 64) × (time.0 < 2 ^ 24) × (message.subject.0 < 64) × RoomNode own
        × RoomMessage message }
    ensures effect { (t : Table) (n : ℕ) → OwnFits n own
        → Leaves n me.0 time.0 result (steps.on_ping_replace t me.0 time.0 (own_of own) (message_of message)) }
{
    if !sets::has(own.held, message.subject) {
        return EffectRecord::quiet(own);
    }
    let next = set_commit(own, message.subject, time);
    let answer = stamped(
        MessageType::PongReplace as u8,
        me,
        message.sender,
        message.subject,
        message.stamp,
    );
    EffectRecord::replying(next, answer)
}

// Whether a stamp is earlier than another of the same clock. It is a function, so that a wrong order is refused at a
// goal of its own.
fn is_before(stamp: Stamp, other: Stamp) -> bool
    ensures value { result ≡ ltb stamp.0 other.0 }
{
    stamp < other
}

// "take y in; then, if z's commit is below the message's stamp, let go of z and set y's commit to now"
fn replaced(time: Stamp, own: NodeRecord, y: NodeNumber, z: NodeNumber, stamp: Stamp) -> NodeRecord
    requires record { (time.0 < 2 ^ 24) × (y.0 < 64) × (z.0 < 64) × OwnFits 64 own }
    ensures record { (n : ℕ) → OwnFits n own → y.0 < n
        → Owns n result
        (if ltb (stamp_at own z.0) stamp.0
        then steps.set_commit y.0 time.0 (steps.release z.0 (steps.hold time.0 y.0 (own_of own)))
        else steps.hold time.0 y.0 (own_of own)) }
{
    let next = hold(own, time, y);
    if is_before(own.commit[z.index()], stamp) {
        set_commit(release(next, z), y, time)
    } else {
        next
    }
}

// "On 10 from y: if z is held, outside my leafset, and its spare is y, .." replaced.
pub fn on_pong_replace(node: &Node<'_>, time: Stamp, message: MessageRecord) -> EffectRecord
    requires lent { IsLent node.now }
    requires message { (time.0 < 2 ^ 24) × (message.sender.0 < length node.now.keys.now)
        × (message.subject.0 < 64) }
    ensures effect { TakesOn node.now time.0 message result steps.on_pong_replace }
{
    let outside = outside(node.keys, node.sides, node.me, node.own.held);
    let z = message.subject;
    if sets::has(outside, z) && node.own.spare[z.index()] == message.sender {
        EffectRecord::quiet(replaced(time, *node.own, message.sender, z, message.stamp))
    } else {
        EffectRecord::quiet(*node.own)
    }
}
