// Changes of an own record.
ghost use Rattle.std.specs.Prelude.{ℕ, ◌<◌, ◌^◌};
ghost use Rattle.model.specs.Sets.{of_bits, put, none_node};
ghost use Rattle.model.specs.Structs.{own_of, stamp_at, spare_at, RoomNode};
ghost use Rattle.model.specs.Steps as steps;
ghost use Rattle.sets.specs.Within.{Within};
ghost use Rattle.records.specs.Effects.{OwnFits, Owns};

use model::node::NodeRecord;
use model::values::{NodeNumber, Stamp};

// A record that holds nobody.
pub fn empty() -> NodeRecord
    ensures fits { (n : ℕ) → OwnFits n result }
{
    NodeRecord {
        held: 0,
        candidates: 0,
        commit: [Stamp(0); 64],
        spare: [NodeNumber::NONE; 64],
    }
}

pub fn set_candidates(own: NodeRecord, set: u64) -> NodeRecord
    ensures record { (n : ℕ) → OwnFits n own → Within n set
        → Owns n result (steps.set_candidates (of_bits set) (own_of own)) }
{
    NodeRecord {
        candidates: set,
        ..own
    }
}

pub fn add_candidate(own: NodeRecord, y: NodeNumber) -> NodeRecord
    requires bounds { y.0 < 64 }
    ensures record { (n : ℕ) → OwnFits n own → y.0 < n → Owns n result (steps.add_candidate y.0 (own_of own)) }
{
    set_candidates(own, sets::with(own.candidates, y))
}

pub fn add_candidates(own: NodeRecord, set: u64) -> NodeRecord
    ensures record { (n : ℕ) → OwnFits n own → Within n set
        → Owns n result (steps.add_candidates (of_bits set) (own_of own)) }
{
    set_candidates(own, own.candidates | set)
}

pub fn set_commit(mut own: NodeRecord, z: NodeNumber, time: Stamp) -> NodeRecord
    requires record { (z.0 < 64) × (time.0 < 2 ^ 24) × RoomNode own }
    ensures record { (n : ℕ) → OwnFits n own → Owns n result (steps.set_commit z.0 time.0 (own_of own)) }
{
    own.commit[z.index()] = time;
    own
}

pub fn set_spare(mut own: NodeRecord, z: NodeNumber, y: NodeNumber) -> NodeRecord
    requires record { (z.0 < 64) × (y.0 < 2 ^ 7) × RoomNode own }
    ensures record { (n : ℕ) → OwnFits n own → Owns n result (steps.set_spare z.0 y.0 (own_of own)) }
{
    own.spare[z.index()] = y;
    own
}

// The record with another held set, and with a commit stamp and no spare for z.
fn set_held(mut own: NodeRecord, held: u64, z: NodeNumber, commit: Stamp) -> NodeRecord
    requires record { (z.0 < 64) × (commit.0 < 2 ^ 24) × RoomNode own }
    ensures record { (n : ℕ) → OwnFits n own → Within n held
        → Owns n result
        (record {
          held = of_bits held;
          candidates = of_bits own.candidates;
          commit = put (stamp_at own) z.0
              commit.0;
          spare = put (spare_at own) z.0 none_node;
        }) }
{
    own.held = held;
    own.commit[z.index()] = commit;
    own.spare[z.index()] = NodeNumber::NONE;
    own
}

// "if not held, it becomes held with commit now and no spare; if held, nothing changes"
pub fn hold(own: NodeRecord, time: Stamp, y: NodeNumber) -> NodeRecord
    requires record { (y.0 < 64) × (time.0 < 2 ^ 24) × RoomNode own }
    ensures record { (n : ℕ) → OwnFits n own → y.0 < n
        → Owns n result (steps.hold time.0 y.0 (own_of own)) }
{
    if sets::has(own.held, y) {
        return own;
    }
    set_held(own, sets::with(own.held, y), y, time)
}

// "held, stamp and spare are cleared"
pub fn release(own: NodeRecord, z: NodeNumber) -> NodeRecord
    requires bounds { z.0 < 64 }
    requires record { RoomNode own }
    ensures record { (n : ℕ) → OwnFits n own → Owns n result (steps.release z.0 (own_of own)) }
{
    set_held(own, sets::without(own.held, z), z, Stamp(0))
}

// As a notice does: "lets go of its subject if held", and "strikes its subject from the receiver's candidates, held or
// not".
pub fn forget(own: NodeRecord, z: NodeNumber) -> NodeRecord
    requires bounds { z.0 < 64 }
    requires record { RoomNode own }
    ensures record { (n : ℕ) → OwnFits n own → Owns n result (steps.forget z.0 (own_of own)) }
{
    let candidates = sets::without(own.candidates, z);
    if !sets::has(own.held, z) {
        return set_candidates(own, candidates);
    }
    set_candidates(release(own, z), candidates)
}
