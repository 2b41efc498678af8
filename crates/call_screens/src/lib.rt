// Public: the conductor's and the technician's screens. The calls require nothing; a refused one writes zeros into what
// it is lent.
#![tactic(auto)]

ghost use Rattle.std.specs.Prelude.{◌≡◌, true, ◌<◌, ◌≤◌, length, if◌then◌else◌};
ghost use Rattle.model.specs.Sets.{tabulate, to_bits};
ghost use Rattle.model.specs.Answers.{answer_number, given_or};
ghost use Rattle.model.specs.Words.{decode_table, decode, reads_as_ring};
ghost use Rattle.model.specs.Buffer.{ring_answer};
ghost use Rattle.model.specs.Structs.{RoomNode, spare_at, stamp_at};
ghost use Rattle.model.specs.Screens.{seen, shown_leafset, conductor_screen, empty_conductor, conductor_of};
ghost use Rattle.model.specs.Screens.{technician_screen, shown_stamps, shown_spares};
ghost use Rattle.model.specs.Screens.{technician_of, empty_technician, stamps_of, spares_of, messages_of};
ghost use Rattle.model.specs.Leafset as model;
ghost use Rattle.ring_ranges.specs.Spans.{Patched};
ghost use Rattle.call_screens.specs.Rows.{RowPut, spare_in, RowsPut};

use leafset::leafset;
use model::node::NodeRecord;
use model::refusal::Refusal;
use model::screen::{ConductorScreen, TechnicianScreen};
use model::values::{NodeNumber, Sides};
use word_ring::place;

// "A, B, the table, who is running and each running stand's leafset of its held set"
pub fn conductor(words: &[u32]) -> Result<ConductorScreen, Refusal>
    ensures answer { answer_number result ≡ ring_answer words.now }
    ensures screen { given_or empty_conductor result ≡ conductor_of words.now }
{
    call_refusals::of_words(words)?;
    Ok(conductor_of(words))
}

// "also shows candidates, stamps, spares": of the pair (x, z) at 64 x + z. The messages are `messages`.
pub fn technician(
    words: &[u32],
    stamps: &mut [u32; 4096],
    spares: &mut [u8; 4096],
) -> Result<TechnicianScreen, Refusal>
    ensures answer { answer_number result ≡ ring_answer words.now }
    ensures shown { (given_or empty_technician result ≡ technician_of words.now)
        × (stamps.new ≡ stamps_of words.now)
        × (spares.new ≡ spares_of words.now) }
{
    if let Err(refusal) = call_refusals::of_words(words) {
        clear(stamps, spares, 0);
        return Err(refusal);
    }
    Ok(technician_of(words, stamps, spares))
}

// "the travelling messages as a part of the ring's own words"; empty where refused
pub fn messages(words: &[u32]) -> &[u32]
    ensures part { result.now ≡ messages_of words.now }
{
    let Ok(()) = call_refusals::of_words(words) else {
        return &words[..0];
    };
    let end = place::MESSAGES + 5 * ring_head::messages(words);
    &words[place::MESSAGES..end]
}

// What is shown where a call is refused.
#[tactic(auto, unfolding(model::specs::Screens::empty_conductor))]
pub fn empty_conductor() -> ConductorScreen
    ensures value { result ≡ empty_conductor }
{
    ConductorScreen {
        sides: Sides {
            ahead: 0,
            behind: 0,
        },
        nodes: 0,
        running: 0,
        keys: [0; 64],
        leafsets: [0; 64],
    }
}

fn conductor_of(words: &[u32]) -> ConductorScreen
    requires ring { reads_as_ring words.now ≡ true }
    ensures value { result ≡ conductor_screen (seen (decode words.now)) }
{
    let n = ring_head::nodes(words);
    let keys = ring_head::keys(words, n);
    let sides = ring_head::sides(words);
    let leafsets = leafsets(words, &keys[..n], sides);
    with_leafsets(words, n, keys, leafsets)
}

fn technician_of(words: &[u32], stamps: &mut [u32], spares: &mut [u8]) -> TechnicianScreen
    requires ring { reads_as_ring words.now ≡ true }
    requires lengths { (length stamps.old ≡ 4096) × (length spares.old ≡ 4096) }
    ensures screen { result ≡ technician_screen (decode words.now) }
    ensures arrays { (stamps.new ≡ shown_stamps (decode words.now))
        × (spares.new ≡ shown_spares (decode words.now)) }
{
    let n = ring_head::nodes(words);
    let keys = ring_head::keys(words, n);
    let sides = ring_head::sides(words);
    let sets = put_rows(words, &keys[..n], sides, stamps, spares);
    clear(stamps, spares, 64 * n);
    let leafsets = sets.leafsets;
    let candidates = sets.candidates;
    TechnicianScreen {
        conductor: with_leafsets(words, n, keys, leafsets),
        candidates,
    }
}

// The conductor's screen, its keys and leafsets being read.
fn with_leafsets(words: &[u32], n: usize, keys: [u32; 64], leafsets: [u64; 64]) -> ConductorScreen
    requires ring { reads_as_ring words.now ≡ true }
    requires parts { (n ≡ model.size (decode_table words.now))
        × (keys ≡ tabulate 64 (model.key (decode_table words.now)))
        × (leafsets ≡ tabulate 64 (shown_leafset (seen (decode words.now)))) }
    ensures value { result ≡ conductor_screen (seen (decode words.now)) }
{
    ConductorScreen {
        sides: ring_head::sides(words),
        nodes: n as u32,
        running: ring_nodes::running(words, n),
        keys,
        leafsets,
    }
}

// The leafset of each running node; of the others, none. x is the number of a node.
fn leafsets(words: &[u32], keys: &[u32], sides: Sides) -> [u64; 64]
    requires ring { reads_as_ring words.now ≡ true }
    requires table { (keys.now ≡ (decode_table words.now).keys) × (sides ≡ (decode_table words.now).sides) }
    ensures value { result ≡ tabulate 64 (shown_leafset (seen (decode words.now))) }
{
    let mut leafsets = [0; 64];
    for x in 0..keys.len() {
        leafsets[x] = node_leafset(words, keys, sides, NodeNumber(x as u8));
    }
    leafsets
}

fn node_leafset(words: &[u32], keys: &[u32], sides: Sides, x: NodeNumber) -> u64
    requires ring { reads_as_ring words.now ≡ true }
    requires table { (keys.now ≡ (decode_table words.now).keys) × (sides ≡ (decode_table words.now).sides)
        × (x.0 < model.size (decode_table words.now)) }
    ensures value { result ≡ shown_leafset (seen (decode words.now)) x.0 }
{
    if !ring_nodes::is_running(words, x) {
        return 0;
    }
    let own = ring_pairs::load(words, keys.len(), x);
    leafset(keys, sides, x, own.held)
}

// Of each node, what a technician sees as a set.
#[derive(Clone, Copy)]
struct NodeSets {
    leafsets: [u64; 64],
    candidates: [u64; 64],
}

// Puts the stamps and spares of each node, and gives its sets. A node that is off holds nobody, so its leafset is
// empty.
fn put_rows(
    words: &[u32],
    keys: &[u32],
    sides: Sides,
    stamps: &mut [u32],
    spares: &mut [u8],
) -> NodeSets
    requires ring { reads_as_ring words.now ≡ true }
    requires lent { (keys.now ≡ (decode_table words.now).keys) × (sides ≡ (decode_table words.now).sides)
        × (length stamps.old ≡ 4096) × (length spares.old ≡ 4096) }
    ensures sets { (result.leafsets ≡ tabulate 64 (shown_leafset (seen (decode words.now))))
        × (result.candidates ≡ tabulate 64 (λ x. to_bits 64 ((decode words.now).node x).own.candidates)) }
    ensures arrays { RowsPut words.now stamps.old stamps.new (λ o. o.commit)
        × RowsPut words.now spares.old spares.new (λ o. o.spare) }
{
    let mut leafsets = [0; 64];
    let mut candidates = [0; 64];
    let n = keys.len();
    // x is the number of a node, and has a place in each array.
    for x in 0..n {
        let node = NodeNumber(x as u8);
        let own = ring_pairs::load(words, n, node);
        leafsets[x] = leafset(keys, sides, node, own.held);
        candidates[x] = own.candidates;
        put_row(stamps, spares, n, x, own);
    }
    NodeSets {
        leafsets,
        candidates,
    }
}

// Puts what node x, of n, has noted of each node: its commit stamp, and its spare. z has a place in each of four
// arrays.
fn put_row(stamps: &mut [u32], spares: &mut [u8], n: usize, x: usize, own: NodeRecord)
    requires lengths { (length stamps.old ≡ 4096) × (length spares.old ≡ 4096) × (x < 64) × RoomNode own }
    ensures stamps { RowPut stamps.old stamps.new x (stamp_at own) }
    ensures spares { RowPut spares.old spares.new x (spare_in n x own) }
{
    for z in 0..64 {
        let at = 64 * x + z;
        stamps[at] = own.commit[z].0;
        spares[at] = shown_spare(own.spare[z], (z < n) & (x != z));
    }
}

// 64 for none; 0 where there is no pair.
fn shown_spare(spare: NodeNumber, pair: bool) -> u8
    ensures value { result ≡ (if pair then spare.0 else 0) }
{
    if pair { spare.0 } else { 0 }
}

// Writes 0 from `from` on.
fn clear(stamps: &mut [u32], spares: &mut [u8], from: usize)
    requires lengths { (length stamps.old ≡ 4096) × (length spares.old ≡ 4096) × (from ≤ 4096) }
    ensures stamps { Patched stamps.old stamps.new from 4096 (λ i. 0) }
    ensures spares { Patched spares.old spares.new from 4096 (λ i. 0) }
{
    stamps[from..].fill(0);
    spares[from..].fill(0);
}
