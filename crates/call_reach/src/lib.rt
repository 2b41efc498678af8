// "Where does a long reach land?": the owner of a key, and how many hops by fingers lead to it.
#![tactic(auto)]

ghost use Rattle.std.specs.Prelude.{◌≡◌, true, ◌≤◌, length};
ghost use Rattle.model.specs.Sets.{of_bits};
ghost use Rattle.model.specs.Answers.{answer_number};
ghost use Rattle.model.specs.Reach as model;
ghost use Rattle.sets.specs.Within.{Within, InTable};
ghost use Rattle.call_reach.specs.Walks.{Distances, Greatest, HopsToLast, Walked, reached};

use leafset_nearest::{Way, clockwise, nearest};
use model::refusal::Refusal;
use model::values::{Key, NodeNumber};
use word_ring::limit;

// The end node and the hop count are in the answer.
#[derive(Clone, Copy, Debug, PartialEq, Eq)]
pub struct Reached {
    pub end: NodeNumber,
    pub hops: u32,
}

// "spans 1, 2, 4 up to 8,388,608, kept as a table of 24 numbers"
const SPANS: [u32; 24] = [
    1, 2, 4, 8, 16, 32, 64, 128, 256, 512, 1024, 2048, 4096, 8192, 16_384, 32_768, 65_536, 131_072,
    262_144, 524_288, 1_048_576, 2_097_152, 4_194_304, 8_388_608,
];

// More than any distance.
const BEYOND: u32 = 16_777_216;

// How far before a place each node of the set lies, going clockwise; the others are beyond.
fn distances(keys: &[u32], set: u64, to: Key) -> [u32; 64]
    requires table { (length keys.now ≤ 64) × Within (length keys.now) set }
    ensures far { Distances keys.now set to.0 result }
{
    let mut far = [BEYOND; 64];
    for y in sets::members(set) {
        far[y.index()] = clockwise(Key(keys[y.index()]), to);
    }
    far
}

// The greatest of the distances that are at most the limit; 0 where there is none.
fn farthest(far: &[u32], limit: u32) -> u32
    ensures value { Greatest far.now (length far.now) limit result }
{
    let mut best = 0;
    for d in far {
        let near = if *d <= limit { *d } else { 0 };
        best = best.max(near);
    }
    best
}

// The hops from so far before the last running node before the key to that node: over each span at most once, from the
// greatest down, to the node first met from there.
fn hops_to_last(far: &[u32], distance: u32) -> u32
    ensures hops { HopsToLast far.now distance result }
    ensures bound { result ≤ 24 }
{
    let spans = SPANS;
    let mut left = distance;
    let mut hops = 0;
    for i in (0..24).rev() {
        let span = spans[i];
        if span <= left {
            left = farthest(far, left - span);
            hops += 1;
        }
    }
    hops
}

// From a running node to the owner of the key: to the last running node before the key, and one hop on.
fn walk(keys: &[u32], running: u64, key: Key, start: NodeNumber) -> Reached
    requires table { InTable keys.now start.0 running }
    requires start { (of_bits running start.0 ≡ true) × (key.0 ≤ 16777215) }
    ensures walked { Walked keys.now running key.0 start.0
        (record { end = result.end.0; hops = result.hops }) }
{
    let owner = nearest(keys, Way::Clockwise, key, running).unwrap();
    if start == owner {
        return Reached {
            end: owner,
            hops: 0,
        };
    }
    let before = Key(key.0 + 16_777_215);
    let last = nearest(keys, Way::CounterClockwise, before, running).unwrap();
    let to = Key(keys[last.index()]);
    let far = distances(keys, running, to);
    let hops = hops_to_last(&far[..keys.len()], clockwise(Key(keys[start.index()]), to));
    Reached {
        end: owner,
        hops: hops + 1,
    }
}

// 1, 6, 7 and 8; then 12.
fn refusal(words: &[u32], start: NodeNumber, key: u32) -> Result<(), Refusal>
    ensures answer { answer_number result ≡ model.reach_answer words.now start.0 key }
{
    call_refusals::of_nodes(words, start, start)?;
    if limit::KEY < key {
        return Err(Refusal::KeyOutOfRange);
    }
    Ok(())
}

// The reach from a running node to the owner of the key.
pub fn reach(words: &[u32], start: NodeNumber, key: u32) -> Result<Reached, Refusal>
    ensures reach { reached result ≡ model.reach_of words.now start.0 key }
{
    refusal(words, start, key)?;
    let n = ring_head::nodes(words);
    let keys = ring_head::keys(words, n);
    let running = ring_nodes::running(words, n);
    Ok(walk(&keys[..n], running, Key(key), start))
}
