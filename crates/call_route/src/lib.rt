// "Which desk keeps this bar?": the route to the node nearest to a key.
#![tactic(auto)]

ghost use Rattle.std.specs.Prelude.{◌≡◌, ◌+◌, ◌<◌, ◌≤◌, length};
ghost use Rattle.model.specs.Answers.{answer_number};
ghost use Rattle.model.specs.Words.{decode};
ghost use Rattle.model.specs.Route as model;
ghost use Rattle.call_route.specs.Walks.{Ready, IsNext, Walked, routed};

use leafset_nearest::{Way, span};
use model::refusal::Refusal;
use model::values::{Key, NodeNumber};
use word_ring::limit;

// "the end stand and the hop count are in the answer"
#[derive(Clone, Copy, Debug, PartialEq, Eq)]
pub struct Arrival {
    pub end: NodeNumber,
    pub hops: u32,
}

// Where a walk ends, and at which place of the list.
#[derive(Clone, Copy)]
struct End {
    node: NodeNumber,
    place: usize,
}

// The nearest of the running nodes that x holds, if it is nearer than x.
fn next(words: &[u32], keys: &[u32], running: u64, key: Key, x: NodeNumber) -> Option<NodeNumber>
    requires ready { Ready words.now keys.now running }
    requires node { x.0 < length keys.now }
    ensures next { IsNext (decode words.now) key.0 x.0 result }
{
    let own = ring_pairs::load(words, keys.len(), x);
    let y = leafset_nearest::nearest(keys, Way::Either, key, own.held & running)?;
    let there = span(Way::Either, key, Key(keys[y.index()]));
    let here = span(Way::Either, key, Key(keys[x.index()]));
    if there < here { Some(y) } else { None }
}

// "The rest of the route is the route from the next stand": from x on, written from a place of the list on.
fn walk(
    words: &[u32],
    keys: &[u32],
    running: u64,
    key: Key,
    x: NodeNumber,
    list: &mut [u8],
    place: usize,
) -> End
    requires ready { Ready words.now keys.now running }
    requires room { (x.0 < length keys.now)
        × (place + length (model.route (decode words.now) key.0 x.0) ≤ length list.old) }
    ensures walked { Walked list.old place
        (model.route (decode words.now) key.0 x.0) result.node.0 result.place list.new }
{
    list[place] = x.0;
    let Some(y) = next(words, keys, running, key, x) else {
        return End { node: x, place };
    };
    walk(words, keys, running, key, y, list, place + 1)
}

// 1, 6, 7 and 8; then 12 and 13.
fn refusal(words: &[u32], start: NodeNumber, key: u32, list: &[u8]) -> Result<(), Refusal>
    ensures answer { answer_number result
        ≡ model.route_answer words.now start.0 key list.now }
{
    call_refusals::of_nodes(words, start, start)?;
    if limit::KEY < key {
        return Err(Refusal::KeyOutOfRange);
    }
    if list.len() < 64 {
        return Err(Refusal::ListTooShort);
    }
    Ok(())
}

// The route from a running node to the key, into the list.
pub fn route(
    words: &[u32],
    start: NodeNumber,
    key: u32,
    list: &mut [u8],
) -> Result<Arrival, Refusal>
    ensures routed { routed result list.new
        ≡ model.route_buffer words.now start.0 key list.old }
{
    refusal(words, start, key, list)?;
    let n = ring_head::nodes(words);
    let keys = ring_head::keys(words, n);
    let running = ring_nodes::running(words, n);
    let last = walk(words, &keys[..n], running, Key(key), start, list, 0);
    Ok(Arrival {
        end: last.node,
        hops: last.place as u32,
    })
}
