// The links of a ring: a half at each node that holds the other.
ghost use Rattle.std.specs.Prelude.{◌≡◌, ◌+◌, ◌*◌, ◌<◌, ◌≤◌, length};
ghost use Rattle.model.specs.Words.{ring_length};
ghost use Rattle.draw_svg.specs.Room.{Room};
ghost use Rattle.draw_ring.specs.Scene.{Scene};

use draw_circle::curve::{Half, half_at};
use model::values::NodeNumber;

// A node, whom it holds, who of them lies outside its leafset, and its group.
#[derive(Clone, Copy)]
struct Holder {
    x: NodeNumber,
    held: u64,
    outside: u64,
    group: u8,
}

// Node x as a holder.
fn as_holder(words: &[u32], keys: &[u32], x: NodeNumber, group: u8) -> Holder
    requires scene { Scene words.now keys.now × (x.0 < length keys.now) }
    ensures node { result.x ≡ x }
{
    let own = ring_pairs::load(words, keys.len(), x);
    let held = own.held;
    Holder {
        x,
        held,
        outside: leafset::outside(keys, ring_head::sides(words), x, held),
        group,
    }
}

// Puts the link of the holder to z, if it holds z.
fn put_link(
    words: &[u32],
    discs: &[u32],
    holder: Holder,
    z: NodeNumber,
    out: &mut [u8],
    at: usize,
) -> usize
    requires nodes { (length words.now ≡ ring_length) × (length discs.now ≤ 64)
        × (holder.x.0 < length discs.now) × (z.0 < length discs.now) × (at + 412 ≤ length out.old) }
    ensures room { Room out.old out.new at result 412 }
{
    if !sets::has(holder.held, z) {
        return at;
    }
    let own = discs[holder.x.index()];
    put_halves(words, holder, z, own, discs[z.index()], out, at)
}

// Puts the link of the holder to z, between discs at two angles: the holder's half, and that of z if z does not hold
// it.
fn put_halves(
    words: &[u32],
    holder: Holder,
    z: NodeNumber,
    own: u32,
    other: u32,
    out: &mut [u8],
    at: usize,
) -> usize
    requires nodes { (length words.now ≡ ring_length) × (holder.x.0 < 64) × (z.0 < 64)
        × (at + 412 ≤ length out.old) }
    ensures room { Room out.old out.new at result 412 }
{
    let x = holder.x;
    let outside = sets::has(holder.outside, z);
    let end = draw_svg::put_held(out, at, half_at(own, other), holder.group, outside);
    put_back(
        out,
        end,
        half_at(other, own),
        ring_connection::holds(words, z, x),
    )
}

// Puts the half of a link at the node that is held, unless it holds the other, too.
fn put_back(out: &mut [u8], at: usize, half: Half, holds: bool) -> usize
    requires room { at + 194 ≤ length out.old }
    ensures room { Room out.old out.new at result 194 }
{
    if holds {
        return at;
    }
    draw_svg::put_only_held(out, at, half)
}

// Puts the links of the holder; z is the number of a node.
fn put_links_of(words: &[u32], discs: &[u32], holder: Holder, out: &mut [u8], at: usize) -> usize
    requires nodes { (length words.now ≡ ring_length) × (length discs.now ≤ 64)
        × (holder.x.0 < length discs.now) × (at + 26368 ≤ length out.old) }
    ensures room { Room out.old out.new at result 26368 }
{
    let mut end = at;
    for z in 0..discs.len() {
        end = put_link(words, discs, holder, NodeNumber(z as u8), out, end);
    }
    end
}

// Puts the links of each node.
pub fn put_links(
    words: &[u32],
    keys: &[u32],
    discs: &[u32],
    groups: &[u8],
    out: &mut [u8],
    at: usize,
) -> usize
    requires scene { Scene words.now keys.now × (length discs.now ≡ length keys.now)
        × (length groups.now ≡ 64) × (at + 26368 * length keys.now ≤ length out.old) }
    ensures room { Room out.old out.new at result (26368 * length keys.now) }
{
    let mut end = at;
    for (x, group) in groups[..keys.len()].iter().enumerate() {
        let holder = as_holder(words, keys, NodeNumber(x as u8), *group);
        end = put_links_of(words, discs, holder, out, end);
    }
    end
}
