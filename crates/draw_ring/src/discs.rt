// The discs of the nodes.
ghost use Rattle.std.specs.Prelude.{◌≡◌, ◌+◌, ◌*◌, ◌<◌, ◌≤◌, length};
ghost use Rattle.model.specs.Leafset.{size};
ghost use Rattle.model.specs.Words.{ring_length, decode_table};
ghost use Rattle.draw_svg.specs.Room.{Room};
ghost use Rattle.draw_ring.specs.Scene.{Scene};

use bench_lines::put_bytes;
use draw_circle::curve::DISCS;
use draw_circle::point_at;
use draw_svg::{node, put_filled};
use model::values::NodeNumber;

// The radius of a disc, of n: neighbours leave it room.
fn radius(n: usize) -> u32
    ensures bound { result ≤ 44 }
{
    match n {
        0..=16 => 44,
        17..=32 => 28,
        _ => 17,
    }
}

// Puts the disc of node x at an angle.
fn put_node(
    words: &[u32],
    x: NodeNumber,
    angle: u32,
    radius: u32,
    group: u8,
    out: &mut [u8],
    at: usize,
) -> usize
    requires node { (length words.now ≡ ring_length) × (x.0 < size (decode_table words.now))
        × (at + 300 ≤ length out.old) }
    ensures room { Room out.old out.new at result 300 }
{
    let p = point_at(angle, DISCS);
    if ring_nodes::is_running(words, x) {
        return node::put_running(out, at, x, p, radius, group);
    }
    node::put_off(out, at, x, p, radius)
}

// Puts the disc of each node.
fn put_each(
    words: &[u32],
    discs: &[u32],
    radius: u32,
    groups: &[u8],
    out: &mut [u8],
    at: usize,
) -> usize
    requires nodes { (length words.now ≡ ring_length) × (length discs.now ≡ size (decode_table words.now))
        × (length discs.now ≤ 64) × (length groups.now ≡ 64) × (at + 19200 ≤ length out.old) }
    ensures room { Room out.old out.new at result 19200 }
{
    let mut end = at;
    for (x, angle) in discs.iter().enumerate() {
        end = put_node(
            words,
            NodeNumber(x as u8),
            *angle,
            radius,
            groups[x],
            out,
            end,
        );
    }
    end
}

// Puts the discs, in the size that n nodes leave room for.
pub fn put_discs(
    words: &[u32],
    keys: &[u32],
    discs: &[u32],
    groups: &[u8],
    out: &mut [u8],
    at: usize,
) -> usize
    requires scene { Scene words.now keys.now × (length discs.now ≡ length keys.now)
        × (length groups.now ≡ 64) × (at + 19250 ≤ length out.old) }
    ensures room { Room out.old out.new at result 19250 }
{
    let radius = radius(keys.len());
    let size = u64::from(radius + radius / 4);
    let start = put_filled(out, at, b"<g font-size='%'>\n", &[size]);
    let end = put_each(words, discs, radius, groups, out, start);
    put_bytes(out, end, b"</g>\n")
}
