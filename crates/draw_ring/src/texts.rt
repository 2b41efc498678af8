// What is written beside the circle: the title, and a line for each node.
ghost use Rattle.std.specs.Prelude.{◌≡◌, ◌+◌, ◌*◌, ◌<◌, ◌≤◌, length};
ghost use Rattle.model.specs.Leafset.{size};
ghost use Rattle.model.specs.Words.{ring_length, decode_table};
ghost use Rattle.draw_svg.specs.Room.{Room};
ghost use Rattle.draw_ring.specs.Scene.{Scene};

use draw_svg::{node, put_filled};
use model::values::NodeNumber;

// Puts the title: how many nodes, running nodes, groups and messages in flight there are.
pub fn put_title(words: &[u32], n: usize, groups: u32, out: &mut [u8], at: usize) -> usize
    requires words { (length words.now ≡ ring_length) × (n ≡ size (decode_table words.now)) × (n ≤ 64)
        × (at + 180 ≤ length out.old) }
    ensures room { Room out.old out.new at result 180 }
{
    let running = sets::size(ring_nodes::running(words, n));
    let numbers = [
        n as u64,
        u64::from(running),
        u64::from(groups),
        ring_head::messages(words) as u64,
    ];
    put_filled(
        out,
        at,
        b"<text class='t' x='40' y='66'>nodes: %, running: %, groups: %, messages in flight: %</text>\n",
        &numbers,
    )
}

// Puts the line of node x, of n.
fn put_line(
    words: &[u32],
    n: usize,
    x: NodeNumber,
    key: u32,
    group: u8,
    out: &mut [u8],
    at: usize,
) -> usize
    requires node { (length words.now ≡ ring_length) × (n ≡ size (decode_table words.now)) × (n ≤ 64) × (x.0 < n)
        × (at + 200 ≤ length out.old) }
    ensures room { Room out.old out.new at result 200 }
{
    if !ring_nodes::is_running(words, x) {
        return node::put_off_line(out, at, x, key);
    }
    let own = ring_pairs::load(words, n, x);
    node::put_running_line(out, at, x, key, group, sets::size(own.held))
}

// Puts the line of each node.
pub fn put_lines(words: &[u32], keys: &[u32], groups: &[u8], out: &mut [u8], at: usize) -> usize
    requires scene { Scene words.now keys.now × (length groups.now ≡ 64)
        × (at + 12800 ≤ length out.old) }
    ensures room { Room out.old out.new at result 12800 }
{
    let mut end = at;
    for (x, key) in keys.iter().enumerate() {
        end = put_line(
            words,
            keys.len(),
            NodeNumber(x as u8),
            *key,
            groups[x],
            out,
            end,
        );
    }
    end
}
