// The drawing of a ring, from words that read as one: leads, links, discs, and what is written beside them. The words,
// the keys, the angles and the groups stay slices of their own: each part draws from some of them.
#![tactic(auto)]

pub mod discs;
pub mod links;
pub mod texts;

ghost use Rattle.std.specs.Prelude.{◌≡◌, true, ◌+◌, ◌*◌, ◌≤◌, length};
ghost use Rattle.model.specs.Words.{reads_as_ring};
ghost use Rattle.draw_svg.specs.Room.{Room};
ghost use Rattle.draw_ring.specs.Scene.{Scene};

use draw_svg::{frame, node};

// Room for any drawing.
pub const ROOM: usize = 1_740_000;

// Puts the drawing at the start of `out`, and answers where it ends.
pub fn put_ring(words: &[u32], out: &mut [u8]) -> usize
    requires ring { reads_as_ring words.now ≡ true }
    requires room { 1740000 ≤ length out.old }
    ensures room { Room out.old out.new 0 result 1740000 }
{
    let n = ring_head::nodes(words);
    let keys = ring_head::keys(words, n);
    put_keyed(words, &keys[..n], out)
}

// Puts the drawing of the ring that has these keys.
fn put_keyed(words: &[u32], keys: &[u32], out: &mut [u8]) -> usize
    requires scene { Scene words.now keys.now × (1740000 ≤ length out.old) }
    ensures room { Room out.old out.new 0 result 1740000 }
{
    let n = keys.len();
    let discs = draw_places::discs(keys);
    let mut groups = [0; 64];
    let count = draw_groups::number_groups(words, n, &mut groups);
    let figure = put_figure(words, keys, &discs[..n], &groups, out);
    put_texts(words, keys, &groups, count, out, figure)
}

// Puts the head, and all that is drawn inside the circle of the keys.
fn put_figure(words: &[u32], keys: &[u32], discs: &[u32], groups: &[u8], out: &mut [u8]) -> usize
    requires scene { Scene words.now keys.now × (length discs.now ≡ length keys.now)
        × (length groups.now ≡ 64) × (1724000 ≤ length out.old) }
    ensures room { Room out.old out.new 0 result 1724000 }
{
    let head = frame::put_head(out, 0);
    let circle = frame::put_circle(out, head);
    let leads = put_leads(keys, discs, out, circle);
    let links = links::put_links(words, keys, discs, groups, out, leads);
    discs::put_discs(words, keys, discs, groups, out, links)
}

// Puts the lead of each node.
fn put_leads(keys: &[u32], discs: &[u32], out: &mut [u8], at: usize) -> usize
    requires nodes { (length discs.now ≡ length keys.now) × (at + 225 * length keys.now ≤ length out.old) }
    ensures room { Room out.old out.new at result (225 * length keys.now) }
{
    let mut end = at;
    for (disc, key) in discs.iter().zip(keys) {
        end = node::put_lead(out, end, *disc, draw_places::angle(*key));
    }
    end
}

// Puts the title, how the drawing is read, the line of each node, and the end.
fn put_texts(
    words: &[u32],
    keys: &[u32],
    groups: &[u8],
    count: u32,
    out: &mut [u8],
    at: usize,
) -> usize
    requires scene { Scene words.now keys.now × (length groups.now ≡ 64)
        × (at + 14000 ≤ length out.old) }
    ensures room { Room out.old out.new at result 14000 }
{
    let title = texts::put_title(words, keys.len(), count, out, at);
    let reading = frame::put_reading(out, title);
    let lines = texts::put_lines(words, keys, groups, out, reading);
    frame::put_end(out, lines)
}
