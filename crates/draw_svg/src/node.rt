// What is drawn of one node: its lead, its disc, its line of text.
ghost use Rattle.std.specs.Prelude.{◌+◌, ◌≤◌, length};
ghost use Rattle.draw_svg.specs.Room.{Room};

use super::{colour, put_filled};
use draw_circle::curve::DISCS;
use draw_circle::{Point, TURN, point_at};
use model::values::NodeNumber;

// The radius at which leads go round, and that of the keys.
const ROUND: u32 = 870;

const KEYS: u32 = 920;

// Puts the lead from the disc to the key, by their angles: out, the shorter way round, and out again.
pub fn put_lead(out: &mut [u8], at: usize, disc: u32, key: u32) -> usize
    requires room { at + 225 ≤ length out.old }
    ensures room { Room out.old out.new at result 225 }
{
    let onward = key.wrapping_sub(disc) % TURN < TURN / 2;
    let begin = point_at(disc, DISCS);
    let first = point_at(disc, ROUND);
    let second = point_at(key, ROUND);
    let end = point_at(key, KEYS);
    let numbers = [
        u64::from(begin.x),
        u64::from(begin.y),
        u64::from(first.x),
        u64::from(first.y),
        u64::from(onward),
        u64::from(second.x),
        u64::from(second.y),
        u64::from(end.x),
        u64::from(end.y),
    ];
    put_filled(
        out,
        at,
        b"<path class='k' d='M% %L% %A870 870 0 0 % % %L% %'/>\n",
        &numbers,
    )
}

// Where the number of a disc stands: in its middle, its foot below.
fn foot(p: Point, radius: u32) -> u64 {
    u64::from(p.y) + u64::from(radius) * 7 / 16
}

// Puts the disc of a running node, with its number.
pub fn put_running(
    out: &mut [u8],
    at: usize,
    x: NodeNumber,
    p: Point,
    radius: u32,
    group: u8,
) -> usize
    requires room { at + 300 ≤ length out.old }
    ensures room { Room out.old out.new at result 300 }
{
    let across = u64::from(p.x);
    let numbers = [
        colour(group),
        across,
        u64::from(p.y),
        u64::from(radius),
        across,
        foot(p, radius),
        u64::from(x.0),
    ];
    put_filled(
        out,
        at,
        b"<circle class='r g%' cx='%' cy='%' r='%'/>\n<text class='n' x='%' y='%'>%</text>\n",
        &numbers,
    )
}

// Puts the disc of a node that is off, with its number.
pub fn put_off(out: &mut [u8], at: usize, x: NodeNumber, p: Point, radius: u32) -> usize
    requires room { at + 300 ≤ length out.old }
    ensures room { Room out.old out.new at result 300 }
{
    let across = u64::from(p.x);
    let numbers = [
        across,
        u64::from(p.y),
        u64::from(radius),
        across,
        foot(p, radius),
        u64::from(x.0),
    ];
    put_filled(
        out,
        at,
        b"<circle class='f' cx='%' cy='%' r='%'/>\n<text class='m' x='%' y='%'>%</text>\n",
        &numbers,
    )
}

// The foot of node x's line of text.
fn line_of(x: NodeNumber) -> u64 {
    150 + 30 * u64::from(x.0)
}

// Puts the line of text of a running node.
pub fn put_running_line(
    out: &mut [u8],
    at: usize,
    x: NodeNumber,
    key: u32,
    group: u8,
    held: u32,
) -> usize
    requires room { at + 200 ≤ length out.old }
    ensures room { Room out.old out.new at result 200 }
{
    let numbers = [
        colour(group),
        line_of(x),
        u64::from(x.0),
        u64::from(key),
        u64::from(group),
        u64::from(held),
    ];
    put_filled(
        out,
        at,
        b"<text class='l g%' x='2040' y='%'>%: key %, group %, holds %</text>\n",
        &numbers,
    )
}

// Puts the line of text of a node that is off.
pub fn put_off_line(out: &mut [u8], at: usize, x: NodeNumber, key: u32) -> usize
    requires room { at + 200 ≤ length out.old }
    ensures room { Room out.old out.new at result 200 }
{
    let numbers = [line_of(x), u64::from(x.0), u64::from(key)];
    put_filled(
        out,
        at,
        b"<text fill='#777' x='2040' y='%'>%: key %, off</text>\n",
        &numbers,
    )
}
