// The curve between two discs, in halves: each is a cubic curve of its own.
ghost use Rattle.std.specs.Prelude.{◌≡◌, ◌≤◌};
ghost use Rattle.draw_circle.specs.Links.{apart_of, depth_of, half_of};

use super::{Point, TURN, point_at};

// The radius at which the discs lie.
pub const DISCS: u32 = 800;

// The half of a curve that begins at a disc: its begin, its two control points, its end.
#[derive(Clone, Copy, Debug, PartialEq, Eq)]
pub struct Half {
    pub begin: Point,
    pub first: Point,
    pub second: Point,
    pub end: Point,
}

// How far apart two angles are, the shorter way round.
fn apart(a: u32, b: u32) -> u32
    ensures value { result ≡ apart_of a b }
    ensures bound { result ≤ 32768 }
{
    let there = b.wrapping_sub(a) % TURN;
    there.min(TURN - there)
}

// The radius of the control points between discs that are so far apart: the farther, the nearer to the centre.
fn depth(apart: u32) -> u32
    requires bounds { apart ≤ 32768 }
    ensures value { result ≡ depth_of apart }
    ensures bound { result ≤ 740 }
{
    740 - 875 * apart / (apart + 8192)
}

// The half at the disc at angle a of the curve to the disc at angle b.
pub fn half_at(a: u32, b: u32) -> Half
    ensures value { result ≡ half_of a b }
{
    let depth = depth(apart(a, b));
    let p = point_at(a, DISCS);
    let q = point_at(a, depth);
    let s = point_at(b, depth);
    let t = point_at(b, DISCS);
    Half {
        begin: p,
        first: (p + q) / 2,
        second: (p + 2 * q + s) / 4,
        end: (p + 3 * q + 3 * s + t) / 8,
    }
}
