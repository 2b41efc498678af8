// Points on the drawing, by angle and radius. A turn has 65,536 parts, from the top, clockwise; an angle beyond a turn
// counts as its place on it. All numbers are whole.
#![tactic(auto)]

pub mod curve;

ghost use Rattle.std.specs.Prelude.{◌≡◌, ◌+◌, ◌*◌, ◌^◌, ◌<◌, ◌≤◌, slice_index};
ghost use Rattle.draw_circle.specs.Circle.{sines, quarter_sine, share_of, point_at, OnSheet};
ghost use Rattle.draw_circle.specs.Points.{sum, multiple, part};

use std::ops::{Add, Div, Mul};

pub const TURN: u32 = 65_536;

const QUARTER: u32 = TURN / 4;

// A place on the drawing, from its left upper corner.
#[derive(Clone, Copy, Debug, PartialEq, Eq)]
pub struct Point {
    pub x: u32,
    pub y: u32,
}

impl Add for Point {
    type Output = Point;

    ghost can_add = { λ p q. (p.x + q.x < 2 ^ 32) × (p.y + q.y < 2 ^ 32) };

    ghost add_gives = { λ p q r. r ≡ sum p q };

    fn add(self, other: Point) -> Point {
        Point {
            x: self.x + other.x,
            y: self.y + other.y,
        }
    }
}

impl Mul<Point> for u32 {
    type Output = Point;

    ghost can_mul = { λ k p. (k * p.x < 2 ^ 32) × (k * p.y < 2 ^ 32) };

    ghost mul_gives = { λ k p r. r ≡ multiple k p };

    fn mul(self, p: Point) -> Point {
        Point {
            x: self * p.x,
            y: self * p.y,
        }
    }
}

impl Div<u32> for Point {
    type Output = Point;

    ghost can_div = { λ _ k. 0 < k };

    ghost div_gives = { λ p k r. r ≡ part p k };

    fn div(self, k: u32) -> Point {
        Point {
            x: self.x / k,
            y: self.y / k,
        }
    }
}

// The centre of the circle.
const CENTRE_X: u32 = 1050;

const CENTRE_Y: u32 = 1110;

// 32,768 times the sine of each 64th of a quarter turn.
const SINES: [u32; 65] = [
    0, 804, 1608, 2411, 3212, 4011, 4808, 5602, 6393, 7180, 7962, 8740, 9512, 10279, 11039, 11793,
    12540, 13279, 14010, 14733, 15447, 16151, 16846, 17531, 18205, 18868, 19520, 20160, 20788,
    21403, 22006, 22595, 23170, 23732, 24279, 24812, 25330, 25833, 26320, 26791, 27246, 27684,
    28106, 28511, 28899, 29269, 29622, 29957, 30274, 30572, 30853, 31114, 31357, 31581, 31786,
    31972, 32138, 32286, 32413, 32522, 32610, 32679, 32729, 32758, 32768,
];

// Entry i of the table.
fn entry(i: usize) -> u32
    requires bounds { i < 65 }
    ensures value { result ≡ slice_index sines i }
    ensures bound { result ≤ 32768 }
{
    SINES[i]
}

// 32,768 times the sine of an angle of the first quarter turn, its end included: between two entries, in proportion.
fn quarter_sine(angle: u32) -> u32
    requires bounds { angle ≤ 16384 }
    ensures value { result ≡ quarter_sine angle }
    ensures bound { result ≤ 32768 }
{
    if angle == QUARTER {
        return 32_768;
    }
    let i = (angle / 256) as usize;
    let past = angle % 256;
    ((256 - past) * entry(i) + past * entry(i + 1)) / 256
}

// The radius times that sine, to the nearest.
fn share(radius: u32, angle: u32) -> u32
    requires bounds { (radius ≤ 1000) × (angle ≤ 16384) }
    ensures value { result ≡ share_of radius angle }
    ensures bound { result ≤ radius }
{
    (radius * quarter_sine(angle) + 16_384) / 32_768
}

// The point at an angle and a radius.
pub fn point_at(angle: u32, radius: u32) -> Point
    requires bounds { radius ≤ 1000 }
    ensures value { result ≡ point_at angle radius }
    ensures bounds { OnSheet result }
{
    let past = angle % QUARTER;
    let sine = share(radius, past);
    let cosine = share(radius, QUARTER - past);
    match angle % TURN / QUARTER {
        0 => Point {
            x: CENTRE_X + sine,
            y: CENTRE_Y - cosine,
        },
        1 => Point {
            x: CENTRE_X + cosine,
            y: CENTRE_Y + sine,
        },
        2 => Point {
            x: CENTRE_X - sine,
            y: CENTRE_Y + cosine,
        },
        _ => Point {
            x: CENTRE_X - cosine,
            y: CENTRE_Y - sine,
        },
    }
}
