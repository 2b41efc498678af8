// Where the discs of the nodes stand: at the angles of their keys as far as they have room, else pushed apart, ahead
// and back alike, in the order of the keys.
#![tactic(auto)]

ghost use Rattle.std.specs.Prelude.{◌≡◌, ℕ, ◌<◌, ◌≤◌, min, max, map, length, take, get_or};
ghost use Rattle.draw_places.specs.Places.{angle_of, distances_of, rank_of, lowest_of, pushed_by, pushed_most};
ghost use Rattle.draw_places.specs.Places.{ahead_of, behind, between_of, disc_of};

use draw_circle::TURN;
use std::array;

// The angle of a key.
pub fn angle(key: u32) -> u32
    ensures value { result ≡ angle_of key }
    ensures bound { result < 65536 }
{
    key / 256 % TURN
}

// The distance between so many neighbours, of n nodes.
fn distances(n: u32, many: u32) -> u32
    requires bounds { (0 < n) × (many ≤ n) }
    ensures value { result ≡ distances_of n many }
    ensures bound { result ≤ 32768 }
{
    TURN / 2 / n * many
}

// How many of the keys are lower: a sum, since `filter` and `count` go key by key, and this takes most of a drawing of
// many nodes.
fn rank(keys: &[u32], key: u32) -> u32
    requires few { length keys.now ≤ 64 }
    ensures value { result ≡ rank_of keys.now key }
    ensures bound { result ≤ length keys.now }
{
    let mut rank = 0;
    for other in keys {
        rank += u32::from(*other < key);
    }
    rank
}

// The lowest of the keys.
#[tactic(auto, using(crate::proofs::Laws::lowest_folded))]
fn lowest(keys: &[u32]) -> u32
    ensures value { result ≡ lowest_of (length keys.now) keys.now }
{
    keys.iter().copied().fold(u32::MAX, |low, key| low.min(key))
}

// How far on the node of a rank is pushed by the one with the key `by`, if that is not after it.
fn pushed(keys: &[u32], rank: u32, by: u32) -> u32
    requires nodes { (0 < length keys.now) × (length keys.now ≤ 64) × (rank ≤ length keys.now) }
    ensures value { result ≡ pushed_by keys.now rank by }
    ensures bound { result < 98304 }
{
    let before = self::rank(keys, by);
    if rank < before {
        return 0;
    }
    angle(by) + distances(keys.len() as u32, rank - before)
}

// How far on the node of a rank is pushed by all that are not after it.
fn pushed_most(keys: &[u32], rank: u32) -> u32
    requires nodes { (0 < length keys.now) × (length keys.now ≤ 64) × (rank ≤ length keys.now) }
    ensures value { result ≡ pushed_most keys.now rank }
    ensures bound { result < 98304 }
{
    keys.iter()
        .map(|by| pushed(keys, rank, *by))
        .max()
        .unwrap_or(0)
}

// The angle of node x's disc when the discs are pushed ahead: those after it have room before the first, a turn on.
fn ahead(keys: &[u32], x: usize) -> u32
    requires nodes { (x < length keys.now) × (length keys.now ≤ 64) }
    ensures value { result ≡ ahead_of keys.now x }
    ensures bound { result < 98304 }
{
    let n = keys.len() as u32;
    let rank = rank(keys, keys[x]);
    let end = angle(lowest(keys)) + TURN - distances(n, n - rank);
    pushed_most(keys, rank).min(end)
}

// A key on the ring seen from behind.
fn from_behind(key: u32) -> u32
    ensures value { result ≡ behind key }
{
    16_777_215 - key % 16_777_216
}

// The keys as they are on the ring seen from behind.
fn all_from_behind(keys: &[u32]) -> [u32; 64]
    requires few { length keys.now ≤ 64 }
    ensures places { length result ≡ 64 }
    ensures keys { take (length keys.now) result ≡ map behind keys.now }
{
    array::from_fn(|x| if x < keys.len() {
        from_behind(keys[x])
    } else {
        0
    })
}

// Half way between the angle ahead and the one back, which counts from the end of a turn; two turns keep it above 0.
fn between(ahead: u32, back: u32) -> u32
    requires bounds { (ahead < 98304) × (back < 98304) }
    ensures value { result ≡ between_of ahead back }
    ensures bound { result < 65536 }
{
    (ahead + 3 * TURN - 1 - back) / 2 % TURN
}

// The angle of each node's disc.
pub fn discs(keys: &[u32]) -> [u32; 64]
    requires few { length keys.now ≤ 64 }
    ensures places { length result ≡ 64 }
    ensures angles { (x : ℕ) → x < length keys.now → get_or result x 0 ≡ disc_of keys.now x }
{
    let n = keys.len();
    let behind = all_from_behind(keys);
    array::from_fn(|x| {
        if x < n {
            between(ahead(keys, x), ahead(&behind[..n], x))
        } else {
            0
        }
    })
}
