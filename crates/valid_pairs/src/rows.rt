// The row of a running node in one pass, spares and all: the quicker way where it has spares.
ghost use Rattle.std.specs.Prelude.{◌≡◌, ◌+◌, ◌*◌, ◌^◌, ◌<◌, ◌≤◌, ◌&&◌, length};
ghost use Rattle.model.specs.Words.{ring_length};
ghost use Rattle.model.specs.Sets.{count, all};
ghost use Rattle.valid_pairs.specs.Pairs.{link_at, link_reads, spare_reads, run_reads, others_read};

use word_ring::{ClockWord, PairWord, SpareWord, place};

// The bits of a pair's first word but the candidate mark, and that word of a pair held since 1.
pub const NO_CANDIDATE: u32 = 0xFFFF_FFFF - PairWord::CANDIDATE;

const HELD_FROM_1: u32 = PairWord::EMPTY + PairWord::HELD + 1;

// What is seen of a row: whether it reads, and a guess whether the next one has no spare.
#[derive(Clone, Copy)]
pub struct Row {
    pub fits: bool,
    pub bare: bool,
}

// Of a run of pairs: how many fit, and which bits their second words have.
#[derive(Clone, Copy)]
pub struct Run {
    pub fit: u32,
    pub met: u32,
}

// The words w and p of the pair of x with another z.
fn pair_fits(w: u32, p: u32, clock: u32, n: u32, x: u32, z: u32) -> bool
    requires bounds { (clock < 2 ^ 24) × (n ≤ 64) × (x < 64) × (z < 64) }
    ensures value { result ≡ link_reads clock w && spare_reads n x z w p }
{
    let link = w & NO_CANDIDATE;
    let held = link.wrapping_sub(HELD_FROM_1) < clock;
    let spare = p ^ SpareWord::EMPTY;
    let none = p == SpareWord::NONE;
    let named = (spare < n) & (spare != x) & (spare != z);
    ((link == PairWord::EMPTY) & none) | (held & (none | named))
}

// The pairs of a running x with the nodes from `from` up to `to`, the first word of that with z being at base + 2 * z.
// z is the number of a node.
pub fn fitting(words: &[u32], base: usize, x: usize, n: usize, from: usize, to: usize) -> Run
    requires words { (base + 2 * to ≤ length words.now) × (2 * n < length words.now) }
    requires bounds { (n ≤ 64) × (x < n) × (from ≤ to) × (to ≤ n) }
    ensures counted { count from (run_reads words.now n x base) + result.fit
        ≡ count to (run_reads words.now n x base) }
    ensures bound { result.fit + from ≤ to }
{
    let clock = ClockWord(words[place::NODES + 2 * x + 1]).clock().0;
    let mut fit = 0;
    let mut met = 0;
    for z in from..to {
        let at = base + 2 * z;
        fit += u32::from(pair_fits(
            words[at],
            words[at + 1],
            clock,
            n as u32,
            x as u32,
            z as u32,
        ));
        met |= words[at + 1];
    }
    Run { fit, met }
}

// The pairs of a running x with the other nodes: all of them fit, and that of x with itself, which is 0, does not.
pub fn whole_row(words: &[u32], x: usize, n: usize) -> Row
    requires words { (length words.now ≡ ring_length) × (n ≤ 64) × (x < n) × (link_at words.now x x ≡ 0) }
    ensures fits { result.fits ≡ all n (others_read words.now n x) }
{
    let run = fitting(words, place::PAIRS + 128 * x, x, n, 0, n);
    Row {
        fits: run.fit + 1 == n as u32,
        bare: run.met == SpareWord::NONE,
    }
}
