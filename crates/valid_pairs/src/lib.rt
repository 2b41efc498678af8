// Whether the words of the pairs read, row by row.
#![tactic(auto)]

pub mod rows;
pub mod short;

ghost use Rattle.std.specs.Prelude.{◌≡◌, ◌+◌, ◌*◌, ◌/◌, ◌%◌, ◌^◌, ◌≤◌, ◌&&◌, length};
ghost use Rattle.model.specs.Words.{ring_length};
ghost use Rattle.model.specs.Sets.{all};
ghost use Rattle.valid_pairs.specs.Pairs.{pair_reads, row_reads, pairs_read};
ghost use Rattle.valid_pairs.specs.Rows.{GivenRow, RunningRow, no_links, no_spares, links_fit};

use rows::{NO_CANDIDATE, Row, whole_row};
use valid_nodes::clear::clear;
use word_ring::{ClockWord, KeyWord, PairWord, SpareWord, place};

// The first word of a pair that is not held and no candidate, and the second of one that has no spare.
const NO_LINK: u32 = PairWord::EMPTY;

const NO_SPARE: u32 = SpareWord::NONE;

// The stamp of a pair's first word, and its stamp and held mark, with every bit set.
const LAST_STAMP: u32 = PairWord::HELD - 1;

const LAST_HELD: u32 = PairWord::CANDIDATE - 1;

// u without the candidate mark, plus 2^24 - 1. Bit 24 of that is clear exactly where a held pair has a stamp and
// another has none; it is then at most 2^25 - 1 plus the clock exactly where the stamp is at most the clock.
fn lifted(u: u32) -> u32
    ensures value { result ≡ u / 2 ^ 26 * 2 ^ 26 + u % 2 ^ 25 + 16777215 }
{
    (u & NO_CANDIDATE) + LAST_STAMP
}

// The row of a running node x. Each condition has a word in which the bits that break it are gathered. z counts, since
// words and tables are read at places of their own.
fn running_row(words: &[u32], links: &[u32; 127], spares: &[u32; 127], x: usize, n: usize) -> Row
    requires row { GivenRow words.now links.now spares.now x n }
    ensures fits { result.fits ≡ links_fit words.now n x }
    ensures bare { result.bare ≡ no_spares words.now n x }
{
    let most = LAST_HELD + ClockWord(words[place::NODES + 2 * x + 1]).clock().0;
    let mut link = 0;
    let mut late = 0;
    let mut spare = 0;
    for z in 0..n {
        let at = place::PAIRS + 2 * (64 * x + z);
        let a = lifted(words[at] ^ links[63 - x + z]);
        link |= a;
        late |= most.wrapping_sub(a);
        spare |= words[at + 1] ^ spares[63 - x + z];
    }
    Row {
        fits: (link >> 26 == 0) & ((link >> 24) % 2 == 0) & (late >> 31 == 0),
        bare: spare == 0,
    }
}

// The row of a node x that is off: nothing but what a pair without a link and a spare has. z counts as in
// `running_row`.
fn off_row(words: &[u32], links: &[u32; 127], spares: &[u32; 127], x: usize, n: usize) -> bool
    requires row { GivenRow words.now links.now spares.now x n }
    ensures value { result ≡ no_links words.now n x && no_spares words.now n x }
{
    let mut link = 0;
    let mut spare = 0;
    for z in 0..n {
        let at = place::PAIRS + 2 * (64 * x + z);
        link |= words[at] ^ links[63 - x + z];
        spare |= words[at + 1] ^ spares[63 - x + z];
    }
    (link == 0) & (spare == 0)
}

// The pairs of a running x with n nodes. A row without spares is done by its links, which is quicker: that is tried
// first where the row before had none.
fn running_pairs_read(
    words: &[u32],
    links: &[u32; 127],
    spares: &[u32; 127],
    x: usize,
    n: usize,
    bare: bool,
) -> Row
    requires row { GivenRow words.now links.now spares.now x n }
    requires running { RunningRow words.now x }
    ensures fits { result.fits ≡ all n (pair_reads words.now n x) }
{
    if !bare {
        return whole_row(words, x, n);
    }
    let row = running_row(words, links, spares, x, n);
    if !row.fits {
        return row;
    }
    if row.bare {
        return row;
    }
    whole_row(words, x, n)
}

// The pairs of x with n nodes.
fn row_pairs_read(
    words: &[u32],
    links: &[u32; 127],
    spares: &[u32; 127],
    x: usize,
    n: usize,
    bare: bool,
) -> Row
    requires row { GivenRow words.now links.now spares.now x n }
    ensures fits { result.fits ≡ all n (pair_reads words.now n x) }
{
    let own = place::PAIRS + 2 * (64 * x + x);
    if (words[own] | words[own + 1]) != 0 {
        return Row {
            fits: false,
            bare: true,
        };
    }
    if !KeyWord(words[place::NODES + 2 * x]).running() {
        return Row {
            fits: off_row(words, links, spares, x, n),
            bare: true,
        };
    }
    running_pairs_read(words, links, spares, x, n, bare)
}

// The row of x: its pairs, and nothing after them.
fn row_reads(
    words: &[u32],
    links: &[u32; 127],
    spares: &[u32; 127],
    x: usize,
    n: usize,
    bare: bool,
) -> Row
    requires row { GivenRow words.now links.now spares.now x n }
    ensures fits { result.fits ≡ row_reads words.now n x }
{
    let row = row_pairs_read(words, links, spares, x, n, bare);
    let after = clear(
        words,
        place::PAIRS + 2 * (64 * x + n),
        place::PAIRS + 2 * (64 * x + 64),
    );
    Row {
        fits: row.fits & after,
        bare: row.bare,
    }
}

// The pairs of n nodes, and nothing after them. The tables are read at 63 - x + z, which is 63 where x is z: there, the
// words are 0.
pub fn pairs_read(words: &[u32], n: usize) -> bool
    requires length { length words.now ≡ ring_length }
    requires bounds { n ≤ 64 }
    ensures value { result ≡ pairs_read words.now n }
{
    let mut links = [NO_LINK; 127];
    links[63] = 0;
    let mut spares = [NO_SPARE; 127];
    spares[63] = 0;
    let mut ok = true;
    let mut bare = true;
    // x is the number of a node.
    for x in 0..n {
        let row = row_reads(words, &links, &spares, x, n, bare);
        ok &= row.fits;
        bare = row.bare;
    }
    ok & clear(words, place::PAIRS + 128 * n, place::MESSAGES)
}
