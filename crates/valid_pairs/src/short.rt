// Whether the pairs of a short ring read: rows of the pairs with the other nodes, one after the other.
ghost use Rattle.std.specs.Prelude.{◌≡◌, ◌+◌, ◌-◌, ◌*◌, ◌<◌, ◌≤◌, length};
ghost use Rattle.model.specs.Sets.{all};
ghost use Rattle.valid_pairs.specs.Pairs.{in_row_reads, short_pairs_read};
ghost use Rattle.valid_pairs.specs.Rows.{nothing_at};

use super::rows::fitting;
use word_ring::{KeyWord, PairWord, SpareWord, place};

// The k pairs from `row` on have neither a link nor a spare: `off_row`, where no pair is of x with itself. i counts,
// since `chunks_exact(2)` takes a tenth longer.
fn nothing(words: &[u32], row: usize, k: usize) -> bool
    requires words { (row + 2 * k ≤ length words.now) × (k ≤ 64) }
    ensures value { result ≡ all k (λ i. nothing_at words.now (row + 2 * i)) }
{
    let mut link = 0;
    let mut spare = 0;
    for i in 0..k {
        link |= words[row + 2 * i] ^ PairWord::EMPTY;
        spare |= words[row + 2 * i + 1] ^ SpareWord::NONE;
    }
    (link == 0) & (spare == 0)
}

// The pairs of x with the other nodes, from `row` on.
fn short_row_reads(words: &[u32], row: usize, x: usize, n: usize) -> bool
    requires words { (row + 2 * (n - 1) ≤ length words.now) × (1 + 2 * n ≤ row) × (x < n) × (n ≤ 64) }
    ensures value { result ≡ all n (in_row_reads words.now n x row) }
{
    if !KeyWord(words[place::NODES + 2 * x]).running() {
        return nothing(words, row, n - 1);
    }
    let before = fitting(words, row, x, n, 0, x);
    let after = fitting(words, row - 2, x, n, x + 1, n);
    before.fit + after.fit + 1 == n as u32
}

// The rows of n nodes.
pub fn short_pairs_read(words: &[u32], n: usize) -> bool
    requires words { (1 + 2 * (n * n) ≤ length words.now) × (1 ≤ n) × (n ≤ 64) }
    ensures value { result ≡ short_pairs_read words.now n }
{
    let mut ok = true;
    let mut row = place::NODES + 2 * n;
    for x in 0..n {
        ok &= short_row_reads(words, row, x, n);
        row += 2 * (n - 1);
    }
    ok
}
