// The pairs of the join's nodes: "Across the two rings nobody is held and nobody is a candidate."
ghost use Rattle.std.specs.Prelude.{◌≡◌, ◌≢◌, ℕ, ◌+◌, ◌-◌, ◌<◌, ◌≤◌, length};
ghost use Rattle.model.specs.Ring.{cleared};
ghost use Rattle.model.specs.Words.{ring_length, decode_own};
ghost use Rattle.model.specs.Join.{raised_own};
ghost use Rattle.ring_pairs.specs.Stored.{Stored};
ghost use Rattle.ring_join.specs.Parts.{Second, Row, Rows};

use super::numbers;
use word_ring::place;

// Clears the pairs of the first's n nodes with those from n up to `end`.
pub fn clear_across(joined: &mut [u32], n: usize, end: usize)
    requires words { (length joined.old ≡ ring_length) × (n ≤ end) × (end ≤ 64) }
    ensures rows { Rows joined.old joined.new 0 n n end (λ x. cleared) }
{
    for x in 0..n {
        ring_pairs::clear(joined, x, n, end);
    }
}

// Writes the pairs of the second's node y, of k, and each z of the second from a up to b.
fn raise_pairs(joined: &mut [u32], second: &[u32], n: usize, k: usize, y: usize, a: usize, b: usize)
    requires second { (length joined.old ≡ ring_length) × Second second.now n k }
    requires bounds { (y < k) × (a ≤ b) × (b ≤ k) × ((z : ℕ) → a ≤ z → z < b → z ≢ y) }
    ensures value { Stored joined.old joined.new (n + y) (n + a) (n + b)
        (raised_own n (decode_own second.now y)) }
{
    for z in a..b {
        let from = place::PAIRS + 2 * (64 * y + z);
        let at = place::PAIRS + 2 * (64 * (n + y) + (n + z));
        joined[at] = second[from];
        joined[at + 1] = numbers::raised_spare(second[from + 1], n);
    }
}

// Writes all pairs of the second's node y, of k.
fn write_row(joined: &mut [u32], second: &[u32], n: usize, k: usize, y: usize)
    requires second { (length joined.old ≡ ring_length) × Second second.now n k × (y < k) }
    ensures row { Row joined.old joined.new (n + y) 0 (n + k)
        (raised_own n (decode_own second.now y)) }
{
    ring_pairs::clear(joined, n + y, 0, n);
    raise_pairs(joined, second, n, k, y, 0, y);
    raise_pairs(joined, second, n, k, y, y + 1, k);
}

// Writes all pairs of the second's k nodes.
pub fn write_rows(joined: &mut [u32], second: &[u32], n: usize, k: usize)
    requires second { (length joined.old ≡ ring_length) × Second second.now n k }
    ensures rows { Rows joined.old joined.new n (n + k) 0 (n + k)
        (λ x. raised_own n (decode_own second.now (x - n))) }
{
    for y in 0..k {
        write_row(joined, second, n, k, y);
    }
}
