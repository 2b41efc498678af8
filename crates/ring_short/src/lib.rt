// The words of a ring that belong to word 0, a node, a pair or a message, side by side; and back at their places.
#![tactic(auto)]

ghost use Rattle.std.specs.Prelude.{◌≡◌, ℕ, ◌+◌, ◌-◌, ◌*◌, ◌<◌, ◌≤◌, length};
ghost use Rattle.model.specs.Sets.{tabulate};
ghost use Rattle.model.specs.Words.{ring_length, pair_place, at as word_of, size_in, count_in};
ghost use Rattle.model.specs.Short.{short_row, short_message, shortened, long_word};
ghost use Rattle.ring_ranges.specs.Spans.{Patched};

use ring_ranges::{clear, copy_span};
use word_ring::place;

// Copies the row of x: its pairs with the nodes before it, and with those after it.
fn shorten_row(words: &[u32], n: usize, x: usize, short: &mut [u32], at: usize)
    requires words { (length words.now ≡ ring_length) × (n ≤ 64) × (x < n)
        × (at + 2 * (n - 1) ≤ length short.old) }
    ensures row { n ≡ size_in words.now → at ≡ short_row n x
        → Patched short.old short.new at (at + 2 * (n - 1))
        (word_of (shortened words.now)) }
{
    let row = place::PAIRS + 128 * x;
    copy_span(words, row, short, at, 2 * x);
    copy_span(words, row + 2 * x + 2, short, at + 2 * x, 2 * (n - 1 - x));
}

// Copies the rows of n nodes, and answers where they end. A row has no words where n is 1, so it is no chunk of them.
fn shorten_rows(words: &[u32], n: usize, short: &mut [u32]) -> usize
    requires words { (length words.now ≡ ring_length) × (n ≤ 64) × (1 ≤ n)
        × (short_row n n ≤ length short.old) }
    ensures rows { n ≡ size_in words.now
        → Patched short.old short.new (short_row n 0) result
        (word_of (shortened words.now)) }
    ensures end { result ≡ short_row n n }
{
    let mut at = 1 + 2 * n;
    for x in 0..n {
        shorten_row(words, n, x, short, at);
        at += 2 * (n - 1);
    }
    at
}

// Writes the short edition of a ring of n nodes and m messages.
pub fn shorten(words: &[u32], n: usize, m: usize, short: &mut [u32])
    requires words { (length words.now ≡ ring_length) × (n ≤ 64) × (1 ≤ n) × (m ≤ 1024)
        × (short_message n m ≤ length short.old) }
    ensures short { n ≡ size_in words.now → m ≡ count_in words.now
        → Patched short.old short.new 0 (short_message n m)
        (word_of (shortened words.now)) }
{
    copy_span(words, 0, short, 0, 1 + 2 * n);
    let end = shorten_rows(words, n, short);
    copy_span(words, place::MESSAGES, short, end, 5 * m);
}

// Puts the row of x back, with 0 for x itself and for what is no node: the way back of `shorten_row`, which only
// copies.
fn lengthen_row(short: &[u32], at: usize, n: usize, x: usize, words: &mut [u32])
    requires words { (length words.old ≡ ring_length) × (n ≤ 64) × (x < n)
        × (at + 2 * (n - 1) ≤ length short.now) }
    ensures row { (m : ℕ) → at ≡ short_row n x
        → Patched words.old words.new (pair_place x 0) (pair_place (x + 1) 0)
        (long_word n m short.now) }
{
    let row = place::PAIRS + 128 * x;
    copy_span(short, at, words, row, 2 * x);
    clear(words, row + 2 * x, row + 2 * x + 2);
    copy_span(short, at + 2 * x, words, row + 2 * x + 2, 2 * (n - 1 - x));
    clear(words, row + 2 * n, row + 128);
}

// Puts the rows of n nodes back, and answers where they end in the short edition. A row has no words where n is 1, too.
fn lengthen_rows(short: &[u32], n: usize, words: &mut [u32]) -> usize
    requires words { (length words.old ≡ ring_length) × (n ≤ 64) × (1 ≤ n)
        × (short_row n n ≤ length short.now) }
    ensures rows { (m : ℕ)
        → Patched words.old words.new (pair_place 0 0) (pair_place n 0)
        (long_word n m short.now) }
    ensures end { result ≡ short_row n n }
{
    let mut at = 1 + 2 * n;
    for x in 0..n {
        lengthen_row(short, at, n, x, words);
        at += 2 * (n - 1);
    }
    at
}

// Writes the ring of n nodes and m messages whose short edition is lent, over any old words.
pub fn lengthen(short: &[u32], n: usize, m: usize, words: &mut [u32])
    requires words { (length words.old ≡ ring_length) × (n ≤ 64) × (1 ≤ n) × (m ≤ 1024)
        × (short_message n m ≤ length short.now) }
    ensures words { words.new ≡ tabulate ring_length (long_word n m short.now) }
{
    copy_span(short, 0, words, 0, 1 + 2 * n);
    clear(words, place::NODES + 2 * n, place::PAIRS);
    let end = lengthen_rows(short, n, words);
    clear(words, place::PAIRS + 128 * n, place::MESSAGES);
    copy_span(short, end, words, place::MESSAGES, 5 * m);
    clear(words, place::MESSAGES + 5 * m, place::LENGTH);
}
