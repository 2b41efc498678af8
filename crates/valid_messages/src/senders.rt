// Whether no sender has too many messages in flight.
ghost use Rattle.std.specs.Prelude.{◌≡◌, ◌+◌, ◌*◌, ◌≤◌, leb, length, get_or};
ghost use Rattle.model.specs.Sets.{all};
ghost use Rattle.model.specs.Leafset.{Table, size};
ghost use Rattle.valid_messages.specs.Senders.{senders_read, Counts};

use word_ring::{MessageWord, limit};

// The most of one sender.
const MOST: u32 = limit::SENDER as u32;

// Among so many messages in all there are not too many of one sender.
const UNCOUNTED: usize = limit::SENDER;

// So many of a sender among all messages but the last `REST` are not too many of all.
const FEW: u32 = 32;

const REST: usize = limit::SENDER - FEW as usize;

// Counts the messages from `from` to before `to`, by their senders, beside those before them. k counts, since
// `chunks_exact(5)` takes half as long again.
fn count(words: &[u32], base: usize, from: usize, to: usize, counts: &mut [u32])
    requires words { (base + 5 * to ≤ length words.now) × (from ≤ to) × (to ≤ 1024) }
    requires counts { Counts words.now base from counts.old }
    ensures counts { Counts words.now base to counts.new }
{
    for k in from..to {
        let x = MessageWord(words[base + 5 * k]).sender().index();
        counts[x] += 1;
    }
}

// None of the first n counts is above the most that it may be.
fn none_above(counts: &[u32], n: usize, most: u32) -> bool
    requires bounds { n ≤ length counts.now }
    ensures value { result ≡ all n (λ x. leb (get_or counts.now x 0) most) }
{
    let mut ok = true;
    for count in &counts[..n] {
        ok &= *count <= most;
    }
    ok
}

// No node of n has sent too many of m messages. So many as one sender may have need not be counted; and most often the
// last ones need not either.
pub fn senders_read(words: &[u32], base: usize, n: usize, m: usize) -> bool
    requires words { (base + 5 * m ≤ length words.now) × (n ≤ 64) × (m ≤ 1024) }
    ensures value { (t : Table) → size t ≡ n → result ≡ senders_read words.now base t m }
{
    if m <= UNCOUNTED {
        return true;
    }
    let mut counts = [0; 64];
    count(words, base, 0, m - REST, &mut counts);
    if none_above(&counts, n, FEW) {
        return true;
    }
    count(words, base, m - REST, m, &mut counts);
    none_above(&counts, n, MOST)
}
