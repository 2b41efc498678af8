// Whether the rests of the messages read: the stamp and the view. Each type and each receiver has four words of bits
// that have to be those of an empty rest, so that a message is tested without a branch, its four words at once.
ghost use Rattle.std.specs.Prelude.{◌≡◌, ℕ, ◌+◌, ◌*◌, ◌-◌, ◌^◌, ◌<◌, ◌≤◌, length};
ghost use Rattle.model.specs.Sets.{all};
ghost use Rattle.model.specs.Leafset.{Table, size};
ghost use Rattle.valid_messages.specs.Rests.{rest_reads};
ghost use Rattle.valid_messages.specs.Masks.{part as part_of, above as bitsAbove, of_types_mask, OfReceivers};
ghost use Rattle.valid_messages.specs.Masks.{beyond, wrong as wrongAt, nothing_wrong, Small};

use model::message::MessageType;
use word_ring::{StampWord, ViewWord};

const NO_STAMP: u32 = StampWord::EMPTY;

const NO_VIEW: u32 = ViewWord::EMPTY;

// Four words a type: the places of the view of type 4, and of the stamps of types 9 and 10.
const VIEW: usize = 4 * (MessageType::PongAskInv as usize);

const LOW: usize = VIEW + 1;

const MIDDLE: usize = VIEW + 2;

const HIGH: usize = VIEW + 3;

const REQUEST: usize = 4 * (MessageType::PingReplace as usize);

const ACKNOWLEDGEMENT: usize = 4 * (MessageType::PongReplace as usize);

// How many of the 24 nodes from `from` on are below n.
fn part(n: u32, from: u32) -> u32
    ensures value { result ≡ part_of n from }
    ensures bound { result ≤ 24 }
{
    n.saturating_sub(from).min(24)
}

// All bits but the lowest ones.
fn above(free: u32) -> u32
    requires bounds { free ≤ 24 }
    ensures value { result ≡ bitsAbove free }
{
    0xFFFF_FFFF - ((1 << free) - 1)
}

// "Type 4 uses the view; .. 9 and 10 subject and stamp"
fn of_types(n: u32) -> [u32; 64]
    ensures value { result ≡ of_types_mask n }
{
    let mut table = [0xFFFF_FFFF; 64];
    table[LOW] = above(part(n, 0));
    table[MIDDLE] = above(part(n, 24));
    table[HIGH] = above(part(n, 48));
    table[REQUEST] = above(24);
    table[ACKNOWLEDGEMENT] = above(24);
    table
}

// "A view holds only stands below n, and not its receiver." Places for 72, three times 24, are filled.
fn of_receivers() -> [u32; 288]
    ensures table { OfReceivers result }
{
    let mut table = [0; 288];
    for b in 0..24 {
        table[4 * b + 1] = 1 << b;
        table[4 * (24 + b) + 2] = 1 << b;
        table[4 * (48 + b) + 3] = 1 << b;
    }
    table
}

// What is wrong in word i of the rest of message k.
fn wrong(
    words: &[u32],
    base: usize,
    types: &[u32; 64],
    receivers: &[u32; 288],
    k: usize,
    i: usize,
    empty: u32,
) -> u32
    requires words { (base + 5 * (k + 1) ≤ length words.now) × (i < 4) }
    ensures value { result
        ≡ wrongAt words.now base types.now receivers.now k i empty }
    ensures small { beyond words.now base k i empty < 2 ^ 32 }
{
    let at = base + 5 * k;
    let first = words[at];
    let met = words[at + (1 + i)] ^ empty;
    (met & types[4 * ((first % 16) as usize) + i])
        | (met & receivers[4 * (((first >> 10) % 64) as usize) + i])
}

// Nothing is wrong in m rests; k is the number of a message.
fn nothing_wrong(
    words: &[u32],
    base: usize,
    types: &[u32; 64],
    receivers: &[u32; 288],
    m: usize,
) -> bool
    requires words { base + 5 * m ≤ length words.now }
    ensures value { result
        ≡ all m (nothing_wrong words.now base types.now receivers.now) }
    ensures small { (k : ℕ) → k < m → Small words.now base k }
{
    let mut stamp = 0;
    let mut low = 0;
    let mut middle = 0;
    let mut high = 0;
    for k in 0..m {
        stamp |= wrong(words, base, types, receivers, k, 0, NO_STAMP);
        low |= wrong(words, base, types, receivers, k, 1, NO_VIEW);
        middle |= wrong(words, base, types, receivers, k, 2, NO_VIEW);
        high |= wrong(words, base, types, receivers, k, 3, NO_VIEW);
    }
    (stamp == 0) & (low == 0) & (middle == 0) & (high == 0)
}

// The rests of m messages.
pub fn rests_read(words: &[u32], base: usize, n: u32, m: usize) -> bool
    requires words { (base + 5 * m ≤ length words.now) × (n ≤ 64) }
    ensures value { (t : Table) → size t ≡ n → result ≡ all m (rest_reads words.now base t) }
{
    let types = of_types(n);
    let receivers = of_receivers();
    nothing_wrong(words, base, &types, &receivers, m)
}
