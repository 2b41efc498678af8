// The words of the nodes.
ghost use Rattle.std.specs.Prelude.{◌≡◌, true, false, ◌+◌, ◌*◌, ◌≤◌, ◌<◌, length};
ghost use Rattle.model.specs.Words.{keys_differ, decode_table, size_in};
ghost use Rattle.valid_nodes.specs.Nodes.{nodes_read};
ghost use Rattle.valid_nodes.specs.Hashes.{hash_of, key_of, is_new};

use word_ring::{ClockWord, KeyWord, place};

// The words of n nodes. What is or-ed is 0 in a word of the right kind whose unnamed bits are 0.
pub fn nodes_read(words: &[u32], n: usize) -> bool
    requires words { (1 + 2 * n ≤ length words.now) × (n ≤ 64) }
    ensures value { result ≡ nodes_read words.now n }
{
    let mut keys = 0;
    let mut clocks = 0;
    for node in words[place::NODES..place::NODES + 2 * n].chunks_exact(2) {
        keys |= node[0] ^ KeyWord::EMPTY;
        clocks |= node[1] ^ ClockWord::EMPTY;
    }
    (keys >> 25 == 0) & (clocks >> 24 == 0)
}

// The hash of the key of node x.
fn hash(words: &[u32], x: usize) -> usize
    requires words { (1 + 2 * x < length words.now) × (x < 64) }
    ensures value { result ≡ hash_of (key_of words.now x) }
{
    let key = KeyWord(words[place::NODES + 2 * x]).key();
    ((u64::from(key.0) * 0x9E37_79B1 >> 23) % 512) as usize
}

// The key of node x is not met before x.
fn key_is_new(words: &[u32], x: usize) -> bool
    requires words { (1 + 2 * x < length words.now) × (x < 64) }
    ensures value { result ≡ is_new words.now x }
{
    let key = KeyWord(words[place::NODES + 2 * x]).key();
    let mut ok = true;
    for node in words[place::NODES..place::NODES + 2 * x].chunks_exact(2) {
        ok &= KeyWord(node[0]).key() != key;
    }
    ok
}

// The same, looked for only where the key's hash was met.
fn hashed_is_new(words: &[u32], x: usize, met: bool) -> bool
    requires words { (1 + 2 * x < length words.now) × (x < 64) × (met ≡ false → is_new words.now x ≡ true) }
    ensures value { result ≡ is_new words.now x }
{
    if !met {
        return true;
    }
    key_is_new(words, x)
}

// The n keys differ.
pub fn keys_differ(words: &[u32], n: usize) -> bool
    requires words { (1 + 2 * n ≤ length words.now) × (n ≤ 64) × (n ≡ size_in words.now) }
    ensures value { result ≡ keys_differ (decode_table words.now) }
{
    let mut met = [false; 512];
    for x in 0..n {
        let h = hash(words, x);
        if !hashed_is_new(words, x, met[h]) {
            return false;
        }
        met[h] = true;
    }
    true
}
