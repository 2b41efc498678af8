// Opening a ring by the first words of a script: "word 0 with m = 0 (any fault is 2), n key words with running 0 (a
// wrong one is 3, a missing or cut one 2)".
#![tactic(auto)]

ghost use Rattle.std.specs.Prelude.{◌≡◌, ◌↔◌, ◌+◌, ◌≤◌, true, length, take, slice_index, IsTrue, EachIndex};
ghost use Rattle.model.specs.Words.{ring_length};
ghost use Rattle.answers.specs.Applied.{written};
ghost use Rattle.bench_open.specs.Beginning.{head_fits, sizes_fit, key_fits, script_keys, open_script};

use call_open::open;
use model::refusal::Refusal;
use model::values::Sides;
use word_ring::{HeadWord, KeyWord, limit};

// Opens a ring over the words, or refuses with 2 or 3.
pub fn open_script(script: &[u32], words: &mut [u32]) -> Result<(), Refusal>
    requires length { length words.old ≡ ring_length }
    ensures written { written result words.new ≡ open_script words.old script.now }
{
    if !head_fits(script) {
        return Err(Refusal::OpeningOutOfRange);
    }
    let head = HeadWord(script[0]);
    let sides = head.sides();
    let n = head.nodes() as usize;
    if !sizes_fit(sides, n) {
        return Err(Refusal::OpeningOutOfRange);
    }
    if !keys_fit(&script[1..=n]) {
        return Err(Refusal::BadKey);
    }
    let keys = keys(script, n);
    open(words, sides.ahead, sides.behind, &keys[..n])
}

// The first word is one with m = 0, and none of the key words is missing.
fn head_fits(script: &[u32]) -> bool
    ensures value { result ≡ head_fits script.now }
{
    let Some(word) = script.first() else {
        return false;
    };
    let n = HeadWord(*word).nodes();
    (*word == HeadWord::new(HeadWord(*word).sides(), n, 0).0) & (1 + n as usize <= script.len())
}

// "A clockwise and B counter-clockwise, each 1 to 8"; "table size n (1 to 64)"
fn sizes_fit(sides: Sides, n: usize) -> bool
    ensures value { result ≡ sizes_fit sides n }
{
    limit::sides_fit(sides) & (1..=64).contains(&n)
}

// A key word with running 0.
fn key_fits(word: u32) -> bool
    ensures value { result ≡ key_fits word }
{
    word == KeyWord::new(KeyWord(word).key(), false).0
}

// Each of the words is such a word.
fn keys_fit(words: &[u32]) -> bool
    ensures value { IsTrue result ↔ EachIndex words.now (λ s. key_fits (slice_index words.now s) ≡ true) }
{
    words.iter().all(|word| key_fits(*word))
}

// The keys of the n words after the first.
pub fn keys(script: &[u32], n: usize) -> [u32; 64]
    requires lengths { 1 + n ≤ length script.now }
    requires bounds { n ≤ 64 }
    ensures places { length result ≡ 64 }
    ensures keys { take n result ≡ script_keys script.now n }
{
    let mut keys = [0; 64];
    for (s, word) in script[1..=n].iter().enumerate() {
        keys[s] = KeyWord(*word).key().0;
    }
    keys
}
