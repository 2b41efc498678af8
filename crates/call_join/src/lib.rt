// "A massed concert joins two rings into one." The call requires nothing: on every three buffers the answer, and every
// word of all afterwards, is the definition's.
#![tactic(auto)]

ghost use Rattle.std.specs.Prelude.{◌≡◌, true, ◌≤◌, length, eqb};
ghost use Rattle.model.specs.Answers.{answer_number, first_of};
ghost use Rattle.model.specs.Leafset.{size};
ghost use Rattle.model.specs.Leafset as model;
ghost use Rattle.model.specs.Sets.{some};
ghost use Rattle.model.specs.Words.{ring_length, decode_table, decode, reads_as_ring};
ghost use Rattle.model.specs.Join.{shares_key, joining_refusals, join_answer, join_buffer};
ghost use Rattle.answers.specs.Applied.{written};

use call_refusals::as_long;
use model::refusal::Refusal;
use model::values::{Key, NodeNumber};
use word_ring::limit;

// Whether one of the n nodes has the key; y is the number of a node.
fn has_key(words: &[u32], n: usize, key: Key) -> bool
    requires words { (length words.now ≡ ring_length) × (n ≡ size (decode_table words.now)) × (n ≤ 64) }
    ensures value { result ≡ some n (λ y. eqb key.0 (model.key (decode_table words.now) y)) }
{
    let mut found = false;
    for y in 0..n {
        found |= key.0 == ring_head::key(words, NodeNumber(y as u8)).0;
    }
    found
}

// Whether a node of the first, x, has the key of one of the second.
fn shares_key(first: &[u32], second: &[u32]) -> bool
    requires first { (length first.now ≡ ring_length) × (size (decode_table first.now) ≤ 64) }
    requires second { (length second.now ≡ ring_length) × (size (decode_table second.now) ≤ 64) }
    ensures value { result ≡ shares_key (decode first.now) (decode second.now) }
{
    let k = ring_head::nodes(second);
    let mut found = false;
    for x in 0..ring_head::nodes(first) {
        found |= has_key(second, k, ring_head::key(first, NodeNumber(x as u8)));
    }
    found
}

// 14, 15 and 16.
fn of_rings(first: &[u32], second: &[u32]) -> Result<(), Refusal>
    requires rings { (reads_as_ring first.now ≡ true) × (reads_as_ring second.now ≡ true) }
    ensures answer { answer_number result
        ≡ first_of (joining_refusals (decode first.now) (decode second.now)) }
{
    let ours = ring_head::sides(first);
    let theirs = ring_head::sides(second);
    if !((ours.ahead == theirs.ahead) & (ours.behind == theirs.behind)) {
        return Err(Refusal::SidesDiffer);
    }
    if 64 < ring_head::nodes(first) + ring_head::nodes(second) {
        return Err(Refusal::TablesClash);
    }
    if shares_key(first, second) {
        return Err(Refusal::TablesClash);
    }
    if limit::MESSAGES < ring_head::messages(first) + ring_head::messages(second) {
        return Err(Refusal::TooManyMessages);
    }
    Ok(())
}

// 1 of any of the three; 6 of the first, then of the second; those of two rings.
fn refusal(first: &[u32], second: &[u32], joined: &[u32]) -> Result<(), Refusal>
    ensures answer { answer_number result
        ≡ join_answer first.now second.now joined.now }
{
    if !(as_long(first) & as_long(second) & as_long(joined)) {
        return Err(Refusal::WrongLength);
    }
    if !valid_ring::reads_as_ring(first) {
        return Err(Refusal::NotARing);
    }
    if !valid_ring::reads_as_ring(second) {
        return Err(Refusal::NotARing);
    }
    of_rings(first, second)
}

// The first's nodes keep their numbers, the second's rise.
pub fn join(first: &[u32], second: &[u32], joined: &mut [u32]) -> Result<(), Refusal>
    ensures written { written result joined.new
        ≡ join_buffer first.now second.now joined.old }
    ensures sources { (first.now ≡ first.now) × (second.now ≡ second.now) }
{
    refusal(first, second, joined)?;
    ring_join::write(first, second, joined);
    Ok(())
}
