// The questions about a ring: a node's leafset, whether two nodes are connected, and the number of groups.
#![tactic(auto)]

ghost use Rattle.std.specs.Prelude.{◌≡◌, true, false, ◌<◌};
ghost use Rattle.model.specs.Sets.{to_bits};
ghost use Rattle.model.specs.Ring.{holds};
ghost use Rattle.model.specs.Answers.{answer_number, given_or};
ghost use Rattle.model.specs.Words.{decode_table, decode, reads_as_ring};
ghost use Rattle.model.specs.Questions.{leafset_answer, leafset_of, connection_answer, connection_of, groups_of};
ghost use Rattle.model.specs.Buffer.{ring_answer};
ghost use Rattle.model.specs.Connection.{Connected};
ghost use Rattle.model.specs.Leafset as model;

use leafset::leafset;
use model::refusal::Refusal;
use model::values::NodeNumber;

// "The leafset question is about one stand's leafset in its held set", bit s for node s. "A refused leafset question
// returns the empty set": `given_or 0`.
pub fn leafset_of(words: &[u32], x: NodeNumber) -> Result<u64, Refusal>
    ensures answer { answer_number result ≡ leafset_answer words.now x.0 }
    ensures set { given_or 0 result ≡ leafset_of words.now x.0 }
{
    call_refusals::of_nodes(words, x, x)?;
    Ok(held_leafset(words, x))
}

// "The connection question is about two stands, which may be the same one." A yes says that a chain of steps leads from
// a to b, a no that none does. A refused "connection question no": `given_or false`.
pub fn connected(words: &[u32], a: NodeNumber, b: NodeNumber) -> Result<bool, Refusal>
    ensures answer { answer_number result ≡ connection_answer words.now a.0 b.0 }
    ensures connected { given_or false result ≡ connection_of words.now a.0 b.0 }
    ensures yes { result ≡ Ok true → Connected (decode words.now) a.0 b.0 }
    ensures no { result ≡ Ok false → Connected (decode words.now) a.0 b.0 → ⊥ }
{
    call_refusals::of_nodes(words, a, b)?;
    let n = ring_head::nodes(words);
    Ok(ring_connection::connected(words, n, a, b))
}

// "the number of connected groups of running stands".
pub fn groups(words: &[u32]) -> Result<u32, Refusal>
    ensures answer { answer_number result ≡ ring_answer words.now }
    ensures groups { given_or 0 result ≡ groups_of words.now }
{
    call_refusals::of_words(words)?;
    let n = ring_head::nodes(words);
    Ok(ring_connection::groups(words, n))
}

// The leafset of node x in its held set.
fn held_leafset(words: &[u32], x: NodeNumber) -> u64
    requires ring { reads_as_ring words.now ≡ true }
    requires bounds { x.0 < model.size (decode_table words.now) }
    ensures value { result
        ≡ to_bits 64
        (model.leafset (decode words.now).table x.0 (holds (decode words.now) x.0)) }
{
    let n = ring_head::nodes(words);
    let keys = ring_head::keys(words, n);
    let sides = ring_head::sides(words);
    let own = ring_pairs::load(words, n, x);
    leafset(&keys[..n], sides, x, own.held)
}
