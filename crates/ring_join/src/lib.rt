// Two rings written as one: "The first ring's stands keep their numbers. The second's numbers rise by the first's n".
#![tactic(auto)]

mod numbers;
mod pairs;

ghost use Rattle.std.specs.Prelude.{◌≡◌, true, List, ℕ, ◌+◌, ◌-◌, ◌*◌, ◌≤◌, length, get_or, set};
ghost use Rattle.model.specs.Fields.{bits};
ghost use Rattle.model.specs.Leafset.{size};
ghost use Rattle.model.specs.Ring.{Ring};
ghost use Rattle.model.specs.Words.{ring_length, sides_of, head_word, node_place};
ghost use Rattle.model.specs.Words.{decode_table, decode, encode, reads_as_ring};
ghost use Rattle.model.specs.Play.{set_messages};
ghost use Rattle.model.specs.Join.{join};
ghost use Rattle.ring_head.specs.Parts.{Encodes};
ghost use Rattle.ring_ranges.specs.Spans.{Patched};
ghost use Rattle.ring_join.specs.Parts.{Second, both_messages};

use word_ring::{HeadWord, place};

// Puts the second's messages after the m messages, raised by n.
fn append_messages(joined: &mut [u32], m: usize, second: &[u32], n: usize)
    requires words { (length joined.old ≡ ring_length) × (reads_as_ring second.now ≡ true)
        × (n + size (decode_table second.now) ≤ 64) × (m + length (decode second.now).messages ≤ 1024) }
    ensures ring { (ρ : Ring) (k : ℕ) → Encodes joined.old k m ρ
        → Encodes joined.new k (m + length (decode second.now).messages)
        (set_messages (both_messages n ρ (decode second.now)) ρ) }
{
    for k in 0..ring_head::messages(second) {
        let message = ring_messages::load(second, k);
        ring_messages::append(joined, m + k, numbers::raised_message(message, n));
    }
}

// Writes n as the number of nodes.
fn set_nodes(words: &mut [u32], n: usize)
    requires length { length words.old ≡ ring_length }
    requires bounds { n ≤ 64 }
    ensures words { words.new
        ≡ set words.old 0
        (head_word (sides_of (get_or words.old 0 0)) n (bits 11 11 (get_or words.old 0 0))) }
{
    let head = HeadWord(words[0]);
    words[0] = HeadWord::new(head.sides(), n as u32, head.messages()).0;
}

// Copies the words of the second's k nodes to those after the first's n.
fn copy_nodes(joined: &mut [u32], second: &[u32], n: usize, k: usize)
    requires words { (length joined.old ≡ ring_length) × (length second.now ≡ ring_length) × (n + k ≤ 64) }
    ensures value { Patched joined.old joined.new (node_place n) (node_place (n + k))
        (λ i. get_or second.now (i - 2 * n) 0) }
{
    ring_ranges::copy_span(second, place::NODES, joined, place::NODES + 2 * n, 2 * k);
}

// Adds the second's k nodes to the first ring's n, whose words have the messages of both already.
fn add_nodes(joined: &mut [u32], second: &[u32], n: usize, k: usize)
    requires second { (length joined.old ≡ ring_length) × Second second.now n k }
    ensures words { (first : List ℕ) (m : ℕ) → n ≡ size (decode_table first) → m ≤ 1024
        → Encodes joined.old n m
        (set_messages (both_messages n (decode first) (decode second.now)) (decode first))
        → joined.new ≡ encode (join (decode first) (decode second.now)) }
{
    set_nodes(joined, n + k);
    copy_nodes(joined, second, n, k);
    pairs::clear_across(joined, n, n + k);
    pairs::write_rows(joined, second, n, k);
}

// Writes the join over any old words.
pub fn write(first: &[u32], second: &[u32], joined: &mut [u32])
    requires rings { (reads_as_ring first.now ≡ true) × (reads_as_ring second.now ≡ true)
        × (length joined.old ≡ ring_length) }
    requires room { (size (decode_table first.now) + size (decode_table second.now) ≤ 64)
        × (length (decode first.now).messages + length (decode second.now).messages ≤ 1024) }
    ensures words { joined.new
        ≡ encode (join (decode first.now) (decode second.now)) }
{
    let n = ring_head::nodes(first);
    let k = ring_head::nodes(second);
    joined.copy_from_slice(first);
    append_messages(joined, ring_head::messages(first), second, n);
    add_nodes(joined, second, n, k);
}
