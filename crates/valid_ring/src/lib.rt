// Whether lent words read as a ring.
#![tactic(auto)]

ghost use Rattle.std.specs.Prelude.{◌≡◌, length};
ghost use Rattle.model.specs.Words.{ring_length, reads_as_ring};

use valid_messages::messages_read;
use valid_nodes::clear::clear;
use valid_nodes::{head, nodes};
use valid_pairs::pairs_read;
use word_ring::{HeadWord, place};

// The words read as a ring. Word 0 is looked at first: the others are looked for by what it says.
pub fn reads_as_ring(words: &[u32]) -> bool
    requires length { length words.now ≡ ring_length }
    ensures value { result ≡ reads_as_ring words.now }
{
    let w = words[0];
    if !head::head_reads(w) {
        return false;
    }
    let n = HeadWord(w).nodes();
    let m = HeadWord(w).messages();
    nodes::nodes_read(words, n as usize)
        & nodes::keys_differ(words, n as usize)
        & pairs_read(words, n as usize)
        & messages_read(words, place::MESSAGES, n, m as usize)
        & clear(words, place::MESSAGES + 5 * (m as usize), place::LENGTH)
        & clear(words, place::NODES + 2 * (n as usize), place::PAIRS)
}
