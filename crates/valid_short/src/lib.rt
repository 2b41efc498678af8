// Whether lent words read as a short ring.
#![tactic(auto)]

ghost use Rattle.std.specs.Prelude.{◌≡◌, true, ◌≤◌};
ghost use Rattle.model.specs.Words.{at, size_in, count_in};
ghost use Rattle.model.specs.Short.{reads_as_short};
ghost use Rattle.valid_nodes.specs.Nodes.{head_reads};

use valid_messages::messages_read;
use valid_nodes::{head, nodes};
use valid_pairs::short::short_pairs_read;
use word_ring::HeadWord;

// The words read after word 0, which says that there are n nodes and m messages.
fn rest_reads(short: &[u32], n: usize, m: usize) -> bool
    requires head { (head_reads (at short.now 0) ≡ true) × (n ≡ size_in short.now) × (m ≡ count_in short.now) }
    requires bounds { (1 ≤ n) × (n ≤ 64) × (m ≤ 1024) }
    ensures value { result ≡ reads_as_short short.now }
{
    let messages = 1 + 2 * (n * n);
    if short.len() != messages + 5 * m {
        return false;
    }
    nodes::nodes_read(short, n)
        & nodes::keys_differ(short, n)
        & short_pairs_read(short, n)
        & messages_read(short, messages, n as u32, m)
}

// The words read as a short ring. Word 0 is looked at first: the others are looked for by what it says.
pub fn reads_as_short(short: &[u32]) -> bool
    ensures value { result ≡ reads_as_short short.now }
{
    if short.is_empty() {
        return false;
    }
    let w = short[0];
    if !head::head_reads(w) {
        return false;
    }
    rest_reads(
        short,
        HeadWord(w).nodes() as usize,
        HeadWord(w).messages() as usize,
    )
}
