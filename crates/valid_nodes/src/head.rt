// Word 0.
ghost use Rattle.std.specs.Prelude.{◌≡◌};
ghost use Rattle.valid_nodes.specs.Nodes.{head_reads};

use word_ring::{HeadWord, limit};

// Above B stands nothing but the kind.
const KIND: u32 = HeadWord::KIND * 4;

const MOST: u32 = limit::MESSAGES as u32;

// w is a word 0, and its parts are in range.
pub fn head_reads(w: u32) -> bool
    ensures value { result ≡ head_reads w }
{
    let sides = HeadWord(w).sides();
    let n = HeadWord(w).nodes();
    let m = HeadWord(w).messages();
    (w >> 26 == KIND) & limit::sides_fit(sides) & (1 <= n) & (n <= 64) & (m <= MOST)
}
