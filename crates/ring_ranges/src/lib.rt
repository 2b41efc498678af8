// A span of words, moved, cleared or copied; all of a ring's, copied.
#![tactic(auto)]

ghost use Rattle.std.specs.Prelude.{◌≡◌, ◌+◌, ◌-◌, ◌≤◌, length, get_or};
ghost use Rattle.model.specs.Words.{ring_length};
ghost use Rattle.ring_ranges.specs.Spans.{Patched};

// Moves the words from `from + 5` on, up to `to + 5`, down by five.
pub fn move_down(words: &mut [u32], from: usize, to: usize)
    requires words { (length words.old ≡ ring_length) × (from ≤ to) × (to + 5 ≤ ring_length) }
    ensures value { Patched words.old words.new from to
        (λ i. get_or words.old (i + 5) 0) }
{
    shift(&mut words[from..to + 5]);
}

// Moves the words down by five; the last five stay. On a slice of its own this is one move of memory; the kit's
// `copy_within` goes word by word, at a distance that it is given.
fn shift(part: &mut [u32])
    requires length { 5 ≤ length part.old }
    ensures value { Patched part.old part.new 0 (length part.old - 5)
        (λ i. get_or part.old (i + 5) 0) }
{
    for i in 0..part.len() - 5 {
        part[i] = part[i + 5];
    }
}

// Writes 0 from `from` up to `to`.
pub fn clear(words: &mut [u32], from: usize, to: usize)
    requires words { (length words.old ≡ ring_length) × (from ≤ to) × (to ≤ ring_length) }
    ensures value { Patched words.old words.new from to (λ i. 0) }
{
    words[from..to].fill(0);
}

// Copies all words.
pub fn copy(words: &[u32], to: &mut [u32])
    requires lengths { length to.old ≡ length words.now }
    ensures words { to.new ≡ words.now }
{
    to.copy_from_slice(words);
}

// Copies `count` words from place `at` on to place `place` on.
pub fn copy_span(words: &[u32], at: usize, to: &mut [u32], place: usize, count: usize)
    requires words { (at + count ≤ length words.now) × (place + count ≤ length to.old) }
    ensures value { Patched to.old to.new place (place + count)
        (λ i. get_or words.now (at + (i - place)) 0) }
{
    to[place..place + count].copy_from_slice(&words[at..at + count]);
}
