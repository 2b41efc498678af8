// "Touring desks store a ring after each act, mostly zeros." The calls require nothing: on every two buffers the
// answer, and every word of both afterwards, is the definition's.
#![tactic(auto)]

ghost use Rattle.std.specs.Prelude.{◌≡◌, ◌+◌, ◌*◌, ◌≤◌};
ghost use Rattle.model.specs.Short.{shorten_buffer, lengthen_buffer};
ghost use Rattle.answers.specs.Applied.{written};
ghost use Rattle.call_short.specs.Shortening.{shortened};

use model::refusal::Refusal;
use word_ring::HeadWord;

// The words of a short ring of n nodes and m messages.
fn words_of(n: usize, m: usize) -> usize
    requires bounds { (n ≤ 64) × (m ≤ 1024) }
    ensures value { result ≡ 1 + 2 * (n * n) + 5 * m }
    ensures bound { result ≤ 13313 }
{
    1 + 2 * (n * n) + 5 * m
}

// 1 and 6 of the ring; 20. How many words were written.
pub fn shorten(words: &[u32], short: &mut [u32]) -> Result<u32, Refusal>
    ensures short { shortened result short.new
        ≡ shorten_buffer words.now short.old }
{
    call_refusals::of_words(words)?;
    let n = ring_head::nodes(words);
    let m = ring_head::messages(words);
    let count = words_of(n, m);
    if short.len() < count {
        return Err(Refusal::PlaceTooSmall);
    }
    ring_short::shorten(words, n, m, short);
    Ok(count as u32)
}

// 1 of the long buffer; 19 of the short one.
pub fn lengthen(short: &[u32], words: &mut [u32]) -> Result<(), Refusal>
    ensures written { written result words.new
        ≡ lengthen_buffer short.now words.old }
{
    if !call_refusals::as_long(words) {
        return Err(Refusal::WrongLength);
    }
    if !valid_short::reads_as_short(short) {
        return Err(Refusal::NotShort);
    }
    let head = HeadWord(short[0]);
    ring_short::lengthen(
        short,
        head.nodes() as usize,
        head.messages() as usize,
        words,
    );
    Ok(())
}
