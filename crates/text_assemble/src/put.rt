// What a text gives to its script, put into lent buffers. Each function answers the index after the bytes that it puts.
ghost use Rattle.std.specs.Prelude.{◌≡◌, ◌+◌, ◌*◌, ◌^◌, ◌<◌, ◌≤◌, ℕ, length, get_or};
ghost use Rattle.bench_lines.specs.Put.{Put};
ghost use Rattle.model.specs.Structs.{RoomSides};
ghost use Rattle.text_form.specs.Assemble.{word_bytes, key_bytes, tail_bytes, given_bytes, given_keys};
ghost use Rattle.text_reader.specs.Bounds.{GivenBounded};
ghost use Rattle.text_assemble.specs.Chunks.{KeysBounded, Gave};

use bench_lines::put_bytes;
use model::values::{Key, Sides};
use text_form::Given;
use word_ring::{HeadWord, KeyWord};

fn put_word(word: u32, out: &mut [u8], at: usize) -> usize
    requires room { at + 4 ≤ length out.old }
    ensures bytes { Put out.old out.new at result (word_bytes word) }
{
    put_bytes(out, at, &word.to_le_bytes())
}

// Puts the words of keys.
fn put_keys(keys: &[u32], out: &mut [u8], at: usize) -> usize
    requires keys { ((i : ℕ) → get_or keys.now i 0 < 2 ^ 24) × (at + 4 * length keys.now ≤ length out.old) }
    ensures bytes { Put out.old out.new at result (key_bytes keys.now) }
    ensures end { result ≡ at + 4 * length keys.now }
{
    let mut end = at;
    for key in keys {
        end = put_word(KeyWord::new(Key(*key), false).0, out, end);
    }
    end
}

// Puts the words of the opening with these keys.
fn put_opening(sides: Sides, keys: &[u32], out: &mut [u8], at: usize) -> usize
    requires keys { RoomSides sides × ((i : ℕ) → get_or keys.now i 0 < 2 ^ 24) × (length keys.now ≤ 64)
        × (at + 260 ≤ length out.old) }
    ensures bytes { Put out.old out.new at result (given_bytes sides keys.now Given.Opening) }
    ensures end { result ≤ at + 260 }
{
    let head = HeadWord::new(sides, keys.len() as u32, 0);
    let first = put_word(head.0, out, at);
    put_keys(keys, out, first)
}

// Puts the last bytes of a script, at most three.
fn put_tail(count: u8, value: u32, out: &mut [u8], at: usize) -> usize
    requires room { (count ≤ 3) × (at + 3 ≤ length out.old) }
    ensures bytes { Put out.old out.new at result (tail_bytes count value) }
    ensures end { result ≤ at + 3 }
{
    let bytes = value.to_be_bytes();
    let start = 4 - usize::from(count);
    put_bytes(out, at, &bytes[start..])
}

// Puts what is given, n keys being there before: bytes from `at` on, a key at place n.
pub fn put_given(
    given: Given,
    sides: Sides,
    n: usize,
    keys: &mut [u32],
    out: &mut [u8],
    at: usize,
) -> usize
    requires given { GivenBounded given × RoomSides sides × KeysBounded keys.old
        × (n + length (given_keys given) ≤ 64) × (at + 260 ≤ length out.old) }
    ensures gave { Gave given sides n keys.old keys.new out.old
        out.new at result }
{
    match given {
        Given::Nothing => at,
        Given::Opening => put_opening(sides, &keys[..n], out, at),
        Given::Key(key) => {
            keys[n] = key;
            at
        }
        Given::Word(word) => put_word(word, out, at),
        Given::Tail(count, value) => put_tail(count, value, out, at),
    }
}
