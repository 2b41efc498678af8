// The opening of a script: whether there is one, and its text.
ghost use Rattle.std.specs.Prelude.{◌≡◌, true, [], ◌∷◌, ◌++◌, ◌+◌, ◌*◌, ◌%◌, ◌≤◌, eqb, length, if◌then◌else◌};
ghost use Rattle.bench_lines.specs.Decimal.{newline, spaced};
ghost use Rattle.bench_lines.specs.Put.{Put};
ghost use Rattle.model.specs.Leafset.{size};
ghost use Rattle.model.specs.Answers.{is_accepted};
ghost use Rattle.model.specs.Bench.{script_table, script_answer};
ghost use Rattle.text_form.specs.Names.{sides_name, keys_name};
ghost use Rattle.text_form.specs.Describe.{keys_text, opening_text};

use bench_lines::{put_byte, put_bytes, put_next};
use model::values::Sides;
use word_ring::{HeadWord, place};

const NEWLINE: u8 = b'\n';

// Whether the words open a ring.
pub fn opens(script: &[u32]) -> bool
    ensures value { result ≡ is_accepted (script_answer script.now) }
{
    let mut ring = [0u32; place::LENGTH];
    bench_open::open_script(script, &mut ring).is_ok()
}

// How many nodes the ring has.
pub fn nodes(script: &[u32]) -> usize
    requires opens { is_accepted (script_answer script.now) ≡ true }
    ensures value { result ≡ size (script_table script.now) }
    ensures bound { 1 + result ≤ length script.now }
{
    HeadWord(script[0]).nodes() as usize
}

// Puts the sides and the keys at the start of `out`.
pub fn put_opening(out: &mut [u8], script: &[u32]) -> usize
    requires opens { is_accepted (script_answer script.now) ≡ true }
    requires room { 2000 ≤ length out.old }
    ensures bytes { Put out.old out.new 0 result
        (opening_text (script_table script.now)) }
    ensures end { result ≤ 2000 }
{
    let head = HeadWord(script[0]);
    let n = head.nodes() as usize;
    let keys = bench_open::keys(script, n);
    let first = put_sides(out, head.sides());
    put_keys(out, first, &keys[..n])
}

// Puts the sides at the start of `out`.
fn put_sides(out: &mut [u8], sides: Sides) -> usize
    requires room { 47 ≤ length out.old }
    ensures bytes { Put out.old out.new 0 result
        (sides_name ++ spaced (sides.ahead ∷ sides.behind ∷ [])) }
    ensures end { result ≤ 47 }
{
    let first = put_bytes(out, 0, b"sides");
    let second = put_next(out, first, u64::from(sides.ahead));
    put_next(out, second, u64::from(sides.behind))
}

// Puts the keys, eight to a line.
fn put_keys(out: &mut [u8], at: usize, keys: &[u32]) -> usize
    requires room { at + 26 * length keys.now + 1 ≤ length out.old }
    ensures bytes { Put out.old out.new at result (keys_text 0 keys.now) }
    ensures end { result ≤ at + 26 * length keys.now + 1 }
{
    let mut end = at;
    for (s, key) in keys.iter().enumerate() {
        end = put_key(out, end, s, *key);
    }
    put_byte(out, end, NEWLINE)
}

// Puts key s, the first of a line or a further one.
fn put_key(out: &mut [u8], at: usize, s: usize, key: u32) -> usize
    requires room { at + 26 ≤ length out.old }
    ensures bytes { Put out.old out.new at result
        ((if eqb (s % 8) 0 then newline ∷ keys_name else []) ++ spaced (key ∷ [])) }
    ensures end { result ≤ at + 26 }
{
    if s % 8 == 0 {
        let first = put_bytes(out, at, b"\nkeys");
        return put_next(out, first, u64::from(key));
    }
    put_next(out, at, u64::from(key))
}
