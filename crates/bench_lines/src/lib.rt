// Numbers and lines of numbers as bytes, put into a lent buffer: "Output is in decimal, with single spaces."
#![tactic(auto)]

ghost use Rattle.std.specs.Prelude.{[], ◌∷◌, ◌+◌, ◌<◌, ◌≤◌, length};
ghost use Rattle.bench_lines.specs.Decimal.{decimal, spaced, line_bytes};
ghost use Rattle.bench_lines.specs.Put.{Put};

const SPACE: u8 = b' ';

const NEWLINE: u8 = b'\n';

// Puts the bytes from index `at` on, and answers the index after them, as each function here does.
pub fn put_bytes(out: &mut [u8], at: usize, bytes: &[u8]) -> usize
    requires room { at + length bytes.now ≤ length out.old }
    ensures bytes { Put out.old out.new at result bytes.now }
{
    let end = at + bytes.len();
    out[at..end].copy_from_slice(bytes);
    end
}

// Puts one byte.
pub fn put_byte(out: &mut [u8], at: usize, byte: u8) -> usize
    requires room { at < length out.old }
    ensures bytes { Put out.old out.new at result (byte ∷ []) }
{
    out[at] = byte;
    at + 1
}

// Puts n in decimal.
pub fn put_number(out: &mut [u8], at: usize, n: u64) -> usize
    requires room { at + 20 ≤ length out.old }
    ensures bytes { Put out.old out.new at result (decimal n) }
    ensures end { result ≤ at + 20 }
{
    let mut text = [0u8; 20];
    let k = io::decimal(n, &mut text);
    put_bytes(out, at, &text[..k])
}

// Puts a space, and n in decimal.
pub fn put_next(out: &mut [u8], at: usize, n: u64) -> usize
    requires room { at + 21 ≤ length out.old }
    ensures bytes { Put out.old out.new at result (spaced (n ∷ [])) }
    ensures end { result ≤ at + 21 }
{
    let start = put_byte(out, at, SPACE);
    put_number(out, start, n)
}

// Puts a line of three numbers.
pub fn put_three(out: &mut [u8], at: usize, a: u64, b: u64, c: u64) -> usize
    requires room { at + 63 ≤ length out.old }
    ensures bytes { Put out.old out.new at result (line_bytes (a ∷ b ∷ c ∷ [])) }
    ensures end { result ≤ at + 63 }
{
    let first = put_number(out, at, a);
    let second = put_next(out, first, b);
    let third = put_next(out, second, c);
    put_byte(out, third, NEWLINE)
}
