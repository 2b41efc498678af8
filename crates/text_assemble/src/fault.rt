// The line of a fault.
ghost use Rattle.std.specs.Prelude.{◌≡◌, ◌+◌, ◌<◌, ◌≤◌, length};
ghost use Rattle.bench_lines.specs.Put.{Put};
ghost use Rattle.text_form.specs.Assemble.{expected_at};
ghost use Rattle.text_assemble.specs.Faults.{expected_text, fault_line, fault_bytes};

use bench_lines::{put_byte, put_bytes, put_number};
use text_form::{Expected, Reader};
use text_reader::NEWLINE;

// Room for the line of a fault.
pub const ROOM: usize = 128;

// Puts what is expected.
fn put_expected(expected: Expected, out: &mut [u8], at: usize) -> usize
    requires room { at + 74 ≤ length out.old }
    ensures bytes { Put out.old out.new at result (expected_text expected) }
    ensures end { result ≤ at + 74 }
{
    match expected {
        Expected::Opening => put_bytes(out, at, b"sides, word or tail"),
        Expected::Keys => put_bytes(out, at, b"keys"),
        Expected::Event => put_bytes(
            out,
            at,
            b"on, off, leave, notice, contact, timer, deliver, echo, lose, word or tail",
        ),
        Expected::NoLine => put_bytes(out, at, b"nothing after the tail"),
        Expected::Side => put_bytes(out, at, b"a side from 1 to 8"),
        Expected::Key => put_bytes(out, at, b"a key from 0 to 16777215"),
        Expected::Node => put_bytes(out, at, b"a node from 0 to 63"),
        Expected::Timer => put_bytes(out, at, b"a timer: 0, 2, 3 or 4"),
        Expected::At => put_bytes(out, at, b"at"),
        Expected::Position => put_bytes(out, at, b"a position from 0 to 1023"),
        Expected::Word => put_bytes(out, at, b"eight hexadecimal digits"),
        Expected::Tail => put_bytes(out, at, b"two, four or six hexadecimal digits"),
        Expected::LineEnd => put_bytes(out, at, b"the end of the line"),
    }
}

// The number of the line.
fn fault_line(reader: Reader) -> u64
    ensures value { result ≡ fault_line reader }
{
    if (reader.place == 0) & (reader.token == 0) & (1 < reader.line) {
        return reader.line - 1;
    }
    reader.line
}

// Puts the line of the fault at which the reader stopped, at the start of `out`.
pub fn put_fault(reader: Reader, out: &mut [u8]) -> usize
    requires room { 128 ≤ length out.old }
    ensures bytes { Put out.old out.new 0 result
        (fault_bytes (fault_line reader) (expected_at reader)) }
{
    let line = put_bytes(out, 0, b"line ");
    let number = put_number(out, line, fault_line(reader));
    let says = put_bytes(out, number, b": expected ");
    let end = put_expected(text_reader::expected(reader), out, says);
    put_byte(out, end, NEWLINE)
}
