// The text of a word of a script: its event, or its digits.
#![tactic(auto)]

ghost use Rattle.std.specs.Prelude.{◌≡◌, [], ◌∷◌, ◌++◌, ◌+◌, ◌≤◌, length};
ghost use Rattle.model.specs.Events.{is_event_word};
ghost use Rattle.model.specs.declared.event.Event.TheVariants.{Off, Timer, Deliver};
ghost use Rattle.bench_lines.specs.Decimal.{spaced};
ghost use Rattle.bench_lines.specs.Put.{Put};
ghost use Rattle.text_form.specs.Describe.{event_text, raw_text, word_text};

use bench_lines::{put_bytes, put_next};
use model::event::Event;
use model::refusal::Refusal;
use model::values::NodeNumber;
use word_event::word::EventWord;

// Puts the text of a word: its event where it is an event word, else its digits.
pub fn put_word(out: &mut [u8], at: usize, word: u32) -> usize
    requires room { at + 40 ≤ length out.old }
    ensures bytes { Put out.old out.new at result (word_text word) }
    ensures end { result ≤ at + 16 }
{
    if is_event(word) {
        return put_event(out, at, EventWord(word).event());
    }
    put_raw(out, at, word)
}

// Whether the word is that of an event, be it one of a node with itself.
fn is_event(word: u32) -> bool
    ensures value { result ≡ is_event_word word }
{
    match word_event::read_event(word) {
        Ok(_) => true,
        Err(refusal) => refusal != Refusal::NotAnEvent,
    }
}

// Puts `word` and the eight hexadecimal digits of the word.
pub fn put_raw(out: &mut [u8], at: usize, word: u32) -> usize
    requires room { at + 40 ≤ length out.old }
    ensures bytes { Put out.old out.new at result (raw_text word) }
    ensures end { result ≤ at + 16 }
{
    let start = put_bytes(out, at, b"word ");
    let mut digits = [0u8; 16];
    let k = io::hex(u64::from(word), 8, &mut digits);
    put_bytes(out, start, &digits[..k])
}

// Puts the name of an event, and its parts.
pub fn put_event(out: &mut [u8], at: usize, event: Event) -> usize
    requires room { at + 40 ≤ length out.old }
    ensures bytes { Put out.old out.new at result (event_text event) }
    ensures end { result ≤ at + 16 }
{
    match event {
        Event::On(x) => put_one(out, at, b"on", u16::from(x.0)),
        Event::Off(x, polite) => put_off(out, at, x, polite),
        Event::Notice(x, z) => put_two(out, at, b"notice", x, z),
        Event::Contact(x, y) => put_two(out, at, b"contact", x, y),
        Event::Timer(x, k) => put_timer(out, at, x, k),
        Event::Deliver(i, echo) => put_deliver(out, at, i, echo),
        Event::Lose(i) => put_one(out, at, b"lose", i),
    }
}

// Puts a name and one number.
fn put_one(out: &mut [u8], at: usize, name: &[u8], n: u16) -> usize
    requires room { (at + 40 ≤ length out.old) × (length name.now ≤ 7) }
    ensures bytes { Put out.old out.new at result (name.now ++ spaced (n ∷ [])) }
    ensures end { result ≤ at + 16 }
{
    let first = put_bytes(out, at, name);
    put_next(out, first, u64::from(n))
}

// Puts a name and two nodes.
fn put_two(out: &mut [u8], at: usize, name: &[u8], x: NodeNumber, y: NodeNumber) -> usize
    requires room { (at + 40 ≤ length out.old) × (length name.now ≤ 7) }
    ensures bytes { Put out.old out.new at result
        (name.now ++ spaced (x.0 ∷ y.0 ∷ [])) }
    ensures end { result ≤ at + 16 }
{
    let first = put_bytes(out, at, name);
    let second = put_node(out, first, x);
    put_node(out, second, y)
}

// Puts a space and a node.
fn put_node(out: &mut [u8], at: usize, x: NodeNumber) -> usize
    requires room { at + 21 ≤ length out.old }
    ensures bytes { Put out.old out.new at result (spaced (x.0 ∷ [])) }
    ensures end { result ≤ at + 4 }
{
    put_next(out, at, u64::from(x.0))
}

// Puts an off, polite or not.
fn put_off(out: &mut [u8], at: usize, x: NodeNumber, polite: bool) -> usize
    requires room { at + 40 ≤ length out.old }
    ensures bytes { Put out.old out.new at result (event_text (Off x polite)) }
    ensures end { result ≤ at + 16 }
{
    if polite {
        return put_one(out, at, b"leave", u16::from(x.0));
    }
    put_one(out, at, b"off", u16::from(x.0))
}

// Puts a delivery, or an echo.
fn put_deliver(out: &mut [u8], at: usize, position: u16, echo: bool) -> usize
    requires room { at + 40 ≤ length out.old }
    ensures bytes { Put out.old out.new at result (event_text (Deliver position echo)) }
    ensures end { result ≤ at + 16 }
{
    if echo {
        return put_one(out, at, b"echo", position);
    }
    put_one(out, at, b"deliver", position)
}

// Puts timer k of node x.
fn put_timer(out: &mut [u8], at: usize, x: NodeNumber, k: u8) -> usize
    requires room { at + 40 ≤ length out.old }
    ensures bytes { Put out.old out.new at result (event_text (Timer x k)) }
    ensures end { result ≤ at + 16 }
{
    let first = put_bytes(out, at, b"timer");
    let second = put_node(out, first, NodeNumber(k));
    let third = put_bytes(out, second, b" at");
    put_node(out, third, x)
}
