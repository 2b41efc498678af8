// Random scripts: an opening, good or not, events and other words, and a tail.
ghost use Rattle.std.specs.Prelude.{◌≡◌, ◌+◌, ◌*◌, ◌^◌, ◌<◌, ◌≤◌, length};

use super::random::below;
use model::event::Event;
use model::values::{Key, NodeNumber, Sides};
use word_event::word::EventWord;
use word_ring::{HeadWord, KeyWord};

// What a script begins with.
#[derive(Clone, Copy, Debug, PartialEq, Eq)]
enum Style {
    NoOpening,
    AnySides,
    EqualKeys,
    RunningKeys,
    Good,
}

// The style of a script: two of three are good openings.
fn style_of(script: u64) -> Style {
    match below(script, 0, 12) {
        0 => Style::NoOpening,
        1 => Style::AnySides,
        2 => Style::EqualKeys,
        3 => Style::RunningKeys,
        _ => Style::Good,
    }
}

// Puts the script of a number at the start of `out`: how many bytes it has.
pub fn make(script: u64, out: &mut [u8]) -> usize
    requires room { length out.old ≡ 16384 }
    ensures room { (result ≤ length out.new) × (length out.new ≡ 16384) }
{
    let first = put_opening(script, style_of(script), out);
    let second = put_words(script, below(script, 1, most(script)), out, first);
    put_tail(script, below(script, 3, 4), out, second)
}

// Few words as a rule, and now and then some chunks of them.
fn most(script: u64) -> u64
    ensures bound { (0 < result) × (result ≤ 3000) }
{
    if below(script, 2, 16) == 0 {
        return 3000;
    }
    100
}

fn put_word(word: u32, out: &mut [u8], at: usize) -> usize
    requires room { at + 4 ≤ length out.old }
    ensures end { (result ≡ at + 4) × (length out.new ≡ length out.old) }
{
    out[at..at + 4].copy_from_slice(&word.to_le_bytes());
    at + 4
}

// Puts the opening of a style.
fn put_opening(script: u64, style: Style, out: &mut [u8]) -> usize
    requires room { 260 ≤ length out.old }
    ensures end { (result ≤ 260) × (length out.new ≡ length out.old) }
{
    if style == Style::NoOpening {
        return 0;
    }
    let n = 1 + below(script, 4, 64);
    let first = put_word(head(script, style, n), out, 0);
    put_keys(script, style, n, out, first)
}

// The first word of n nodes.
fn head(script: u64, style: Style, n: u64) -> u32
    requires nodes { n ≤ 64 }
{
    let sides = Sides {
        ahead: side(script, style, 5),
        behind: side(script, style, 6),
    };
    HeadWord::new(sides, n as u32, 0).0
}

fn side(script: u64, style: Style, place: u64) -> u32
    ensures bound { result < 2 ^ 4 }
{
    if style == Style::AnySides {
        return below(script, place, 16) as u32;
    }
    1 + below(script, place, 8) as u32
}

// Puts the words of the n keys.
fn put_keys(script: u64, style: Style, n: u64, out: &mut [u8], at: usize) -> usize
    requires room { (n ≤ 64) × (at ≡ 4) × (260 ≤ length out.old) }
    ensures end { (result ≤ 260) × (length out.new ≡ length out.old) }
{
    let mut end = at;
    for s in 0..n {
        let running = (style == Style::RunningKeys) & (s == n - 1);
        end = put_word(KeyWord::new(key(script, style, s), running).0, out, end);
    }
    end
}

// The key of node s: its lowest six bits are s, so no two are equal, unless the style wants it.
fn key(script: u64, style: Style, s: u64) -> Key
    requires node { s < 64 }
    ensures bound { result.0 < 2 ^ 24 }
{
    if style == Style::EqualKeys {
        return Key((s / 2) as u32);
    }
    Key((below(script, 8 + s, 0x4_0000) * 64 + s) as u32)
}

// Puts so many words.
fn put_words(script: u64, count: u64, out: &mut [u8], at: usize) -> usize
    requires room { (count ≤ 3000) × (at ≤ 260) × (12260 ≤ length out.old) }
    ensures end { (result ≤ 12260) × (length out.new ≡ length out.old) }
{
    let mut end = at;
    for i in 0..count {
        end = put_word(word(script, 128 + 8 * i), out, end);
    }
    end
}

// An event's word, or any.
fn word(script: u64, place: u64) -> u32
    requires place { place < 2 ^ 32 }
{
    if below(script, place, 8) == 0 {
        return below(script, place + 1, 0x1_0000_0000) as u32;
    }
    EventWord::new(event(script, place + 1)).0
}

// An event. Not every timer is one.
fn event(script: u64, place: u64) -> Event
    requires place { place < 2 ^ 33 }
{
    let x = NodeNumber(below(script, place + 1, 64) as u8);
    let y = NodeNumber(below(script, place + 2, 64) as u8);
    let position = below(script, place + 3, 1024) as u16;
    match below(script, place, 7) {
        0 => Event::On(x),
        1 => Event::Off(x, position % 2 == 1),
        2 => Event::Notice(x, y),
        3 => Event::Contact(x, y),
        4 => Event::Timer(x, (position % 8) as u8),
        5 => Event::Deliver(position, y.0 % 2 == 1),
        _ => Event::Lose(position),
    }
}

// Puts so many bytes more.
fn put_tail(script: u64, count: u64, out: &mut [u8], at: usize) -> usize
    requires room { (count < 4) × (at ≤ 12260) × (length out.old ≡ 16384) }
    ensures room { (result ≤ length out.new) × (length out.new ≡ 16384) }
{
    let end = at + count as usize;
    for (place, byte) in (100..100 + count).zip(&mut out[at..end]) {
        *byte = below(script, place, 256) as u8;
    }
    end
}
