// The script reader: "It reads little-endian words".
#![tactic(auto)]

pub mod loading;

ghost use Rattle.std.specs.Prelude.{◌≡◌};
ghost use Rattle.bench_script.specs.Position.{next_at, after_at, read_at};

// A script: the loaded words, and a position in them. Each function over it takes it apart, and leaves the work to one
// on the slice and the number.
#[derive(Clone, Copy)]
pub struct Script<'a> {
    pub words: &'a [u32],
    pub at: usize,
}

impl<'a> Script<'a> {
    pub fn new(words: &'a [u32], at: usize) -> Script<'a>
        ensures parts { (result.words ≡ words.entry) × (result.at ≡ at) }
    {
        Script { words, at }
    }

    // The word at the position, or none at the end.
    pub fn next(self) -> Option<u32>
        ensures value { result ≡ next_at self.entry.words.now self.entry.at }
    {
        next_at(self.words, self.at)
    }

    // The script moved on by one word; at the end it stays.
    pub fn moved(self) -> Script<'a>
        ensures parts { (result.words ≡ self.entry.words)
            × (result.at ≡ after_at self.entry.words.now self.entry.at) }
    {
        Script {
            words: self.words,
            at: after_at(self.words, self.at),
        }
    }
}

fn next_at(words: &[u32], at: usize) -> Option<u32>
    ensures value { result ≡ next_at words.now at }
{
    if at < words.len() {
        Some(words[at])
    } else {
        None
    }
}

fn after_at(words: &[u32], at: usize) -> usize
    ensures value { result ≡ after_at words.now at }
{
    if at < words.len() { at + 1 } else { at }
}

// What a script reads: the word at its position, or none at the end, and the position after it.
#[derive(Clone, Copy)]
pub struct Reading {
    pub next: Option<u32>,
    pub after: usize,
}

// Reads at a position of a plain slice.
pub fn read(words: &[u32], at: usize) -> Reading
    ensures value { result ≡ read_at words.now at }
{
    let script = Script::new(words, at);
    Reading {
        next: script.next(),
        after: script.moved().at,
    }
}
