// Whether the words of the messages read: message k is the five words from place base + 5 * k on.
#![tactic(auto)]

pub mod rests;
pub mod senders;

ghost use Rattle.std.specs.Prelude.{◌≡◌, List, ℕ, ◌+◌, ◌*◌, ◌/◌, ◌%◌, ◌^◌, ◌≤◌, length};
ghost use Rattle.model.specs.Sets.{all};
ghost use Rattle.model.specs.Leafset.{Table, size};
ghost use Rattle.model.specs.Ring.{Message};
ghost use Rattle.model.specs.Words.{at, subject_fits};
ghost use Rattle.valid_messages.specs.Messages.{messages_read};
ghost use Rattle.valid_messages.specs.Parts.{first_reads, Halves};

use model::message::MessageType;
use rests::rests_read;
use senders::senders_read;
use word_ring::MessageWord;

// In the upper half of a first word the kind stands above the subject's seven bits.
const KIND: u16 = (MessageWord::KIND * 0x20) as u16;

const NO_SUBJECT: u16 = 64;

const PING_CONTACT: u16 = MessageType::PingContact as u16;

const PONG_ASK_REPL: u16 = MessageType::PongAskRepl as u16;

const PING_DELOOPY: u16 = MessageType::PingDeloopy as u16;

const LEAVE: u16 = MessageType::Leave as u16;

// "Of the four that use the subject, only type 8 may have 64 there"
fn subject_fits(tag: u16, subject: u16, n: u16) -> bool
    ensures value { (t : Table) (m : Message) → size t ≡ n → m.type ≡ tag → m.subject ≡ subject
        → result ≡ subject_fits t m }
{
    let used = (PONG_ASK_REPL <= tag) & (tag <= PING_DELOOPY);
    (used & ((subject < n) | ((tag == PONG_ASK_REPL) & (subject == NO_SUBJECT))))
        | (!used & (subject == NO_SUBJECT))
}

// The first word of a message, in two halves.
fn first_fits(low: u16, high: u16, n: u16) -> bool
    ensures value { (ws : List ℕ) (base : ℕ) (t : Table) (k : ℕ) → size t ≡ n
        → at ws (base + 5 * k) % 2 ^ 16 ≡ low → at ws (base + 5 * k) / 2 ^ 16 ≡ high
        → result ≡ first_reads ws base t k }
{
    let tag = low % 16;
    let sender = (low >> 4) % 64;
    let receiver = low >> 10;
    let subject = high % 128;
    (high >> 7 == KIND)
        & ((PING_CONTACT <= tag) & (tag <= LEAVE))
        & (sender < n)
        & (receiver < n)
        & (sender != receiver)
        & subject_fits(tag, subject, n)
        & ((tag != PONG_ASK_REPL) | ((subject != sender) & (subject != receiver)))
}

// The upper half of a word.
fn upper(word: u32) -> u16
    ensures value { result ≡ word / 2 ^ 16 }
{
    (word >> 16) as u16
}

// The first words of `count` messages from message `from` on, in two halves. k has a place in three slices.
fn halve(words: &[u32], base: usize, from: usize, count: usize, lows: &mut [u16], highs: &mut [u16])
    requires words { (base + 5 * (from + count) ≤ length words.now) × (length lows.old ≡ 64)
        × (length highs.old ≡ 64) × (count ≤ 64) }
    ensures halves { Halves words.now base from lows.new highs.new count }
{
    for k in 0..count {
        let first = words[base + 5 * (from + k)];
        lows[k] = (first % 0x1_0000) as u16;
        highs[k] = upper(first);
    }
}

// The halves of so many first words fit. The loop has no branch, so that it is done eight messages at a time. k counts,
// since it has a place in both.
fn halves_fit(lows: &[u16; 64], highs: &[u16; 64], n: u16, count: usize) -> bool
    requires bounds { count ≤ 64 }
    ensures value { (ws : List ℕ) (base : ℕ) (t : Table) (from : ℕ) → size t ≡ n
        → Halves ws base from lows.now highs.now count
        → result ≡ all count (λ k. first_reads ws base t (from + k)) }
{
    let mut ok = true;
    for k in 0..count {
        ok &= first_fits(lows[k], highs[k], n);
    }
    ok
}

// The first words of `count` messages from message `from` on.
fn block_reads(words: &[u32], base: usize, n: u32, from: usize, count: usize) -> bool
    requires words { (base + 5 * (from + count) ≤ length words.now) × (n ≤ 64) × (count ≤ 64) }
    ensures value { (t : Table) → size t ≡ n
        → result ≡ all count (λ k. first_reads words.now base t (from + k)) }
{
    let mut lows = [0; 64];
    let mut highs = [0; 64];
    halve(words, base, from, count, &mut lows, &mut highs);
    halves_fit(&lows, &highs, n as u16, count)
}

// The first words of m messages, block by block.
fn firsts_read(words: &[u32], base: usize, n: u32, m: usize) -> bool
    requires words { (base + 5 * m ≤ length words.now) × (n ≤ 64) }
    ensures value { (t : Table) → size t ≡ n → result ≡ all m (first_reads words.now base t) }
{
    let mut ok = true;
    for from in (0..m).step_by(64) {
        ok &= block_reads(words, base, n, from, (m - from).min(64));
    }
    ok
}

// The m messages of the words from place `base` on read, with a table of n nodes, and not too many are of one sender.
pub fn messages_read(words: &[u32], base: usize, n: u32, m: usize) -> bool
    requires words { (base + 5 * m ≤ length words.now) × (1 ≤ n) × (n ≤ 64) × (m ≤ 1024) }
    ensures value { (t : Table) → size t ≡ n → result ≡ messages_read words.now base t m }
{
    firsts_read(words, base, n, m)
        & rests_read(words, base, n, m)
        & senders_read(words, base, n as usize, m)
}
