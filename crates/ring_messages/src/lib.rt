// The messages in flight: loaded, counted, removed, appended; one to each node of a set.
#![tactic(auto)]

ghost use Rattle.std.specs.Prelude.{◌≡◌, [], ◌∷◌, ◌++◌, map, true, ℕ, length, get_or, set};
ghost use Rattle.std.specs.Prelude.{◌+◌, ◌-◌, ◌*◌, ◌^◌, ◌<◌, ◌≤◌};
ghost use Rattle.model.specs.Fields.{bits};
ghost use Rattle.model.specs.Words.{ring_length, sides_of, head_word, view_word, decode};
ghost use Rattle.model.specs.Ring.{Ring, sent_by};
ghost use Rattle.model.specs.Play.{set_messages, remove_message};
ghost use Rattle.model.specs.Structs.{message_of, RoomMessage, spare_at, RoomNode};
ghost use Rattle.model.specs.Sets.{of_bits, count, members};
ghost use Rattle.model.specs.Steps as steps;
ghost use Rattle.model.specs.Types.{ping_replace};
ghost use Rattle.ring_messages.specs.Loaded.{LoadedMessage};
ghost use Rattle.ring_head.specs.Parts.{Encodes};
ghost use Rattle.records.specs.Effects.{sends_of, SendsFit};

use model::message::{MessageRecord, MessageType};
use model::node::NodeRecord;
use model::values::{NodeNumber, Stamp};
use records::effect::Sends;
use records::message::{plain, stamped};
use word_ring::{HeadWord, MessageWord, StampWord, ViewWord, place};

// Message m - 1 stands at this and 5 times m.
const BEFORE_MESSAGES: usize = place::MESSAGES - 5;

// The message at position k.
pub fn load(words: &[u32], k: usize) -> MessageRecord
    requires length { length words.now ≡ ring_length }
    requires bounds { k < 1024 }
    ensures loaded { LoadedMessage words.now k result }
{
    let at = place::MESSAGES + 5 * k;
    let first = MessageWord(words[at]);
    let stamp = StampWord(words[at + 1]).stamp();
    let view = view_of(words[at + 2], words[at + 3], words[at + 4]);
    MessageRecord {
        tag: first.tag(),
        sender: first.sender(),
        receiver: first.receiver(),
        subject: first.subject(),
        stamp,
        view,
    }
}

// The view that three words have the parts of.
fn view_of(low: u32, middle: u32, high: u32) -> u64
    ensures value { result ≡ bits 0 24 low + 2 ^ 24 * bits 0 24 middle + 2 ^ 48 * bits 0 16 high }
{
    u64::from(ViewWord(low).part())
        + 0x100_0000 * u64::from(ViewWord(middle).part())
        + 0x1_0000_0000_0000 * u64::from(ViewWord(high).part() % 0x1_0000)
}

// How many of the m messages x has sent. k counts, since `chunks_exact(5)` takes half as long again.
pub fn sent_by(words: &[u32], m: usize, x: NodeNumber) -> usize
    requires words { (length words.now ≡ ring_length) × (m ≤ 1024) × (m ≡ length (decode words.now).messages) }
    ensures value { result ≡ sent_by x.0 (decode words.now).messages }
    ensures bound { result ≤ m }
{
    let mut sent = 0;
    for k in 0..m {
        let sender = MessageWord(words[place::MESSAGES + 5 * k]).sender();
        sent += usize::from(sender == x);
    }
    sent
}

// Takes the message at position k out of the m messages.
pub fn remove(words: &mut [u32], m: usize, k: usize)
    requires words { (length words.old ≡ ring_length) × (m ≤ 1024) × (k < m) }
    ensures ring { (ρ : Ring) (n : ℕ) → Encodes words.old n m ρ
        → Encodes words.new n (m - 1) (remove_message k ρ) }
{
    set_count(words, m - 1);
    ring_ranges::move_down(words, place::MESSAGES + 5 * k, BEFORE_MESSAGES + 5 * m);
    ring_ranges::clear(words, BEFORE_MESSAGES + 5 * m, place::MESSAGES + 5 * m);
}

// Puts a message after the m messages.
pub fn append(words: &mut [u32], m: usize, message: MessageRecord)
    requires words { (length words.old ≡ ring_length) × (m < 1024) × RoomMessage message }
    ensures ring { (ρ : Ring) (n : ℕ) → Encodes words.old n m ρ
        → Encodes words.new n (m + 1) (set_messages (ρ.messages ++ (message_of message ∷ [])) ρ) }
{
    set_count(words, m + 1);
    let at = place::MESSAGES + 5 * m;
    words[at] = MessageWord::new(
        message.tag,
        message.sender,
        message.receiver,
        message.subject,
    )
    .0;
    words[at + 1] = StampWord::new(message.stamp).0;
    words[at + 2] = view_word(message.view);
    words[at + 3] = view_word(message.view / 0x100_0000);
    words[at + 4] = view_word(message.view / 0x1_0000_0000_0000);
}

// The word of the lowest part of a view.
fn view_word(view: u64) -> u32
    ensures value { result ≡ view_word (bits 0 24 view) }
{
    ViewWord::new((view % 0x100_0000) as u32).0
}

// Writes m as the number of messages.
fn set_count(words: &mut [u32], m: usize)
    requires length { length words.old ≡ ring_length }
    requires bounds { m ≤ 1024 }
    ensures words { words.new
        ≡ set words.old 0
        (head_word (sides_of (get_or words.old 0 0)) (bits 4 7 (get_or words.old 0 0)) m) }
{
    let head = HeadWord(words[0]);
    words[0] = HeadWord::new(head.sides(), head.nodes(), m as u32).0;
}

// Sends a message of a type that uses nothing to each of the set, after the m messages. How many there are then.
fn send_each(words: &mut [u32], m: usize, tag: u8, me: NodeNumber, to: u64) -> usize
    requires words { (length words.old ≡ ring_length) × (tag < 2 ^ 4) × (me.0 < 64)
        × (m + count 64 (of_bits to) ≤ 1024) }
    ensures ring { (ρ : Ring) (n : ℕ) → Encodes words.old n m ρ
        → Encodes words.new n result
        (set_messages (ρ.messages ++ map (steps.plain tag me.0) (members 64 (of_bits to))) ρ) }
{
    let mut sent = m;
    for y in sets::members(to) {
        append(words, sent, plain(tag, me, y));
        sent += 1;
    }
    sent
}

// Sends a request for each z of the set to its spare, after the m messages. How many there are then.
fn send_requests(
    words: &mut [u32],
    m: usize,
    me: NodeNumber,
    time: Stamp,
    own: NodeRecord,
    to: u64,
) -> usize
    requires words { (length words.old ≡ ring_length) × (me.0 < 64) × (time.0 < 2 ^ 24)
        × (m + count 64 (of_bits to) ≤ 1024) }
    requires record { RoomNode own × ((z : ℕ) → of_bits to z ≡ true → spare_at own z < 64) }
    ensures ring { (ρ : Ring) (n : ℕ) → Encodes words.old n m ρ
        → Encodes words.new n result
        (set_messages
        (ρ.messages
        ++ map (λ z. steps.stamped ping_replace me.0 (spare_at own z) z time.0)
        (members 64 (of_bits to))) ρ) }
{
    let mut sent = m;
    for z in sets::members(to) {
        append(
            words,
            sent,
            stamped(
                MessageType::PingReplace as u8,
                me,
                own.spare[z.index()],
                z,
                time,
            ),
        );
        sent += 1;
    }
    sent
}

// Appends the messages of a group, which me sends at `time`, after the m messages. How many there are then.
pub fn send(
    words: &mut [u32],
    m: usize,
    me: NodeNumber,
    time: Stamp,
    own: NodeRecord,
    sends: Sends,
) -> usize
    requires words { (length words.old ≡ ring_length) × (me.0 < 64) × (time.0 < 2 ^ 24)
        × (m + length (sends_of me.0 time.0 own sends) ≤ 1024) }
    requires sends { RoomNode own × SendsFit own sends }
    ensures ring { (ρ : Ring) (n : ℕ) → Encodes words.old n m ρ
        → Encodes words.new n result (set_messages (ρ.messages ++ sends_of me.0 time.0 own sends) ρ) }
{
    match sends {
        Sends::Nothing => m,
        Sends::One(message) => {
            append(words, m, message);
            m + 1
        }
        Sends::Each(tag, to) => send_each(words, m, tag, me, to),
        Sends::ToSpares(to) => send_requests(words, m, me, time, own, to),
    }
}
