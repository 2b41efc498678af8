// Which refusal a question meets, and an event word before those of its event.
#![tactic(auto)]

ghost use Rattle.std.specs.Prelude.{◌≡◌, true, length, eqb};
ghost use Rattle.model.specs.Answers.{answer_number, first_of};
ghost use Rattle.model.specs.Words.{ring_length, decode, reads_as_ring};
ghost use Rattle.model.specs.Buffer.{ring_answer};
ghost use Rattle.model.specs.Questions.{nodes_refusals, connection_answer};
ghost use Rattle.call_refusals.specs.Admitted.{Admitted};

use model::event::Event;
use model::refusal::Refusal;
use model::values::NodeNumber;
use word_ring::place;

// Whether there are as many words as a ring has: where not, 1.
pub fn as_long(words: &[u32]) -> bool
    ensures value { result ≡ eqb (length words.now) ring_length }
{
    words.len() == place::LENGTH
}

// 1 and 6, which every question begins with.
pub fn of_words(words: &[u32]) -> Result<(), Refusal>
    ensures answer { answer_number result ≡ ring_answer words.now }
{
    if !as_long(words) {
        return Err(Refusal::WrongLength);
    }
    if valid_ring::reads_as_ring(words) {
        Ok(())
    } else {
        Err(Refusal::NotARing)
    }
}

// 7 for either node, then 8 for either.
fn of_ring(words: &[u32], a: NodeNumber, b: NodeNumber) -> Result<(), Refusal>
    requires ring { reads_as_ring words.now ≡ true }
    ensures answer { answer_number result ≡ first_of (nodes_refusals (decode words.now) a.0 b.0) }
{
    let n = ring_head::nodes(words);
    if n <= a.index() {
        return Err(Refusal::OutOfTable);
    }
    if n <= b.index() {
        return Err(Refusal::OutOfTable);
    }
    if !(ring_nodes::is_running(words, a) & ring_nodes::is_running(words, b)) {
        return Err(Refusal::NodeOff);
    }
    Ok(())
}

// Those of a question about two nodes, or about one, named twice.
pub fn of_nodes(words: &[u32], a: NodeNumber, b: NodeNumber) -> Result<(), Refusal>
    ensures answer { answer_number result ≡ connection_answer words.now a.0 b.0 }
{
    of_words(words)?;
    of_ring(words, a, b)
}

// 1; 4 and 5 of the word; 6; or the event, on words that read as a ring.
pub fn of_event(words: &[u32], word: u32) -> Result<Event, Refusal>
    ensures admitted { Admitted words.now word result }
{
    if !as_long(words) {
        return Err(Refusal::WrongLength);
    }
    let event = word_event::read_event(word)?;
    if !valid_ring::reads_as_ring(words) {
        return Err(Refusal::NotARing);
    }
    Ok(event)
}
