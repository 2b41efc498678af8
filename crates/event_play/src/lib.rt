// An event, by its kind: decided, and played on words that are known to read as a ring, which are not looked at again.
#![tactic(auto)]

ghost use Rattle.std.specs.Prelude.{◌≡◌, true};
ghost use Rattle.model.specs.Words.{reads_as_ring};
ghost use Rattle.model.specs.Buffer.{play_buffer};
ghost use Rattle.answers.specs.Applied.{written, event_on};
ghost use Rattle.event_act.specs.Changes.{Decides};

use event_act::decision::Change;
use event_act::write;
use model::event::Event;
use model::refusal::Refusal;

// What the event would do: 7 to 11 and 17, or the change that it makes.
pub fn decide(words: &[u32], e: Event) -> Result<Change, Refusal>
    requires ring { reads_as_ring words.now ≡ true }
    ensures decides { Decides words.now e result }
{
    match e {
        Event::On(x) => event_on_off::on(words, x),
        Event::Off(x, polite) => event_on_off::off(words, x, polite),
        Event::Notice(x, z) => event_contact::notice(words, x, z),
        Event::Contact(x, y) => event_contact::contact(words, x, y),
        Event::Timer(x, k) => event_timer::timer(words, x, k),
        Event::Deliver(i, echo) => event_message::deliver(words, i, echo),
        Event::Lose(i) => event_message::lose(words, i),
    }
}

// Decides, then writes.
#[tactic(auto, using(crate::proofs::Plays::is_written))]
pub fn play_event(words: &mut [u32], e: Event) -> Result<(), Refusal>
    requires ring { reads_as_ring words.old ≡ true }
    ensures written { written result words.new ≡ event_on words.old e }
{
    let change = decide(words, e)?;
    write::write(words, change);
    Ok(())
}

// 4 and 5 of the word, then those of the event.
pub fn play_word(words: &mut [u32], word: u32) -> Result<(), Refusal>
    requires ring { reads_as_ring words.old ≡ true }
    ensures written { written result words.new ≡ play_buffer words.old word }
{
    let e = word_event::read_event(word)?;
    play_event(words, e)
}
