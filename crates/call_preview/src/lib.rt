// Public: what an event word would be answered and would leave, shown in a second buffer. The call requires nothing: on
// every pair of buffers the answer, and every word of both afterwards, is the definition's.
#![tactic(auto)]

ghost use Rattle.std.specs.Prelude.{◌≡◌, true, length};
ghost use Rattle.model.specs.Words.{ring_length, reads_as_ring};
ghost use Rattle.model.specs.Preview.{preview_buffer};
ghost use Rattle.answers.specs.Applied.{written, event_on};
ghost use Rattle.call_preview.specs.Shown.{shown_in};

use event_act::write;
use model::event::Event;
use model::refusal::Refusal;

// Decides on the words, then writes on a copy of them.
fn preview_event(words: &[u32], e: Event, second: &mut [u32]) -> Result<(), Refusal>
    requires ring { reads_as_ring words.now ≡ true }
    requires length { length second.old ≡ ring_length }
    ensures written { written result second.new
        ≡ shown_in second.old (event_on words.now e) }
{
    let change = event_play::decide(words, e)?;
    ring_ranges::copy(words, second);
    write::write(second, change);
    Ok(())
}

// 1 of either buffer; 4 and 5 of the word; 6; then those of the event.
pub fn preview(words: &[u32], word: u32, second: &mut [u32]) -> Result<(), Refusal>
    ensures written { written result second.new
        ≡ preview_buffer words.now word second.old }
    ensures ring { words.now ≡ words.now }
{
    if !call_refusals::as_long(second) {
        return Err(Refusal::WrongLength);
    }
    let event = call_refusals::of_event(words, word)?;
    preview_event(words, event, second)
}
