// Public: playing an event word on lent words; a list of them; and such a list on a ring that is opened first. The
// calls require nothing: on every input the answer, and every lent word afterwards, is the definition's.
#![tactic(auto)]

ghost use Rattle.std.specs.Prelude.{◌≡◌, true, length, set};
ghost use Rattle.model.specs.Buffer.{play_buffer};
ghost use Rattle.model.specs.Answers.{answer_number};
ghost use Rattle.model.specs.Words.{reads_as_ring};
ghost use Rattle.model.specs.Structs.{table_of};
ghost use Rattle.answers.specs.Applied.{written};
ghost use Rattle.call_play.specs.Replay.{PlayedUpTo, PlayedAll, Replayed};

use call_open::open;
use model::refusal::Refusal;

// 1; 4 and 5 of the word; 6; then those of the event.
pub fn play(words: &mut [u32], word: u32) -> Result<(), Refusal>
    ensures written { written result words.new ≡ play_buffer words.old word }
{
    let event = call_refusals::of_event(words, word)?;
    event_play::play_event(words, event)
}

// Writes the answer's number to place i, if there is one. The index is tested, since a proof knows of what is written
// through `get_mut` no more than the length.
fn note(answers: &mut [u8], i: usize, answer: Result<(), Refusal>)
    ensures answer { answers.new ≡ set answers.old i (answer_number answer) }
{
    if i < answers.len() {
        answers[i] = answers::number(answer) as u8;
    }
}

// Plays each word on what the one before left.
fn play_each(words: &mut [u32], script: &[u32], answers: &mut [u8])
    requires ring { reads_as_ring words.old ≡ true }
    ensures played { PlayedUpTo (length script.now) words.old script.now
        answers.old words.new answers.new }
{
    for (i, word) in script.iter().enumerate() {
        let answer = event_play::play_word(words, *word);
        note(answers, i, answer);
    }
}

// Plays a list of words on a ring that is there: 1; 6. The words are read as a ring once. Each answer's number is
// written to its place; those past the places are dropped.
pub fn play_all(words: &mut [u32], script: &[u32], answers: &mut [u8]) -> Result<(), Refusal>
    ensures played { PlayedAll words.old script.now answers.old (answer_number result)
        words.new answers.new }
{
    // The refusal has a name, as with `?` it had not: an edit of it is refused for the answer that it gives.
    if let Err(refusal) = call_refusals::of_words(words) {
        return Err(refusal);
    }
    play_each(words, script, answers);
    Ok(())
}

// Opens a ring and plays a list of words on it. Each answer's number is written to its place; those past the places
// are dropped.
pub fn replay(
    words: &mut [u32],
    clockwise: u32,
    counter_clockwise: u32,
    keys: &[u32],
    script: &[u32],
    answers: &mut [u8],
) -> Result<(), Refusal>
    ensures replayed { Replayed words.old
        (table_of (record { ahead = clockwise; behind = counter_clockwise }) keys.now)
        script.now answers.old (answer_number result) words.new answers.new }
{
    open(words, clockwise, counter_clockwise, keys)?;
    play_each(words, script, answers);
    Ok(())
}
