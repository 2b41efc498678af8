// Opening: the initial ring written over a lent buffer.
#![tactic(auto)]

ghost use Rattle.std.specs.Prelude.{◌≡◌, ◌≢◌, ◌↔◌, ◌<◌, ◌≤◌, ℕ, IsTrue, EachIndex, slice_index};
ghost use Rattle.model.specs.Answers.{answer_number};
ghost use Rattle.model.specs.Words.{in_range};
ghost use Rattle.model.specs.Structs.{table_of};
ghost use Rattle.model.specs.Buffer.{open_answer, open_buffer};
ghost use Rattle.answers.specs.Applied.{written};

use model::refusal::Refusal;
use model::values::Sides;
use word_ring::{limit, place};

// "Opening takes [A, then B,] and a list of n keys, stand 0's first, and writes a fresh ring over the lent buffer,
// whose old words don't matter."
pub fn open(
    words: &mut [u32],
    clockwise: u32,
    counter_clockwise: u32,
    keys: &[u32],
) -> Result<(), Refusal>
    ensures written { written result words.new
        ≡ open_buffer words.old
        (table_of (record { ahead = clockwise; behind = counter_clockwise }) keys.now) }
{
    let sides = Sides {
        ahead: clockwise,
        behind: counter_clockwise,
    };
    refusal(words, sides, keys)?;
    ring_initial::write(words, sides, keys);
    Ok(())
}

// 1, 2 and 3.
fn refusal(words: &[u32], sides: Sides, keys: &[u32]) -> Result<(), Refusal>
    ensures answer { answer_number result ≡ open_answer words.now (table_of sides keys.now) }
{
    if words.len() != place::LENGTH {
        return Err(Refusal::WrongLength);
    }
    if !in_range(sides, keys) {
        return Err(Refusal::OpeningOutOfRange);
    }
    if !(keys_fit(keys) && keys_differ(keys)) {
        return Err(Refusal::BadKey);
    }
    Ok(())
}

// "A clockwise and B counter-clockwise, each 1 to 8"; "table size n (1 to 64)"
fn in_range(sides: Sides, keys: &[u32]) -> bool
    ensures value { result ≡ in_range (table_of sides keys.now) }
{
    limit::sides_fit(sides) & (1..=64).contains(&keys.len())
}

// No key is above 16,777,215.
fn keys_fit(keys: &[u32]) -> bool
    ensures value { IsTrue result ↔ EachIndex keys.now (λ s. slice_index keys.now s ≤ 16777215) }
{
    keys.iter().all(|key| *key <= limit::KEY)
}

// "keys differ": a loop, since the proof over a chain did not close.
fn keys_differ(keys: &[u32]) -> bool
    ensures value { IsTrue result
        ↔ EachIndex keys.now (λ x. (y : ℕ) → y < x → slice_index keys.now y ≢ slice_index keys.now x) }
{
    for (x, key) in keys.iter().enumerate() {
        if keys[..x].contains(key) {
            return false;
        }
    }
    true
}
