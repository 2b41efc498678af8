// What a call gives: a value, or the refusal that it meets.
#![tactic(auto)]

ghost use Rattle.std.specs.Prelude.{◌≡◌};
ghost use Rattle.model.specs.Answers.{answer_number};

use model::refusal::Refusal;

// The documents' number of the answer.
pub fn number<T: Copy>(answer: Result<T, Refusal>) -> u32
    ensures answer { result ≡ answer_number answer }
{
    match answer {
        Ok(_) => 0,
        Err(refusal) => refusal as u32,
    }
}
