// The most that a ring has.
ghost use Rattle.std.specs.Prelude.{◌≡◌};
ghost use Rattle.model.specs.Words.{sides_fit};

use model::values::Sides;

pub const MESSAGES: usize = 1_024;

// Of one sender.
pub const SENDER: usize = 256;

// On each side of a leafset.
pub const SIDE: u32 = 8;

// The last place on the ring of keys.
pub const KEY: u32 = 16_777_215;

// The last value of a clock: where it must rise, refusal 10.
pub const CLOCK: u32 = 16_777_215;

// "A clockwise and B counter-clockwise, each 1 to 8"
pub fn sides_fit(sides: Sides) -> bool
    ensures value { result ≡ sides_fit sides }
{
    (1..=SIDE).contains(&sides.ahead) & (1..=SIDE).contains(&sides.behind)
}
