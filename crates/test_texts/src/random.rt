// Numbers that look random: one for each place of each script.
ghost use Rattle.std.specs.Prelude.{◌<◌};

const ROUNDS: u64 = 4;

const STEP: u64 = 0x9E37_79B9_7F4A_7C15;

// A few rounds over the number of the script and the place.
fn mixed(script: u64, place: u64) -> u64 {
    let mut x = (script << 32).wrapping_add(place);
    for _ in 0..ROUNDS {
        x = (x ^ (x << 13)).wrapping_add(STEP);
        x = x ^ (x >> 7);
        x = x ^ (x << 17);
    }
    x
}

// A number below the limit.
pub fn below(script: u64, place: u64, limit: u64) -> u64
    requires limit { 0 < limit }
    ensures bound { result < limit }
{
    (mixed(script, place) >> 16) % limit
}
