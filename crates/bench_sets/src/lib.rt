// Sets of nodes as numbers in a line.
#![tactic(auto)]

ghost use Rattle.std.specs.Prelude.{◌+◌, ◌*◌, ◌≤◌, length};
ghost use Rattle.model.specs.Sets.{of_bits, count, members};
ghost use Rattle.bench_lines.specs.Decimal.{spaced};
ghost use Rattle.bench_lines.specs.Put.{Put};

// Puts each member of the set, in rising order.
pub fn put_members(out: &mut [u8], at: usize, set: u64) -> usize
    requires room { at + 21 * count 64 (of_bits set) ≤ length out.old }
    ensures bytes { Put out.old out.new at result (spaced (members 64 (of_bits set))) }
    ensures end { result ≤ at + 21 * count 64 (of_bits set) }
{
    let mut end = at;
    for y in sets::members(set) {
        end = bench_lines::put_next(out, end, u64::from(y.0));
    }
    end
}
