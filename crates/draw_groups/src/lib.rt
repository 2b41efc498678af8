// The groups of connected running nodes, numbered from 0 in the order of their lowest nodes.
#![tactic(auto)]

ghost use Rattle.std.specs.Prelude.{◌≡◌, ◌≤◌, length};
ghost use Rattle.model.specs.Leafset.{size};
ghost use Rattle.model.specs.Words.{ring_length, decode_table, decode};
ghost use Rattle.model.specs.Connection as model;

// Writes the number to the place of each member of the group.
fn number_members(numbers: &mut [u8], group: u64, number: u8)
    requires places { length numbers.old ≡ 64 }
    ensures places { length numbers.new ≡ 64 }
{
    for x in sets::members(group) {
        numbers[x.index()] = number;
    }
}

// Writes the number of its group to the place of each running node of the ring's n; the other places stay. How many
// groups there are.
pub fn number_groups(words: &[u32], n: usize, numbers: &mut [u8]) -> u32
    requires words { (length words.now ≡ ring_length) × (n ≡ size (decode_table words.now)) × (n ≤ 64)
        × (length numbers.old ≡ 64) }
    ensures count { result ≡ model.groups (decode words.now) }
    ensures places { length numbers.new ≡ 64 }
{
    let mut count = 0;
    // A turn takes out a whole group, so the loop is not one over the members.
    let mut left = ring_nodes::running(words, n);
    while left != 0 {
        let group = ring_connection::group(words, left, sets::lowest(left));
        number_members(numbers, group, count as u8);
        left = sets::minus(left, group);
        count += 1;
    }
    count
}
