// Which nodes an event parts: the groups before and after it, and the sides on which its nodes are left.
#![tactic(auto)]

ghost use Rattle.std.specs.Prelude.{◌≡◌, not, ◌&&◌, ◌++◌, ℕ, ◌+◌, ◌*◌, ◌≤◌, length};
ghost use Rattle.model.specs.Sets.{of_bits, some, count, members};
ghost use Rattle.model.specs.Leafset.{size};
ghost use Rattle.model.specs.Ring.{Ring, is_running};
ghost use Rattle.model.specs.Words.{ring_length, decode_table, decode};
ghost use Rattle.model.specs.Connection as model;
ghost use Rattle.bench_lines.specs.Decimal.{spaced};
ghost use Rattle.bench_lines.specs.Put.{Put};
ghost use Rattle.audit_account.specs.Partings as partings;
ghost use Rattle.audit_parting.specs.Groups.{AreGroups, Filled, Around};
ghost use Rattle.audit_parting.specs.Sides.{bar_text};

use model::values::NodeNumber;

// The group of each node, by its number; how many groups there are.
pub fn find(words: &[u32], n: usize, groups: &mut [u64]) -> u32
    requires words { (length words.now ≡ ring_length) × (n ≡ size (decode_table words.now)) × (n ≤ 64) }
    requires room { length groups.old ≡ 64 }
    ensures groups { AreGroups (decode words.now) groups.new }
    ensures count { result ≡ model.groups (decode words.now) }
{
    groups.fill(0);
    let mut count = 0;
    // A turn takes out a whole group, so the loop is not one over the members.
    let mut left = ring_nodes::running(words, n);
    while left != 0 {
        let group = ring_connection::group(words, left, sets::lowest(left));
        fill(groups, group, group);
        left = sets::minus(left, group);
        count += 1;
    }
    count
}

// Puts the value at each member of the set.
fn fill(groups: &mut [u64], set: u64, value: u64)
    requires room { length groups.old ≡ 64 }
    ensures groups { Filled groups.old groups.new set value }
{
    for x in sets::members(set) {
        groups[x.index()] = value;
    }
}

// The nodes that were parted from some node: the groups before and after an event, and the nodes that run after it.
pub fn torn(old: &[u64], new: &[u64], running: u64) -> u64
    requires groups { (length old.now ≡ 64) × (length new.now ≡ 64) }
    ensures torn { (r r' : Ring) → Around r r' old.now new.now
        → ((x : ℕ) → of_bits running x ≡ is_running r' x) → (x : ℕ) → of_bits result x ≡ partings.torn r r' x }
{
    let mut torn = 0;
    for x in sets::members(running) {
        if is_torn(old[x.index()], new[x.index()], running) {
            torn = sets::with(torn, x);
        }
    }
    torn
}

// Whether some node of the old group still runs, and is not of the new one.
fn is_torn(old: u64, new: u64, running: u64) -> bool
    ensures value { result ≡ some 64 (λ (b : ℕ). of_bits old b && of_bits running b && not (of_bits new b)) }
{
    sets::minus(old & running, new) != 0
}

// Puts the sides, each after " |" but the first.
pub fn put_sides(torn: u64, old: &[u64], new: &[u64], n: usize, out: &mut [u8], at: usize) -> usize
    requires groups { (length old.now ≡ 64) × (length new.now ≡ 64) × (n ≤ 64) }
    requires room { at + 1472 ≤ length out.old }
    ensures bytes { (r r' : Ring) → Around r r' old.now new.now
        → ((x : ℕ) → of_bits torn x ≡ partings.torn r r' x) → n ≡ size r.table
        → Put out.old out.new at result (partings.sides_text r r' n) }
    ensures end { result ≤ at + 1472 }
{
    let mut end = at;
    let mut left = torn;
    // x is a node's number and its place in both arrays, and who is left shrinks by a side.
    for x in 0..n {
        if !sets::has(left, NodeNumber(x as u8)) {
            continue;
        }
        let side = old[x] & new[x] & left;
        end = put_side(out, end, left != torn, side);
        left = sets::minus(left, side);
    }
    end
}

// Puts the members of a side, after " |" if another side stands before it.
fn put_side(out: &mut [u8], at: usize, bar: bool, side: u64) -> usize
    requires room { at + 2 + 21 * count 64 (of_bits side) ≤ length out.old }
    ensures bytes { Put out.old out.new at result
        (bar_text bar ++ spaced (members 64 (of_bits side))) }
    ensures end { result ≤ at + 2 + 21 * count 64 (of_bits side) }
{
    let start = put_bar(out, at, bar);
    bench_sets::put_members(out, start, side)
}

// Puts " |", or nothing.
fn put_bar(out: &mut [u8], at: usize, bar: bool) -> usize
    requires room { at + 2 ≤ length out.old }
    ensures bytes { Put out.old out.new at result (bar_text bar) }
    ensures end { result ≤ at + 2 }
{
    if !bar {
        return at;
    }
    bench_lines::put_bytes(out, at, b" |")
}
