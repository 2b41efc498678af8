// What the bench prints of a ring at the end: a line for each node, and the number of groups.
#![tactic(auto)]

ghost use Rattle.std.specs.Prelude.{◌≡◌, true, ◌∷◌, ◌+◌, ◌*◌, ◌<◌, ◌≤◌, length};
ghost use Rattle.model.specs.Sets.{of_bits, count, members, tabulate};
ghost use Rattle.model.specs.Leafset.{size};
ghost use Rattle.model.specs.Words.{ring_length, decode_table, decode, reads_as_ring};
ghost use Rattle.model.specs.Bench.{node_line};
ghost use Rattle.bench_lines.specs.Decimal.{spaced, line_bytes, lines_bytes};
ghost use Rattle.bench_lines.specs.Put.{Put};
ghost use Rattle.bench_report.specs.Report.{groups_bytes, end_bytes, state_bytes};

use model::values::NodeNumber;

const NEWLINE: u8 = b'\n';

// Puts the line of each node, and "groups" with their number.
pub fn put_end(words: &[u32], out: &mut [u8], at: usize) -> usize
    requires ring { reads_as_ring words.now ≡ true }
    requires room { at + 93000 ≤ length out.old }
    ensures bytes { Put out.old out.new at result (end_bytes (decode words.now)) }
    ensures end { result ≤ at + 93000 }
{
    let n = ring_head::nodes(words);
    let end = put_nodes(words, n, out, at);
    put_groups(out, end, ring_connection::groups(words, n))
}

// Puts "groups" and their number.
fn put_groups(out: &mut [u8], at: usize, groups: u32) -> usize
    requires room { at + 28 ≤ length out.old }
    ensures bytes { Put out.old out.new at result (groups_bytes groups) }
    ensures end { result ≤ at + 28 }
{
    let first = bench_lines::put_bytes(out, at, b"groups");
    let second = bench_lines::put_next(out, first, u64::from(groups));
    bench_lines::put_byte(out, second, NEWLINE)
}

// Puts the line of each of the n nodes; x is the number of a node.
fn put_nodes(words: &[u32], n: usize, out: &mut [u8], at: usize) -> usize
    requires words { (length words.now ≡ ring_length) × (n ≡ size (decode_table words.now)) × (n ≤ 64)
        × (at + 1450 * n ≤ length out.old) }
    ensures bytes { Put out.old out.new at result
        (lines_bytes (tabulate n (node_line (decode words.now)))) }
    ensures end { result ≤ at + 1450 * n }
{
    let mut end = at;
    for x in 0..n {
        end = put_node(words, n, NodeNumber(x as u8), out, end);
    }
    end
}

// Puts the line of node x, of n.
fn put_node(words: &[u32], n: usize, x: NodeNumber, out: &mut [u8], at: usize) -> usize
    requires words { (length words.now ≡ ring_length) × (n ≡ size (decode_table words.now)) × (n ≤ 64) × (x.0 < n)
        × (at + 1450 ≤ length out.old) }
    ensures bytes { Put out.old out.new at result
        (line_bytes (node_line (decode words.now) x.0)) }
    ensures end { result ≤ at + 1450 }
{
    let own = ring_pairs::load(words, n, x);
    let first = put_state(words, x, out, at);
    let second = put_held(out, first, own.held);
    bench_lines::put_byte(out, second, NEWLINE)
}

// Puts the number, the key, whether it runs, and the clock of node x.
fn put_state(words: &[u32], x: NodeNumber, out: &mut [u8], at: usize) -> usize
    requires words { (length words.now ≡ ring_length) × (x.0 < size (decode_table words.now))
        × (at + 84 ≤ length out.old) }
    ensures bytes { Put out.old out.new at result
        (state_bytes (decode words.now) x.0) }
    ensures end { result ≤ at + 84 }
{
    let first = bench_lines::put_number(out, at, u64::from(x.0));
    let second = bench_lines::put_next(out, first, u64::from(ring_head::key(words, x).0));
    let third = bench_lines::put_next(out, second, u64::from(ring_nodes::is_running(words, x)));
    bench_lines::put_next(out, third, u64::from(ring_nodes::clock(words, x).0))
}

// Puts how many are held, and each of them.
fn put_held(out: &mut [u8], at: usize, held: u64) -> usize
    requires room { at + 1365 ≤ length out.old }
    ensures bytes { Put out.old out.new at result
        (spaced (count 64 (of_bits held) ∷ members 64 (of_bits held))) }
    ensures end { result ≤ at + 1365 }
{
    let first = bench_lines::put_next(out, at, u64::from(sets::size(held)));
    bench_sets::put_members(out, first, held)
}
