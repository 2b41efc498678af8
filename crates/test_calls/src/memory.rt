// The words that the calls work on.
ghost use Rattle.std.specs.Prelude.{◌≡◌, ◌≤◌, length};

// n, or the number of items where n is above it.
pub fn at_most<T>(n: u32, items: &[T]) -> usize
    ensures end { result ≤ length items.now }
{
    items.len().min(n as usize)
}

// Words `from` up to `to` become the value.
pub fn fill(words: &mut [u32], from: u32, to: u32, value: u32) {
    let end = at_most(to, words);
    if let Some(part) = words.get_mut(from as usize..end) {
        part.fill(value);
    }
}

pub fn fill_all(stamps: &mut [u32; 4096], spares: &mut [u8; 4096], stamp: u32, spare: u32) {
    stamps.fill(stamp);
    spares.fill((spare % 256) as u8);
}

// The number of places at which the words differ.
pub fn differing(before: &[u32], after: &[u32]) -> u64
    requires lengths { length before.now ≡ length after.now }
{
    before.iter().zip(after).filter(|(b, a)| **b != **a).count() as u64
}
