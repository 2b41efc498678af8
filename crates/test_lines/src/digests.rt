// Digests of words, bytes and sets: each place counts.
ghost use Rattle.std.specs.Prelude.{◌<◌, ◌^◌};

// One more word. 31 is odd, so lists that differ in one word have different digests.
fn digested(digest: u64, word: u32) -> u64
    requires bounds { digest < 2 ^ 32 }
    ensures bound { result < 2 ^ 32 }
{
    (31 * digest + u64::from(word)) % 0x1_0000_0000
}

// The digest of words or bytes.
pub fn digest<T: Copy + Into<u32>>(items: &[T]) -> u64
    ensures bound { result < 2 ^ 32 }
{
    digest_on(0, items)
}

// The digest of words or bytes after others, whose digest is the first.
pub fn digest_on<T: Copy + Into<u32>>(first: u64, items: &[T]) -> u64
    requires bounds { first < 2 ^ 32 }
    ensures bound { result < 2 ^ 32 }
{
    let mut digest = first;
    for item in items {
        digest = digested(digest, (*item).into());
    }
    digest
}

// A set as two words, the lower one first.
pub fn digest_set(first: u64, set: u64) -> u64
    requires bounds { first < 2 ^ 32 }
    ensures bound { result < 2 ^ 32 }
{
    let low = digested(first, (set % 0x1_0000_0000) as u32);
    digested(low, (set / 0x1_0000_0000) as u32)
}

pub fn digest_sets(first: u64, sets: &[u64; 64]) -> u64
    requires bounds { first < 2 ^ 32 }
    ensures bound { result < 2 ^ 32 }
{
    let mut digest = first;
    for set in sets {
        digest = digest_set(digest, *set);
    }
    digest
}
