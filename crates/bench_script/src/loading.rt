// Loading the words of a script from its bytes.
ghost use Rattle.std.specs.Prelude.{◌*◌, ◌≤◌, length};
ghost use Rattle.bench_script.specs.Loaded.{Loaded};

// Puts the words of the bytes, four each, lowest first, at the start of `words`, and answers how many there are. A tail
// under 4 bytes is left out.
pub fn load(bytes: &[u8], words: &mut [u32]) -> usize
    requires lengths { length bytes.now ≤ 4 * length words.old }
    ensures loaded { Loaded bytes.now words.old words.new result }
{
    let (fours, _) = bytes.as_chunks::<4>();
    for (i, four) in fours.iter().enumerate() {
        words[i] = u32::from_le_bytes(*four);
    }
    fours.len()
}
