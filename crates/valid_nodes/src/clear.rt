// Words that belong to nothing.
ghost use Rattle.std.specs.Prelude.{◌≡◌, ◌≤◌, length};
ghost use Rattle.model.specs.Words.{ring_length};
ghost use Rattle.valid_nodes.specs.Nodes.{clear as isClear};

// The words from place `from` up to `to` are 0.
pub fn clear(words: &[u32], from: usize, to: usize) -> bool
    requires words { (length words.now ≡ ring_length) × (from ≤ to) × (to ≤ ring_length) }
    ensures value { result ≡ isClear words.now from to }
{
    let mut met = 0;
    for word in &words[from..to] {
        met |= *word;
    }
    met == 0
}
