// Playing the event words of a script, each with its line: "count from 1, answer (0 accepted), messages travelling".
ghost use Rattle.std.specs.Prelude.{◌≡◌, true, ◌+◌, ◌*◌, ◌^◌, ◌<◌, ◌≤◌, length};
ghost use Rattle.model.specs.Words.{reads_as_ring};
ghost use Rattle.bench_session.specs.Playing.{OnePlayed, AllPlayed};

// Plays the word, event `number`, and puts its line from `at` on. Where the line ends.
fn play_word(words: &mut [u32], word: u32, number: u64, out: &mut [u8], at: usize) -> usize
    requires ring { reads_as_ring words.old ≡ true }
    requires room { at + 63 ≤ length out.old }
    ensures played { OnePlayed words.old word number words.new out.old
        out.new at result }
{
    let answer = event_play::play_word(words, word);
    bench_lines::put_three(
        out,
        at,
        number,
        u64::from(answers::number(answer)),
        ring_head::messages(words) as u64,
    )
}

// Plays each word of the script on what the one before left, `count` events having been played before, and puts the
// lines at the start of `out`. Where they end.
pub fn play_all(words: &mut [u32], script: &[u32], count: u64, out: &mut [u8]) -> usize
    requires ring { (reads_as_ring words.old ≡ true) × (63 * length script.now ≤ length out.old)
        × (count + length script.now < 2 ^ 64) }
    ensures played { AllPlayed words.old script.now count words.new
        out.old out.new result }
{
    let mut number = count;
    let mut end = 0;
    for word in script {
        number += 1;
        end = play_word(words, *word, number, out, end);
    }
    end
}
