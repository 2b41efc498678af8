// An event of a script: played, noted in the log, and put as lines.
#![tactic(auto)]

pub mod cause;
pub mod note;
pub mod played;
pub mod tell;

ghost use Rattle.std.specs.Prelude.{◌≡◌, true, ◌+◌, ◌<◌, ◌≤◌, ◌^◌, length};
ghost use Rattle.model.specs.Words.{reads_as_ring};
ghost use Rattle.audit_account.specs.Accounts.{Standing};
ghost use Rattle.audit_event.specs.Kept.{Few, Fresh, Long, Kept, Noted, Grouped, Audits};

use audit_account::Log;
use model::refusal::Refusal;

// Plays the word on the ring and notes it in its log, and puts its lines from `at` on.
pub fn audit_word(words: &mut [u32], word: u32, log: &mut Log, out: &mut [u8], at: usize) -> usize
    requires ring { reads_as_ring words.old ≡ true }
    requires account { Few log.old.account × (log.old.account.count + 1 < 2 ^ 64) }
    requires lists { Long log.old }
    requires room { at + 2914 ≤ length out.old }
    ensures audits { (s : Standing) → Kept s words.old log.old → Grouped s log.old.groups
        → Audits s word words.new log.new out.old out.new at result }
    ensures end { (result ≤ at + 2914) × Long log.new }
{
    let answer = played::play(words, word, log);
    report(words, word, answer, log, out, at)
}

// Puts the lines of an event that is played and noted; the log has the groups before it still.
fn report(
    words: &[u32],
    word: u32,
    answer: Result<(), Refusal>,
    log: &mut Log,
    out: &mut [u8],
    at: usize,
) -> usize
    requires ring { (reads_as_ring words.now ≡ true) × Fresh log.old.account }
    requires lists { Long log.old }
    requires room { at + 2914 ≤ length out.old }
    ensures audits { (s : Standing) → Noted s word words.now log.old answer → Grouped s log.old.groups
        → Audits s word words.now log.new out.old out.new at result }
    ensures end { (result ≤ at + 2914) × Long log.new }
{
    let mut groups = [0u64; 64];
    let view = played::look(words, &mut groups);
    let account = log.account;
    let first = audit_lines::put_event(out, at, account.count, word, answer, view.sight);
    let torn = audit_parting::torn(&log.groups, &groups, view.running);
    let told = tell::tell(
        torn,
        &log.groups,
        &groups,
        view.nodes,
        account,
        &log.listed,
        out,
        first,
    );
    log.account = note::settled(told.account, view.point);
    log.groups = groups;
    told.end
}
