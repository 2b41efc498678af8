// Auditing the event words of a script, one after the other.
ghost use Rattle.std.specs.Prelude.{◌+◌, ◌*◌, ◌^◌, ◌<◌, ◌≤◌, length};
ghost use Rattle.audit_session.specs.Sessions.{standing_of, Holds, AllAudited};

use audit_account::Log;
use audit_event::audit_word;

// Audits each word of the script on what the one before left, puts the lines at the start of `out`, and answers where
// they end.
pub fn audit_all(words: &mut [u32], script: &[u32], log: &mut Log, out: &mut [u8]) -> usize
    requires holds { Holds (standing_of words.old log.old) words.old log.old }
    requires room { (2914 * length script.now ≤ length out.old)
        × (log.old.account.count + length script.now < 2 ^ 64) }
    ensures audited { AllAudited (standing_of words.old log.old) script.now
        words.new log.new out.old out.new result }
{
    let mut end = 0;
    for word in script {
        end = audit_word(words, *word, log, out, end);
    }
    end
}
