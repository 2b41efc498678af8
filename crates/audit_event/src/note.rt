// An account by value.
ghost use Rattle.std.specs.Prelude.{◌≡◌, ℕ, ◌+◌, ◌<◌, ◌^◌, length, if◌then◌else◌};
ghost use Rattle.model.specs.Ring.{Ring};
ghost use Rattle.model.specs.Events.{event_of};
ghost use Rattle.audit_account.specs.Points.{is_uncovered_word};
ghost use Rattle.audit_account.specs.Accounts as accounts;
ghost use Rattle.audit_event.specs.Kept.{Few, Fresh, Listed};

use super::cause;
use audit_account::{Account, Entry};
use audit_lines::MOST;
use model::event::Event;

// One more event is played.
#[tactic(auto, unfolding(audit_account::specs::Accounts::noted))]
pub fn noted(account: Account, event: Event, uncovered: bool) -> Account
    requires bounds { Few account × (account.count + 1 < 2 ^ 64) }
    ensures value { (ρ : Ring) (w : ℕ) → uncovered ≡ is_uncovered_word ρ w → event ≡ event_of w
        → result ≡ accounts.noted account ρ w }
    ensures bounds { Fresh result }
{
    Account {
        count: account.count + 1,
        uncovered: account.uncovered + u64::from(uncovered),
        on: account.on | (uncovered & cause::is_on(event)),
        off: account.off | (uncovered & cause::is_off(event)),
        notice: account.notice | (uncovered & cause::is_notice(event)),
        ..account
    }
}

// The last event parted nodes.
#[tactic(auto, unfolding(audit_account::specs::Accounts::counted))]
pub fn counted(account: Account) -> Account
    requires bounds { Fresh account }
    ensures value { result ≡ accounts.counted account }
    ensures bounds { Few result }
{
    Account {
        partings: account.partings + 1,
        ons: account.ons + u64::from(account.on),
        offs: account.offs + u64::from(account.off),
        notices: account.notices + u64::from(account.notice),
        ..account
    }
}

// The promise may begin here.
#[tactic(auto, unfolding(audit_account::specs::Accounts::begun))]
fn begun(account: Account) -> Account
    ensures value { result ≡ accounts.begun account }
{
    Account {
        point: account.count,
        uncovered: 0,
        on: false,
        off: false,
        notice: false,
        ..account
    }
}

// The account once an event is told: whether the promise may begin after it.
pub fn settled(account: Account, point: bool) -> Account
    requires bounds { Few account }
    ensures value { result ≡ (if point then accounts.begun account else account) }
    ensures bounds { Few result }
{
    if point { begun(account) } else { account }
}

// Lists the event after the k that are listed, if it is uncovered and there is room.
pub fn list(entries: &mut [Entry], uncovered: bool, k: u64, entry: Entry)
    requires entries { length entries.old ≡ 16 }
    ensures listed { Listed uncovered k entry entries.old entries.new }
{
    if uncovered && k < MOST {
        entries[k as usize] = entry;
    }
}
