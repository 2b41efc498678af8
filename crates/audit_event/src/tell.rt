// What is told of an event that parts nodes.
ghost use Rattle.std.specs.Prelude.{◌≡◌, ℕ, ◌+◌, ◌≤◌, length};
ghost use Rattle.model.specs.Sets.{of_bits};
ghost use Rattle.model.specs.Leafset.{size};
ghost use Rattle.model.specs.Ring.{Ring};
ghost use Rattle.bench_lines.specs.Put.{Put};
ghost use Rattle.audit_account.specs.Partings as partings;
ghost use Rattle.audit_account.specs.Accounts.{Standing, noted, entered, parted_text, after_parting};
ghost use Rattle.audit_parting.specs.Groups as groups;
ghost use Rattle.audit_event.specs.Kept.{Few, Fresh, Lists, Around, parting_text};

use super::note;
use audit_account::{Account, Entry};

const COLON: u8 = b':';

const NEWLINE: u8 = b'\n';

// Puts the line that names the sides.
fn put_parted(
    torn: u64,
    old: &[u64],
    new: &[u64],
    n: usize,
    number: u64,
    out: &mut [u8],
    at: usize,
) -> usize
    requires groups { (length old.now ≡ 64) × (length new.now ≡ 64) × (n ≤ 64) }
    requires room { at + 1510 ≤ length out.old }
    ensures bytes { (r r' : Ring) → groups.Around r r' old.now new.now
        → ((x : ℕ) → of_bits torn x ≡ partings.torn r r' x) → n ≡ size r.table
        → Put out.old out.new at result (parted_text number r r') }
    ensures end { result ≤ at + 1510 }
{
    let first = audit_lines::put_numbered(out, at, b"parted at event ", number);
    let second = bench_lines::put_byte(out, first, COLON);
    let third = audit_parting::put_sides(torn, old, new, n, out, second);
    bench_lines::put_byte(out, third, NEWLINE)
}

// The account with the parting, if there is one, and where its lines end.
#[derive(Clone, Copy)]
pub struct Told {
    pub account: Account,
    pub end: usize,
}

// Tells of the nodes that the event parted, if there are any, and puts the verdict. `old` and `new` are the groups
// before and after it.
pub fn tell(
    torn: u64,
    old: &[u64],
    new: &[u64],
    n: usize,
    account: Account,
    listed: &[Entry],
    out: &mut [u8],
    at: usize,
) -> Told
    requires groups { (length old.now ≡ 64) × (length new.now ≡ 64) × (n ≤ 64) }
    requires lists { (length listed.now ≡ 16) × Fresh account }
    requires room { at + 2690 ≤ length out.old }
    ensures told { (s : Standing) (w : ℕ) → Around s w old.now new.now torn n
        → account ≡ noted s.account s.ring w
        → Lists account listed.now (entered s w)
        → Put out.old out.new at result.end (parting_text s w) × (result.account ≡ after_parting s w) }
    ensures bounds { Few result.account × (result.end ≤ at + 2690) }
{
    if torn == 0 {
        return Told { account, end: at };
    }
    let first = put_parted(torn, old, new, n, account.count, out, at);
    let end = audit_lines::put_verdict(out, first, account, listed);
    Told {
        account: note::counted(account),
        end,
    }
}
