// Which events the promise does not cover.
ghost use Rattle.std.specs.Prelude.{◌≡◌, not, ℕ};
ghost use Rattle.model.specs.Sets.{of_bits};
ghost use Rattle.model.specs.Ring.{Ring, is_running};
ghost use Rattle.model.specs.Events.{event_of};
ghost use Rattle.model.specs.ConnectivityPreserved.{is_harmless};
ghost use Rattle.audit_account.specs.Points.{is_on, is_off, is_notice};

use model::event::Event;
use model::values::NodeNumber;
use word_event::word::EventWord;

pub fn is_on(e: Event) -> bool
    ensures value { result ≡ is_on e }
{
    matches!(e, Event::On(_))
}

pub fn is_off(e: Event) -> bool
    ensures value { result ≡ is_off e }
{
    matches!(e, Event::Off(_, _))
}

pub fn is_notice(e: Event) -> bool
    ensures value { result ≡ is_notice e }
{
    matches!(e, Event::Notice(_, _))
}

// An on, an off, or a notice that names a running node; `running` are the nodes that run before the event.
pub fn is_harmful(word: u32, running: u64) -> bool
    ensures value { (ρ : Ring) → ((x : ℕ) → of_bits running x ≡ is_running ρ x)
        → result ≡ not (is_harmless ρ (event_of word)) }
{
    match EventWord(word).event() {
        Event::On(_) | Event::Off(_, _) => true,
        Event::Notice(_, z) => is_member(z, running),
        Event::Contact(_, _) | Event::Timer(_, _) | Event::Deliver(_, _) | Event::Lose(_) => false,
    }
}

// Whether a node, or none, is of the set.
fn is_member(z: NodeNumber, set: u64) -> bool
    ensures value { result ≡ of_bits set z.0 }
{
    z.0 < 64 && sets::has(set, z)
}
