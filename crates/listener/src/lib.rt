// A listener: it counts the ticks since each watched node was heard, and gives a notice when they reach its window. It
// needs no ring. The calls require nothing; a refused one leaves the record.
#![tactic(auto)]

ghost use Rattle.std.specs.Prelude.{◌≡◌, not, ◌&&◌, suc, ◌<◌, slice_set, ltb, eqb, if◌then◌else◌};
ghost use Rattle.model.specs.Sets.{to_bits, of_bits};
ghost use Rattle.model.specs.Answers.{answer_number};
ghost use Rattle.model.specs.Listener.{Watch, Tick, Hear, grown, watch_answer, hear_answer};
ghost use Rattle.model.specs.Listener.{notices_of, listener_of, leaves_record};

use model::listener::ListenerRecord;
use model::refusal::Refusal;
use model::values::NodeNumber;

// "A watched stand starts with silence 0 and window 4. Watching it again changes nothing."
pub fn watch(listener: &mut ListenerRecord, node: NodeNumber) -> Result<(), Refusal>
    ensures answer { answer_number result ≡ watch_answer node.0 }
    ensures listener { listener.new ≡ leaves_record listener.old (Watch node.0) }
{
    let watched = listener.watched;
    if node.0 > 63 {
        return Err(Refusal::OutOfTable);
    }
    if sets::has(watched, node) {
        return Ok(());
    }
    listener.watched = sets::with(watched, node);
    restart(listener, node, 4);
    Ok(())
}

// "A tick adds 1 to each silence that is below its window and gives a notice for each that thereby reaches it": bit s
// for node s.
pub fn tick(listener: &mut ListenerRecord) -> u64
    ensures notices { result ≡ to_bits 64 (notices_of (listener_of listener.old) Tick) }
    ensures listener { listener.new ≡ leaves_record listener.old Tick }
{
    let watched = listener.watched;
    let mut notices = 0;
    for (s, silence) in listener.silences.iter_mut().enumerate() {
        let is_watched = sets::has(watched, NodeNumber(s as u8));
        notices += u64::from(count(is_watched, silence, listener.windows[s])) << s;
    }
    notices
}

// "Hearing a watched stand sets its silence to 0. If it had been noticed, .. the window also grows by 1, up to 255."
pub fn hear(listener: &mut ListenerRecord, node: NodeNumber) -> Result<(), Refusal>
    ensures answer { answer_number result ≡ hear_answer (listener_of listener.old) node.0 }
    ensures listener { listener.new ≡ leaves_record listener.old (Hear node.0) }
{
    let watched = listener.watched;
    if node.0 > 63 {
        return Err(Refusal::OutOfTable);
    }
    if !sets::has(watched, node) {
        return Err(Refusal::NotWatched);
    }
    let at = node.index();
    let window = heard_window(listener.silences[at], listener.windows[at]);
    restart(listener, node, window);
    Ok(())
}

// Adds 1 to the silence of a watched node that is below its window: whether it thereby reaches it.
fn count(is_watched: bool, silence: &mut u8, window: u8) -> bool
    ensures silence { silence.new ≡ (if is_watched && ltb silence.old window then suc silence.old else silence.old) }
    ensures reached { result ≡ ((is_watched && ltb silence.old window) && eqb (suc silence.old) window) }
{
    let awaited = is_watched & (*silence < window);
    *silence += u8::from(awaited);
    awaited & (*silence == window)
}

// The window of a node that is heard after such a silence.
fn heard_window(silence: u8, window: u8) -> u8
    ensures value { result ≡ (if not (ltb silence window) then grown window else window) }
{
    if silence < window {
        window
    } else {
        window.saturating_add(1)
    }
}

// Sets silence 0 and that window for the node.
fn restart(listener: &mut ListenerRecord, node: NodeNumber, window: u8)
    requires bounds { node.0 < 64 }
    ensures value { listener.new ≡ record listener.old {
      silences = slice_set listener.old.silences node.0 0;
      windows = slice_set listener.old.windows node.0 window;
    } }
{
    let at = node.index();
    listener.silences[at] = 0;
    listener.windows[at] = window;
}
