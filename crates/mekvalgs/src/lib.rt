// The calls under C's names, on numbers and slices: include/mekvalgs.h. An answer is document 01's number; what a call
// returns beside it is written through a reference.
#![tactic(auto)]

ghost use Rattle.std.specs.Prelude.{◌≡◌, length};
ghost use Rattle.model.specs.Fields.{bit};
ghost use Rattle.model.specs.Structs.{table_of};
ghost use Rattle.model.specs.Buffer.{ring_answer, open_buffer, play_buffer};
ghost use Rattle.model.specs.Questions.{leafset_answer, leafset_of, connection_answer, connection_of, groups_of};
ghost use Rattle.model.specs.Words.{decode};
ghost use Rattle.model.specs.Preview.{preview_buffer};
ghost use Rattle.model.specs.Join.{join_buffer};
ghost use Rattle.model.specs.Short.{shorten_buffer, lengthen_buffer};
ghost use Rattle.model.specs.Route.{route_buffer};
ghost use Rattle.model.specs.Reach.{reach_of};
ghost use Rattle.model.specs.Screens.{conductor_of, technician_of, stamps_of, spares_of, messages_of};
ghost use Rattle.model.specs.Connection.{Connected};
ghost use Rattle.model.specs.Events.{word_answer};
ghost use Rattle.model.specs.Sets.{to_bits};
ghost use Rattle.model.specs.Listener.{Watch, Tick, Hear, watch_answer, hear_answer, notices_of};
ghost use Rattle.model.specs.Listener.{listener_of, record_of, leaves_record};
ghost use Rattle.call_play.specs.Replay.{PlayedAll, Replayed};
ghost use Rattle.mekvalgs_event.specs.Parts.{numbers, read_parts, parts_answer, write_parts};
ghost use Rattle.mekvalgs.specs.Nodes.{node_of};
ghost use Rattle.mekvalgs.specs.Screens.{screen_in};
ghost use Rattle.mekvalgs.specs.Listeners.{listener_in};

use call_open::open;
use call_reach::Reached;
use call_route::Arrival;
use model::listener::ListenerRecord;
use model::screen::{ConductorScreen, TechnicianScreen};
use model::values::NodeNumber;

// Writes the initial ring of A, B and the keys.
#[unsafe(no_mangle)]
pub extern "C" fn mekvalgs_open(
    words: &mut [u32],
    clockwise: u32,
    counter_clockwise: u32,
    keys: &[u32],
) -> u32
    ensures answer { result
        ≡ (open_buffer words.old
        (table_of (record { ahead = clockwise; behind = counter_clockwise }) keys.now)).answer }
    ensures words { words.new
        ≡ (open_buffer words.old
        (table_of (record { ahead = clockwise; behind = counter_clockwise }) keys.now)).words }
{
    answers::number(open(words, clockwise, counter_clockwise, keys))
}

// Plays an event word.
#[unsafe(no_mangle)]
pub extern "C" fn mekvalgs_play(words: &mut [u32], word: u32) -> u32
    ensures answer { result ≡ (play_buffer words.old word).answer }
    ensures words { words.new ≡ (play_buffer words.old word).words }
{
    answers::number(call_play::play(words, word))
}

// What an event word would leave, in the second buffer; nothing is played.
#[unsafe(no_mangle)]
pub extern "C" fn mekvalgs_preview(words: &[u32], word: u32, preview: &mut [u32]) -> u32
    ensures preview { record { answer = result; words = preview.new }
        ≡ preview_buffer words.now word preview.old }
    ensures ring { words.now ≡ words.now }
{
    answers::number(call_preview::preview(words, word, preview))
}

// The join of two rings, in the third buffer.
#[unsafe(no_mangle)]
pub extern "C" fn mekvalgs_join(first: &[u32], second: &[u32], joined: &mut [u32]) -> u32
    ensures joined { record { answer = result; words = joined.new }
        ≡ join_buffer first.now second.now joined.old }
    ensures sources { (first.now ≡ first.now) × (second.now ≡ second.now) }
{
    answers::number(call_join::join(first, second, joined))
}

// The short edition of a ring, in the lent place.
#[unsafe(no_mangle)]
pub extern "C" fn mekvalgs_shorten(words: &[u32], edition: &mut [u32], written: &mut u32) -> u32
    ensures edition { record { answer = result; length = written.new; place = edition.new }
        ≡ shorten_buffer words.now edition.old }
    ensures ring { words.now ≡ words.now }
{
    let shortened = call_short::shorten(words, edition);
    *written = shortened.unwrap_or(0);
    answers::number(shortened)
}

// The ring of a short edition.
#[unsafe(no_mangle)]
pub extern "C" fn mekvalgs_lengthen(edition: &[u32], words: &mut [u32]) -> u32
    ensures words { record { answer = result; words = words.new }
        ≡ lengthen_buffer edition.now words.old }
    ensures edition { edition.now ≡ edition.now }
{
    answers::number(call_short::lengthen(edition, words))
}

// Plays the script on the ring; the answers' numbers, as far as there are places for them.
#[unsafe(no_mangle)]
pub extern "C" fn mekvalgs_play_all(words: &mut [u32], script: &[u32], answers: &mut [u8]) -> u32
    ensures played { PlayedAll words.old script.now answers.old result
        words.new answers.new }
{
    answers::number(call_play::play_all(words, script, answers))
}

// Opens a ring and plays the script on it; the answers' numbers, as far as there are places for them.
#[unsafe(no_mangle)]
pub extern "C" fn mekvalgs_replay(
    words: &mut [u32],
    clockwise: u32,
    counter_clockwise: u32,
    keys: &[u32],
    script: &[u32],
    answers: &mut [u8],
) -> u32
    ensures replayed { Replayed words.old
        (table_of (record { ahead = clockwise; behind = counter_clockwise }) keys.now)
        script.now answers.old result words.new answers.new }
{
    answers::number(call_play::replay(words, clockwise, counter_clockwise, keys, script, answers))
}

// The leafset of node x in its held set.
#[unsafe(no_mangle)]
pub extern "C" fn mekvalgs_leafset(words: &[u32], x: u32, set: &mut u64) -> u32
    ensures answer { result ≡ leafset_answer words.now x }
    ensures set { set.new ≡ leafset_of words.now x }
{
    let asked = call_questions::leafset_of(words, node(x));
    *set = asked.unwrap_or(0);
    answers::number(asked)
}

// Whether a and b are connected: 1, or 0.
#[unsafe(no_mangle)]
pub extern "C" fn mekvalgs_connected(words: &[u32], a: u32, b: u32, connected: &mut u32) -> u32
    ensures answer { result ≡ connection_answer words.now a b }
    ensures connected { connected.new ≡ bit (connection_of words.now a b) }
    ensures yes { result ≡ 0 → connected.new ≡ 1 → Connected (decode words.now) a b }
    ensures no { result ≡ 0 → connected.new ≡ 0 → Connected (decode words.now) a b → ⊥ }
{
    let asked = call_questions::connected(words, node(a), node(b));
    *connected = u32::from(asked.unwrap_or(false));
    answers::number(asked)
}

// The number of groups.
#[unsafe(no_mangle)]
pub extern "C" fn mekvalgs_groups(words: &[u32], groups: &mut u32) -> u32
    ensures answer { result ≡ ring_answer words.now }
    ensures groups { groups.new ≡ groups_of words.now }
{
    let asked = call_questions::groups(words);
    *groups = asked.unwrap_or(0);
    answers::number(asked)
}

// The route from a running node to the key, into the list.
#[unsafe(no_mangle)]
pub extern "C" fn mekvalgs_route(
    words: &[u32],
    start: u32,
    key: u32,
    route: &mut [u8],
    end: &mut u32,
    hops: &mut u32,
) -> u32
    ensures routed { record {
      answer = result;
      end = end.new;
      hops = hops.new;
      list = route.new;
    } ≡ route_buffer words.now start key route.old }
{
    let routed = call_route::route(words, node(start), key, route);
    let last = routed.unwrap_or(Arrival {
        end: NodeNumber::NONE,
        hops: 0,
    });
    *end = u32::from(last.end.0);
    *hops = last.hops;
    answers::number(routed)
}

// The reach from a running node to the owner of the key.
#[unsafe(no_mangle)]
pub extern "C" fn mekvalgs_reach(
    words: &[u32],
    start: u32,
    key: u32,
    end: &mut u32,
    hops: &mut u32,
) -> u32
    ensures reached { record { answer = result; end = end.new; hops = hops.new }
        ≡ reach_of words.now start key }
{
    let reached = call_reach::reach(words, node(start), key);
    let last = reached.unwrap_or(Reached {
        end: NodeNumber::NONE,
        hops: 0,
    });
    *end = u32::from(last.end.0);
    *hops = last.hops;
    answers::number(reached)
}

// The conductor's screen.
#[unsafe(no_mangle)]
pub extern "C" fn mekvalgs_conductor(
    words: &[u32],
    clockwise: &mut u32,
    counter_clockwise: &mut u32,
    nodes: &mut u32,
    running: &mut u64,
    keys: &mut [u32; 64],
    leafsets: &mut [u64; 64],
) -> u32
    ensures answer { result ≡ ring_answer words.now }
    ensures screen { screen_in clockwise.new counter_clockwise.new nodes.new
        running.new keys.new leafsets.new ≡ conductor_of words.now }
{
    let shown = call_screens::conductor(words);
    let screen = shown.unwrap_or(call_screens::empty_conductor());
    put_screen(
        screen,
        clockwise,
        counter_clockwise,
        nodes,
        running,
        keys,
        leafsets,
    );
    answers::number(shown)
}

// The technician's screen, but for the messages.
#[unsafe(no_mangle)]
pub extern "C" fn mekvalgs_technician(
    words: &[u32],
    clockwise: &mut u32,
    counter_clockwise: &mut u32,
    nodes: &mut u32,
    running: &mut u64,
    keys: &mut [u32; 64],
    leafsets: &mut [u64; 64],
    candidates: &mut [u64; 64],
    stamps: &mut [u32; 4096],
    spares: &mut [u8; 4096],
) -> u32
    ensures answer { result ≡ ring_answer words.now }
    ensures shown { (record {
      conductor = screen_in clockwise.new counter_clockwise.new nodes.new
          running.new keys.new leafsets.new;
      candidates = candidates.new;
    } ≡ technician_of words.now)
        × (stamps.new ≡ stamps_of words.now)
        × (spares.new ≡ spares_of words.now) }
{
    let shown = call_screens::technician(words, stamps, spares);
    let screen = shown.unwrap_or(TechnicianScreen {
        conductor: call_screens::empty_conductor(),
        candidates: [0; 64],
    });
    put_screen(
        screen.conductor,
        clockwise,
        counter_clockwise,
        nodes,
        running,
        keys,
        leafsets,
    );
    let screen_candidates = screen.candidates;
    *candidates = screen_candidates;
    answers::number(shown)
}

// How many words the messages in flight have.
#[unsafe(no_mangle)]
pub extern "C" fn mekvalgs_messages(words: &[u32]) -> u64
    ensures length { result ≡ length (messages_of words.now) }
{
    call_screens::messages(words).len() as u64
}

fn put_screen(
    screen: ConductorScreen,
    clockwise: &mut u32,
    counter_clockwise: &mut u32,
    nodes: &mut u32,
    running: &mut u64,
    keys: &mut [u32; 64],
    leafsets: &mut [u64; 64],
)
    ensures value { screen_in clockwise.new counter_clockwise.new nodes.new
        running.new keys.new leafsets.new ≡ screen }
{
    let sides = screen.sides;
    *clockwise = sides.ahead;
    *counter_clockwise = sides.behind;
    *nodes = screen.nodes;
    *running = screen.running;
    let screen_keys = screen.keys;
    let screen_leafsets = screen.leafsets;
    *keys = screen_keys;
    *leafsets = screen_leafsets;
}

// The event of a word as three numbers, its kind first.
#[unsafe(no_mangle)]
pub extern "C" fn mekvalgs_read_event(
    word: u32,
    kind: &mut u32,
    first: &mut u32,
    second: &mut u32,
) -> u32
    ensures answer { result ≡ word_answer word }
    ensures parts { numbers kind.new first.new second.new ≡ read_parts word }
{
    let read = mekvalgs_event::read(word);
    let p = read.unwrap_or(mekvalgs_event::make(0, 0, 0));
    *kind = p.kind;
    *first = p.first;
    *second = p.second;
    answers::number(read)
}

// The word of the event with these three numbers.
#[unsafe(no_mangle)]
pub extern "C" fn mekvalgs_write_event(kind: u32, first: u32, second: u32, word: &mut u32) -> u32
    ensures answer { result ≡ parts_answer (numbers kind first second) }
    ensures word { word.new ≡ write_parts (numbers kind first second) }
{
    let written = mekvalgs_event::write(mekvalgs_event::make(kind, first, second));
    *word = written.unwrap_or(0);
    answers::number(written)
}

// Watches node x.
#[unsafe(no_mangle)]
pub extern "C" fn mekvalgs_watch(
    watched: &mut u64,
    silences: &mut [u8; 64],
    windows: &mut [u8; 64],
    x: u32,
) -> u32
    ensures answer { result ≡ watch_answer x }
    ensures listener { listener_in watched.new silences.new windows.new
        ≡ leaves_record (listener_in watched.old silences.old windows.old) (Watch x) }
{
    let mut listener = lent(*watched, *silences, *windows);
    let answer = listener::watch(&mut listener, node(x));
    *watched = listener.watched;
    put_counts(listener, silences, windows);
    answers::number(answer)
}

// A tick: the notices, bit s for node s.
#[unsafe(no_mangle)]
pub extern "C" fn mekvalgs_tick(watched: u64, silences: &mut [u8; 64], windows: &[u8; 64]) -> u64
    ensures notices { result ≡ to_bits 64
        (notices_of (listener_of (listener_in watched silences.old windows.now)) Tick) }
    ensures listener { listener_in watched silences.new windows.now
        ≡ leaves_record (listener_in watched silences.old windows.now) Tick }
{
    let mut listener = lent(watched, *silences, *windows);
    let notices = listener::tick(&mut listener);
    let left_silences = listener.silences;
    *silences = left_silences;
    notices
}

// Hears node x.
#[unsafe(no_mangle)]
pub extern "C" fn mekvalgs_hear(
    watched: u64,
    silences: &mut [u8; 64],
    windows: &mut [u8; 64],
    x: u32,
) -> u32
    ensures answer { result
        ≡ hear_answer (listener_of (listener_in watched silences.old windows.old)) x }
    ensures listener { listener_in watched silences.new windows.new
        ≡ leaves_record (listener_in watched silences.old windows.old) (Hear x) }
{
    let mut listener = lent(watched, *silences, *windows);
    let answer = listener::hear(&mut listener, node(x));
    put_counts(listener, silences, windows);
    answers::number(answer)
}

fn lent(watched: u64, silences: [u8; 64], windows: [u8; 64]) -> ListenerRecord
    ensures value { result ≡ listener_in watched silences windows }
    ensures whole { result ≡ record_of (listener_of result) }
{
    ListenerRecord {
        watched,
        silences,
        windows,
    }
}

fn put_counts(listener: ListenerRecord, silences: &mut [u8; 64], windows: &mut [u8; 64])
    ensures value { listener_in listener.watched silences.new windows.new ≡ listener }
{
    let left_silences = listener.silences;
    let left_windows = listener.windows;
    *silences = left_silences;
    *windows = left_windows;
}

// The node of a number that may be too big for one: then 64, which is no node either.
fn node(x: u32) -> NodeNumber
    ensures value { result.0 ≡ node_of x }
{
    if x < 64 {
        NodeNumber(x as u8)
    } else {
        NodeNumber::NONE
    }
}
