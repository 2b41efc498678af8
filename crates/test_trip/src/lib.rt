// A script described, and its text assembled: whether the bytes of the script come back. For test programs.
#![tactic(auto)]

ghost use Rattle.std.specs.Prelude.{◌≡◌, ◌+◌, ◌^◌, ◌≤◌, length};
ghost use Rattle.text_assemble.specs.Chunks.{KeysBounded};
ghost use Rattle.test_trip.specs.Trips.{Ready};

use text_assemble::chunk;
use text_assemble::chunk::ChunkRead;
use text_describe::Session;
use text_form::Reader;

// Room for a script.
pub const SCRIPT: usize = 16_384;

// Chunks of it, and one more: after whole chunks comes an empty one, which `chunks` does not give.
const CHUNKS: u64 = 5;

// How far a trip has come: the reader of the text, and the bytes of the script that are not back yet; None once bytes
// came that are not the script's.
#[derive(Clone, Copy)]
struct Trip<'a> {
    reader: Reader,
    rest: Option<&'a [u8]>,
}

// The trip after the text gave what stands at the start of `out`.
fn matched<'a>(trip: Trip<'a>, read: ChunkRead, out: &[u8]) -> Trip<'a>
    requires within { read.end ≤ length out.now }
    ensures reader { result.reader ≡ read.reader }
{
    let back = &out[..read.end];
    Trip {
        reader: read.reader,
        rest: trip.rest.and_then(|rest| rest.strip_prefix(back)),
    }
}

// The trip after a piece of the text.
fn piece<'a>(trip: Trip<'a>, text: &[u8], keys: &mut [u32], out: &mut [u8]) -> Trip<'a>
    requires ready { Ready (2 ^ 63) trip.reader keys.old out.old × (length text.now ≤ 1024) }
    ensures ready { Ready (trip.entry.reader.line + length text.now) result.reader
        keys.new out.new }
{
    let read = chunk::read_chunk(trip.reader, text, keys, out);
    matched(trip, read, out)
}

// The trip after the text that a chunk of the script gave.
fn pieces<'a>(trip: Trip<'a>, text: &[u8], keys: &mut [u32], out: &mut [u8]) -> Trip<'a>
    requires ready { Ready (2 ^ 62) trip.reader keys.old out.old × (length text.now ≤ 20000) }
    ensures ready { Ready (trip.entry.reader.line + length text.now) result.reader
        keys.new out.new }
{
    let mut after = trip;
    for part in text.chunks(ChunkRead::CHUNK) {
        after = piece(after, part, keys, out);
    }
    after
}

// The end of the trip: whether just the script is back.
fn ends(trip: Trip, keys: &mut [u32], out: &mut [u8]) -> bool
    requires ready { Ready (2 ^ 63) trip.reader keys.old out.old }
    ensures buffers { KeysBounded keys.new × (length out.new ≡ 266240) }
{
    let read = chunk::close(trip.reader, keys, out);
    let last = matched(trip, read, out);
    !last.reader.fault & last.rest.is_some_and(|rest| rest.is_empty())
}

// Whether the text of the script assembles to the script. What the buffers hold does not matter.
pub fn comes_back(script: &[u8], text: &mut [u8], keys: &mut [u32], out: &mut [u8]) -> bool
    requires buffers { (length script.now ≤ 16384) × (length text.old ≡ 20000) × KeysBounded keys.old
        × (length out.old ≡ 266240) }
    ensures buffers { (length text.new ≡ 20000) × KeysBounded keys.new
        × (length out.new ≡ 266240) }
{
    let mut session = Session::new();
    let mut trip = Trip {
        reader: text_reader::start(),
        rest: Some(script),
    };
    let mut at = 0;
    for _ in 0..CHUNKS {
        let end = script.len().min(at + Session::CHUNK);
        session = text_describe::step(session, &script[at..end], text);
        trip = pieces(trip, &text[..session.end], keys, out);
        if !session.more {
            return ends(trip, keys, out);
        }
        at = end;
    }
    false
}
