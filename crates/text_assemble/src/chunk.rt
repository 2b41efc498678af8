// A chunk of a text read, and the end of a text.
ghost use Rattle.std.specs.Prelude.{◌≡◌, ◌+◌, ◌*◌, ◌^◌, ◌<◌, ◌≤◌, length, take, IfOk, OnErr};
ghost use Rattle.std.specs.Io.KnownBytes.{Consumes, IsAtEnd};
ghost use Rattle.io.specs.Counts.{IsPrefixLen};
ghost use Rattle.text_form.specs.Assemble.{byte_read, text_read, given_keys};
ghost use Rattle.text_reader.specs.Bounds.{ReaderBounded, GivenBounded};
ghost use Rattle.text_assemble.specs.Chunks.{KeysBounded, StepPut, progress_of, ended, Reached};

use super::put;
use model::values::NodeNumber;
use std::io;
use std::io::Read;
use text_form::{Reader, Step};
use text_reader::NEWLINE;

// The reader after what was read, and where the bytes end that were put.
#[derive(Clone, Copy)]
pub struct ChunkRead {
    pub reader: Reader,
    pub end: usize,
}

impl ChunkRead {
    // The most bytes of a chunk.
    pub const CHUNK: usize = 1_024;

    // Room for what a chunk gives.
    pub const ROOM: usize = 266_240;

    // The places of the keys.
    pub const KEYS: usize = NodeNumber::NONE.0 as usize;
}

// Puts what a step gives, n keys being there before.
fn put_step(step: Step, n: usize, keys: &mut [u32], out: &mut [u8], at: usize) -> ChunkRead
    requires step { ReaderBounded step.reader × GivenBounded step.given × KeysBounded keys.old
        × (n + length (given_keys step.given) ≤ 64) × (at + 260 ≤ length out.old) }
    ensures put { StepPut step n keys.old keys.new out.old out.new
        at result }
{
    let reader = step.reader;
    let end = put::put_given(step.given, reader.sides, n, keys, out, at);
    ChunkRead { reader, end }
}

// Reads one byte.
fn read_byte(reader: Reader, byte: u8, keys: &mut [u32], out: &mut [u8], at: usize) -> ChunkRead
    requires ready { ReaderBounded reader × (reader.line + 1 < 2 ^ 64) × KeysBounded keys.old
        × (at + 260 ≤ length out.old) }
    ensures put { StepPut (byte_read reader byte) reader.keys keys.old keys.new
        out.old out.new at result }
{
    let step = text_reader::byte_read(reader, byte);
    put_step(step, usize::from(reader.keys), keys, out, at)
}

// Reads a chunk: the keys are at the start of `keys`, and what it gives to the script is put at the start of `out`.
pub fn read_chunk(reader: Reader, bytes: &[u8], keys: &mut [u32], out: &mut [u8]) -> ChunkRead
    requires ready { ReaderBounded reader × KeysBounded keys.old
        × (reader.line + length bytes.now < 2 ^ 64) × (260 * length bytes.now ≤ length out.old) }
    ensures read { Reached (text_read (progress_of reader keys.old) bytes.now) result.reader
        keys.new out.old out.new result.end }
    ensures line { result.reader.line ≤ reader.line + length bytes.now }
{
    let mut read = ChunkRead { reader, end: 0 };
    for byte in bytes {
        read = read_byte(read.reader, *byte, keys, out, read.end);
    }
    read
}

// How many bytes were read, the reader after them, and where the bytes end that were put.
#[derive(Clone, Copy)]
pub struct NextRead {
    pub read: usize,
    pub reader: Reader,
    pub end: usize,
}

// Reads the next chunk of an open file to the start of `bytes`, and just as many bytes as were read. The bytes are the
// file's next ones, and fewer than a chunk are its last. An error is one of reading the file, before anything is read
// of the text.
pub fn read_next<R: Read>(
    file: &mut R,
    reader: Reader,
    bytes: &mut [u8],
    keys: &mut [u32],
    out: &mut [u8],
) -> io::Result<NextRead>
    requires ready { ReaderBounded reader × KeysBounded keys.old × (reader.line + 1024 < 2 ^ 64)
        × (length bytes.old ≡ 1024) × (length out.old ≡ 266240) }
    ensures read { IfOk result (λ next. Reached
        (text_read (progress_of reader keys.old) (take next.read bytes.new)) next.reader
        keys.new out.old out.new next.end) }
    ensures counts { IfOk result (λ next. IsPrefixLen next.read bytes.new × IsPrefixLen next.end out.new
        × (next.reader.line ≤ reader.line + 1024)) }
    ensures bytes { IfOk result (λ next. Consumes (R.remaining file.old) (R.remaining file.new)
        (take next.read bytes.new)) }
    ensures last { IfOk result (λ next. next.read < 1024 → IsAtEnd (R.remaining file.new)) }
    ensures err { OnErr result ((keys.new ≡ keys.old) × (out.new ≡ out.old)) }
{
    let read = streams::read_full(file, bytes)?;
    let chunk = read_chunk(reader, &bytes[..read], keys, out);
    Ok(NextRead {
        read,
        reader: chunk.reader,
        end: chunk.end,
    })
}

// The end of a text: of its last line, and of the whole.
pub fn close(reader: Reader, keys: &mut [u32], out: &mut [u8]) -> ChunkRead
    requires ready { ReaderBounded reader × KeysBounded keys.old × (reader.line + 1 < 2 ^ 64)
        × (520 ≤ length out.old) }
    ensures read { Reached (ended (progress_of reader keys.old)) result.reader keys.new
        out.old out.new result.end }
{
    let line = read_byte(reader, NEWLINE, keys, out, 0);
    let last = line.reader;
    let step = text_reader::closed(last);
    put_step(step, usize::from(last.keys), keys, out, line.end)
}
