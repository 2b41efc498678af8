// The text of a script on standard input, its words on standard output. At a fault, its line on standard error, and no
// word: the words wait in a temporary file until the text is read to its end.
#![tactic(auto)]

ghost use Rattle.std.specs.Prelude.{◌≡◌, ◌+◌, ◌^◌, ◌<◌, length};
ghost use Rattle.text_reader.specs.Bounds.{ReaderBounded};
ghost use Rattle.text_assemble.specs.Chunks.{KeysBounded};

use anyhow::{Context, Result};
use std::fs::OpenOptions;
use std::io::{ErrorKind, Read, Seek, Write};
use std::os::unix::fs::OpenOptionsExt;
use std::rt::Files;
use std::{fs, io, process};
use text_assemble::chunk::ChunkRead;
use text_assemble::{chunk, fault};
use text_form::Reader;

// More chunks than any text has.
const MOST: u64 = 0x1000_0000_0000;

// The most names that are tried for the temporary file.
const NAMES: u32 = 100_000;

// The end of a text: its words are written to the temporary file. The reader at the end of the text, or at its fault.
fn spool_end<F: Write>(
    file: &mut F,
    reader: Reader,
    keys: &mut [u32],
    out: &mut [u8],
) -> Result<Reader>
    requires ready { ReaderBounded reader × KeysBounded keys.old × (reader.line + 1 < 2 ^ 64)
        × (length out.old ≡ 266240) }
{
    let last = chunk::close(reader, keys, out);
    file.write_all(&out[..last.end])
        .context("the temporary file")?;
    Ok(last.reader)
}

// Reads chunk after chunk, and writes the words of each.
fn spool_text<R: Read, F: Write>(
    input: &mut R,
    file: &mut F,
    bytes: &mut [u8],
    keys: &mut [u32],
    out: &mut [u8],
) -> Result<Reader>
    requires ready { KeysBounded keys.old × (length bytes.old ≡ 1024) × (length out.old ≡ 266240) }
{
    let mut reader = text_reader::start();
    for _ in 0..MOST {
        let next = chunk::read_next(input, reader, bytes, keys, out).context("standard input")?;
        reader = next.reader;
        file.write_all(&out[..next.end])
            .context("the temporary file")?;
        if (next.read < ChunkRead::CHUNK) | reader.fault {
            return spool_end(file, reader, keys, out);
        }
    }
    spool_end(file, reader, keys, out)
}

// Copies the file from its start to standard output.
fn print<F: Read + Seek, W: Write>(file: &mut F, output: &mut W) -> Result<()> {
    file.rewind().context("the temporary file")?;
    io::copy(file, output).context("standard output")?;
    Ok(())
}

// What is wrong with the text.
fn print_fault<E: Write>(reader: Reader, errors: &mut E) -> Result<()> {
    let mut line = [0u8; fault::ROOM];
    let end = fault::put_fault(reader, &mut line);
    errors.write_all(&line[..end]).context("standard error")
}

// Assembles the text, with the words in the open temporary file until its end.
fn run<R: Read, F: Read + Write + Seek, W: Write, E: Write>(
    input: &mut R,
    file: &mut F,
    output: &mut W,
    errors: &mut E,
) -> Result<()> {
    let mut bytes = [0u8; ChunkRead::CHUNK];
    let mut keys = [0u32; ChunkRead::KEYS];
    let mut out = [0u8; ChunkRead::ROOM];
    let reader = spool_text(input, file, &mut bytes, &mut keys, &mut out)?;
    if reader.fault {
        return print_fault(reader, errors);
    }
    print(file, output)
}

// Makes a temporary file that has no name any more: a name that no file had, by the number of this process.
fn temporary<R: Files + Alloc>(rt: &R, process: u32) -> io::Result<R::File> {
    let mut options = OpenOptions::new();
    options.read(true).write(true).create_new(true).mode(0o600);
    for n in 0..NAMES {
        let name = format!(in rt.alloc(); "/tmp/mekvalgs.{process}.{n}")?;
        match options.open(rt, name.as_str()) {
            Ok(file) => {
                fs::remove_file(rt, name.as_str())?;
                return Ok(file);
            }
            Err(error) => {
                if error.kind() != ErrorKind::AlreadyExists {
                    return Err(error);
                }
            }
        }
    }
    Err(io::Error::from(ErrorKind::AlreadyExists))
}

fn main(rt: HostRuntime) -> Result<()> {
    let mut file = temporary(&rt, process::id(rt.process())).context("the temporary file")?;
    run(
        &mut rt.stdin(),
        &mut file,
        &mut rt.stdout(),
        &mut rt.stderr(),
    )
}
