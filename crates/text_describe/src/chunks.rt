// The chunks of a script, from an open file.
ghost use Rattle.std.specs.Prelude.{◌≡◌, ◌<◌, length, take, IfOk, OnErr};
ghost use Rattle.std.specs.Io.KnownBytes.{Consumes, IsAtEnd};
ghost use Rattle.io.specs.Counts.{IsPrefixLen};
ghost use Rattle.text_describe.specs.Turns.{turn, Stepped};

use super::{Session, step};
use std::io;
use std::io::Read;

// How many bytes were read, and the session after their text was put.
#[derive(Clone, Copy)]
pub struct NextDescribed {
    pub read: usize,
    pub session: Session,
}

// Reads the next chunk to the start of `bytes`, and puts the text of just as many bytes as were read at the start of
// `out`. The bytes are the file's next ones, and fewer than a chunk are its last. An error is one of reading, before
// any text is put.
pub fn describe_next<R: Read>(
    file: &mut R,
    session: Session,
    bytes: &mut [u8],
    out: &mut [u8],
) -> io::Result<NextDescribed>
    requires room { (length bytes.old ≡ 4096) × (length out.old ≡ 20000) }
    ensures turn { IfOk result (λ next. Stepped
        (turn session.started session.opened (take next.read bytes.new))
        out.old out.new next.session) }
    ensures counts { IfOk result (λ next. IsPrefixLen next.read bytes.new × IsPrefixLen next.session.end out.new) }
    ensures bytes { IfOk result (λ next. Consumes (R.remaining file.old) (R.remaining file.new)
        (take next.read bytes.new)) }
    ensures last { IfOk result (λ next. next.read < 4096 → IsAtEnd (R.remaining file.new)) }
    ensures err { OnErr result (out.new ≡ out.old) }
{
    let read = streams::read_full(file, bytes)?;
    let after = step(session, &bytes[..read], out);
    Ok(NextDescribed {
        read,
        session: after,
    })
}
