// The chunks of a script, from an open file.
ghost use Rattle.std.specs.Prelude.{◌≡◌, ◌^◌, ◌<◌, length, take, IfOk, OnErr};
ghost use Rattle.std.specs.Io.KnownBytes.{Consumes, IsAtEnd};
ghost use Rattle.io.specs.Counts.{IsPrefixLen};
ghost use Rattle.audit_session.specs.Turns.{audit_turn};
ghost use Rattle.audit_session.specs.Sessions.{standing_of, Ready, Stepped};

use super::step;
use super::turn::Session;
use std::io;
use std::io::Read;

// How many bytes were read, and the session after they were audited.
#[derive(Clone, Copy)]
pub struct NextAudited {
    pub read: usize,
    pub session: Session,
}

// Reads the next chunk to the start of `bytes`, and audits just as many bytes as were read. What it prints is at the
// start of `out`. The bytes are the file's next ones, and fewer than a chunk are its last. An error is one of reading,
// before anything is audited.
pub fn audit_next<R: Read>(
    file: &mut R,
    session: Session,
    bytes: &mut [u8],
    words: &mut [u32],
    out: &mut [u8],
) -> io::Result<NextAudited>
    requires session { Ready (2 ^ 63) session words.old }
    requires room { (length bytes.old ≡ 4096) × (length out.old ≡ 3000000) }
    ensures turn { IfOk result (λ next. Stepped
        (audit_turn session.opened
        (standing_of words.old session.log)
        (take next.read bytes.new))
        words.new out.old out.new
        next.session) }
    ensures counts { IfOk result (λ next. IsPrefixLen next.read bytes.new × IsPrefixLen next.session.end out.new) }
    ensures bytes { IfOk result (λ next. Consumes (R.remaining file.old) (R.remaining file.new)
        (take next.read bytes.new)) }
    ensures last { IfOk result (λ next. next.read < 4096 → IsAtEnd (R.remaining file.new)) }
    ensures err { OnErr result ((words.new ≡ words.old) × (out.new ≡ out.old)) }
{
    let read = streams::read_full(file, bytes)?;
    let session = step(session, &bytes[..read], words, out);
    Ok(NextAudited { read, session })
}
