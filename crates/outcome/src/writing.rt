//! Writing a text whole, or nothing.
ghost use Rattle.std.specs.Prelude.{◌≡◌, ◌≤◌, IfOk, OnErr, MatchResult, length, take};
ghost use Rattle.std.specs.Io.KnownBytes.{Appends, Keeps};
ghost use Rattle.outcome.specs.Made.{Made, made};
ghost use Rattle.outcome.specs.Outcome.{Left, Ended, NotMade};

use crate::output::Output;
use crate::{Outcome, Unmade, What};
use std::io::{Error, ErrorKind, Write};
use std::rt::Clock;
use std::thread;
use std::time::Duration;

// How many milliseconds a writer is waited for that takes nothing now.
const WAIT: u64 = 5;

// Writes what a writer takes of the bytes at once, and answers how many; none where it would block or a signal came.
fn write_some<C: Clock, W: Write>(clock: &C, out: &mut W, bytes: &[u8]) -> Result<usize, Error>
    ensures some { IfOk result (λ n. (n ≤ length bytes.now) × Appends (W.contents out.old) (W.contents out.new) (take n bytes.now)) }
    ensures none { OnErr result (Keeps (W.contents out.old) (W.contents out.new)) }
{
    match out.write(bytes) {
        Ok(0) if !bytes.is_empty() => Err(Error::from(ErrorKind::WriteZero)),
        Ok(n) => Ok(n),
        Err(e) => match e.kind() {
            ErrorKind::WouldBlock => {
                thread::sleep(clock, Duration::from_millis(WAIT));
                Ok(0)
            }
            ErrorKind::Interrupted => Ok(0),
            _ => Err(e),
        },
    }
}

/// Writes all bytes, or as many of the first as the writer took before it failed. A writer that can take none now is waited for. One write
/// is made of no bytes too: an output that is closed fails.
pub fn write_whole<C: Clock, W: Write>(clock: &C, out: &mut W, bytes: &[u8]) -> Result<(), Error>
    ensures { Left (W.contents out.old) (W.contents out.new) bytes.now result }
{
    let mut rest = bytes;
    for _ in 0..u64::MAX {
        let n = write_some(clock, out, rest)?;
        rest = &rest[n..];
        if rest.is_empty() {
            return Ok(());
        }
    }
    Err(Error::from(ErrorKind::TimedOut))
}

/// Puts a text that was made, and nothing where there is none.
pub fn finish<O: Output>(out: &mut O, text: Result<&[u8], Unmade>) -> Outcome
    ensures { (m : Made) → MatchResult text.entry (λ s. m ≡ made s.now) (NotMade m) → Ended m (λ s r. O.puts out.old out.new s r) (out.new ≡ out.old) result }
{
    match text {
        Ok(text) => match out.put(text) {
            Ok(()) => Outcome::Accepted,
            Err(e) => Outcome::Failed(What::Write, None, e),
        },
        Err(Unmade::Stopped(stop)) => Outcome::Stopped(stop),
        Err(Unmade::NoMemory) => Outcome::NoMemory,
    }
}
