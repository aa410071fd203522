//! Reading an input to its end: of what was read the front is kept, and of a read that failed its reason.
ghost use Rattle.std.specs.Prelude.{◌≡◌, ◌<◌, ◌≤◌, IfOk, IfErr, OnOk, None, Some};
ghost use Rattle.std.specs.Io.{ReadsAtMost};
ghost use Rattle.std.specs.Io.KnownBytes.{ReadConsumes};
ghost use Rattle.outcome.specs.Reading.{Kept};

use station::input::{Input, read_whole};
use std::io;
use std::io::{Error, ErrorKind, Read};

/// A reader, and why its last failed read failed.
#[derive(Drop)]
pub struct Noting<R> {
    from: R,
    why: Option<Error>,
}

impl<R: Read> Noting<R> {
    /// Before the first read.
    pub fn new(from: R) -> Noting<R>
        ensures from { result.from ≡ from }
        ensures why { result.why ≡ None }
    {
        Noting { from, why: None }
    }

    /// Why a read failed, if one did.
    pub fn why(&self) -> Option<Error>
        ensures { result ≡ self.now.why }
    {
        self.why
    }
}

impl<R: Read> Read for Noting<R> {
    ghost remaining = { λ s. R.remaining s.from };

    fn read(&mut self, buf: &mut [u8]) -> io::Result<usize>
        ensures bound { ReadsAtMost result buf.new }
        ensures bytes { ReadConsumes (R.remaining self.old.from) (R.remaining self.new.from) result buf.new }
        ensures kept { OnOk result (self.new.why ≡ self.old.why) }
        ensures noted { IfErr result (λ e. self.new.why ≡ Some e) }
    {
        match self.from.read(buf) {
            Ok(n) => Ok(n),
            Err(e) => {
                self.why = Some(e);
                Err(e)
            }
        }
    }
}

/// Reads to the end, and keeps the front; or answers why a read failed, as the reader has noted it.
pub fn read_kept<R: Read, const CHUNK: usize>(
    from: &mut Noting<R>,
    buffer: &mut [u8],
) -> Result<Input, Error>
    requires { (0 < CHUNK) × (CHUNK ≤ 65536) }
    ensures ok { IfOk result (λ input. Kept (R.remaining from.old.from) (R.remaining from.new.from) buffer.new input) }
    ensures err { IfErr result (λ e. from.new.why ≡ Some e) }
{
    let input = read_whole::<_, CHUNK>(from, buffer);
    if !input.failed {
        return Ok(input);
    }
    // No read failed where there are more bytes than a `usize` counts.
    let why = from.why.unwrap_or(Error::from(ErrorKind::FileTooLarge));
    from.why = Some(why);
    Err(why)
}
