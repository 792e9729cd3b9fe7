// Reads and writes that wait for the other end. A call that was interrupted, or found the other end not ready, is tried again after a
// short sleep.
ghost use Rattle.std.specs.Prelude.{◌≡◌, ◌<◌, length, take, IfOk, OnOk, OnErr};
ghost use Rattle.std.specs.Io.{ReadsAtMost};
ghost use Rattle.std.specs.Io.KnownBytes.{Appends, Consumes, IsAtEnd, ReadConsumes};
ghost use Rattle.streams.specs.Fronts.{AppendsFront};

use std::io::{ErrorKind, Read, Write};
use std::time::{Clock, Duration};
use std::{io, thread};

/// Why a whole was not written.
#[derive(Debug, Drop)]
pub enum WriteError {
    /// A write failed.
    Failed(io::Error),
    /// A write took no byte, and did not fail.
    NoByte,
}

/// Why an input was not read whole.
#[derive(Debug, Drop)]
pub enum ReadError {
    /// A read failed.
    Failed(io::Error),
    /// The input fills the room, which has a byte more than is taken.
    TooLong,
}

impl From<io::Error> for ReadError {
    ghost use Rattle.streams.specs.declared.waiting.ReadError.TheVariants.{Failed};

    ghost from_gives = { λ error e. e ≡ Failed error };

    fn from(error: io::Error) -> ReadError {
        ReadError::Failed(error)
    }
}

// Sleeps for a millisecond.
fn pause(clock: &impl Clock) {
    thread::sleep(clock, Duration::from_millis(1));
}

// Whether a call that failed may succeed when it is tried again.
fn is_passing(error: &io::Error) -> bool {
    matches!(error.kind(), ErrorKind::Interrupted | ErrorKind::WouldBlock)
}

/// Reads once, and waits where it has to. The count is 0 at the end of the input alone, or where there is no room.
pub fn read_some<R: Read>(clock: &impl Clock, from: &mut R, buf: &mut [u8]) -> io::Result<usize>
    ensures bound { ReadsAtMost result buf.new }
    ensures bytes { ReadConsumes (R.remaining from.old) (R.remaining from.new) result buf.new }
{
    for _ in 0..u64::MAX {
        match from.read(buf) {
            Err(error) if is_passing(&error) => pause(clock),
            done => return done,
        }
    }
    from.read(buf)
}

/// Reads to the end of the input, to the front of the room, and returns how many bytes that are.
pub fn read_whole<R: Read>(
    clock: &impl Clock,
    from: &mut R,
    room: &mut [u8],
) -> Result<usize, ReadError>
    ensures fits { IfOk result (λ n. n < length room.new) }
    ensures bytes { IfOk result (λ n. Consumes (R.remaining from.old) (R.remaining from.new) (take n room.new)) }
    ensures end { OnOk result (IsAtEnd (R.remaining from.new)) }
{
    let mut have = 0;
    while have < room.len() {
        let n = read_some(clock, from, &mut room[have..])?;
        if n == 0 {
            return Ok(have);
        }
        have += n;
    }
    Err(ReadError::TooLong)
}

/// Writes all of the bytes. After a write that fails nothing more is written, so what went out is a front of the whole; and so after one
/// that takes no byte and does not fail.
pub fn write_whole<W: Write>(clock: &impl Clock, to: &mut W, bytes: &[u8]) -> Result<(), WriteError>
    ensures ok { OnOk result (Appends (W.contents to.old) (W.contents to.new) bytes.now) }
    ensures err { OnErr result (AppendsFront (W.contents to.old) (W.contents to.new) bytes.now) }
{
    let mut rest = bytes;
    for _ in 0..u64::MAX {
        if rest.is_empty() {
            return Ok(());
        }
        match to.write(rest) {
            Ok(0) => return Err(WriteError::NoByte),
            Ok(taken) => rest = &rest[taken..],
            Err(error) if is_passing(&error) => pause(clock),
            Err(error) => return Err(WriteError::Failed(error)),
        }
    }
    Err(WriteError::Failed(io::Error::from(ErrorKind::TimedOut)))
}
