// The two files, read whole.
ghost use Rattle.std.specs.Prelude.{◌<◌, length, IfOk};
ghost use Rattle.desk.specs.Inner.{BothFit};

use super::refusing::{Reason, refuse};
use std::fs::File;
use streams::{Argument, Stopped};

/// A file has at most 1,048,576 bytes. The room for one has a byte more: a file that fills it is longer.
pub const ROOM: usize = 1048577;

/// The files' bytes.
#[derive(Drop)]
pub struct Both<'a> {
    pub original: &'a [u8],
    pub copy: &'a [u8],
}

// Reads the file of this name to the front of the room.
fn read_file(rt: &HostRuntime, name: &Argument, room: &mut [u8]) -> Result<usize, Reason>
    ensures { IfOk result (λ n. n < length room.new) }
{
    let Ok(path) = str::from_utf8(name.as_slice()) else {
        return Err(Reason::NotUtf8);
    };
    let mut file = File::open(rt, path)?;
    Ok(streams::read_whole(rt, &mut file, room)?)
}

// Reads the file that argument i names to the front of the room.
fn read_argument(
    rt: &HostRuntime,
    i: usize,
    called: &str,
    room: &mut [u8],
) -> Result<usize, Stopped>
    ensures { IfOk result (λ n. n < length room.new) }
{
    let name = take_argument(rt, i, called)?;
    match read_file(rt, &name, room) {
        Ok(n) => Ok(n),
        Err(reason) => Err(refuse(rt, name.as_slice(), &reason)),
    }
}

/// Takes argument i. Callers know that it is there, so it can only be too long. Then it is not shown, but what it is called in the usage
/// line.
pub fn take_argument(rt: &HostRuntime, i: usize, called: &str) -> Result<Argument, Stopped> {
    match Argument::take(rt, i) {
        Some(argument) => Ok(argument),
        None => Err(refuse(rt, called.as_bytes(), &Reason::ArgumentTooLong)),
    }
}

/// Reads the files that the first two arguments name.
pub fn read_both<'a>(
    rt: &HostRuntime,
    original: &'a mut [u8],
    copy: &'a mut [u8],
) -> Result<Both<'a>, Stopped>
    ensures { IfOk result (BothFit original.old copy.old) }
{
    let n = read_argument(rt, 1, "ORIGINAL", original)?;
    let m = read_argument(rt, 2, "COPY", copy)?;
    Ok(Both {
        original: &original[..n],
        copy: &copy[..m],
    })
}
