// The files that arguments name. The system gets a name as it was given; it is shown with no byte that would end the line, or move about
// on the terminal.
use arrayvec::ArrayVec;
use std::fs::File;
use std::io;
use streams::{Argument, ReadError};
use text::writing::{put_bytes, put_number};

/// Why a file is not read.
#[derive(Drop)]
pub enum Unread {
    /// The name is longer than those that are taken: a path that is longer names no file.
    LongName,
    /// The name is not in UTF-8: the library opens no file of such a name.
    NotUtf8,
    Failed(io::Error),
    LongPage,
}

impl From<io::Error> for Unread {
    fn from(error: io::Error) -> Unread {
        Unread::Failed(error)
    }
}

impl From<ReadError> for Unread {
    fn from(error: ReadError) -> Unread {
        match error {
            ReadError::Failed(error) => Unread::Failed(error),
            ReadError::TooLong => Unread::LongPage,
        }
    }
}

/// The file that an argument names. Callers know that the argument is there, so it can only be too long. Its name is taken where it is
/// used: kept beside the buffers, it would be room on the stack all the while.
#[derive(Clone, Copy)]
pub struct Source {
    pub argument: usize,
}

impl Source {
    /// The name as it is shown; of one that is too long, which argument it is.
    pub fn name(self, rt: &HostRuntime) -> Argument {
        match Argument::take(rt, self.argument) {
            Some(name) => name.into_shown(),
            None => place_of(self.argument),
        }
    }

    pub fn open(self, rt: &HostRuntime) -> Result<File, Unread> {
        let Some(name) = Argument::take(rt, self.argument) else {
            return Err(Unread::LongName);
        };
        let Ok(path) = str::from_utf8(name.as_slice()) else {
            return Err(Unread::NotUtf8);
        };
        Ok(File::open(rt, path)?)
    }
}

// Which argument it is.
#[tactic(auto, using(text::proofs::Laws::all_digits))]
fn place_of(i: usize) -> Argument {
    let mut place = ArrayVec::<u8, 29>::new();
    put_bytes(&mut place, b"argument ");
    put_number(&mut place, i as u64);
    Argument::from_slice(place.as_slice())
}
