// One line on standard error, where nothing is printed.
use arrayvec::ArrayVec;
use std::io::Write;
use std::{fmt, io};
use streams::{LONGEST_ARGUMENT, ReadError, Stopped};

// The bytes of `desk: `, of the longest name, and of what is said of it.
const LINE: usize = 6 + LONGEST_ARGUMENT + 64;

/// What is wrong with an argument, or with the file that it names.
#[derive(Drop)]
pub enum Reason {
    ArgumentTooLong,
    NotANumber,
    /// The library opens names in UTF-8 alone.
    NotUtf8,
    FileTooLong,
    /// In the system's words.
    Failed(io::Error),
}

impl From<io::Error> for Reason {
    fn from(error: io::Error) -> Reason {
        Reason::Failed(error)
    }
}

impl From<ReadError> for Reason {
    fn from(error: ReadError) -> Reason {
        match error {
            ReadError::Failed(error) => Reason::Failed(error),
            ReadError::TooLong => Reason::FileTooLong,
        }
    }
}

impl fmt::Display for Reason {
    fn fmt<W: fmt::Write>(&self, f: &mut fmt::Formatter<W>) -> fmt::Result {
        match self {
            Reason::ArgumentTooLong => f.write_str("longer than 4095 bytes"),
            Reason::NotANumber => {
                f.write_str("not a number of 1 to 19 digits without leading zeros")
            }
            Reason::NotUtf8 => f.write_str("cannot be opened: the name is not in UTF-8"),
            Reason::FileTooLong => f.write_str("longer than 1048576 bytes"),
            Reason::Failed(error) => write!(f, "{error}"),
        }
    }
}

/// Says what is wrong with what this names, in one write; why a call of the system failed, in a second.
pub fn refuse(rt: &HostRuntime, name: &[u8], reason: &Reason) -> Stopped {
    let mut line = ArrayVec::<u8, LINE>::new();
    let _ = line.write_all(b"desk: ");
    for b in name {
        let _ = line.write_all(&[streams::shown(*b)]);
    }
    match reason {
        Reason::Failed(error) => {
            let _ = rt.stderr().write_all(line.as_slice());
            streams::say_why(rt, &"", error);
        }
        other => {
            let _ = writeln!(line, ": {other}");
            let _ = rt.stderr().write_all(line.as_slice());
        }
    }
    Stopped
}

/// Says why nothing is printed, or nothing more.
pub fn stop(rt: &HostRuntime, why: &str) -> Stopped {
    let _ = eprintln!(rt; "desk: {why}");
    Stopped
}
