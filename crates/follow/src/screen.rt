// What the program shows, on standard output.
ghost use Rattle.std.specs.Prelude.{◌≡◌, [], false, OnOk};
ghost use Rattle.rules.specs.Answers.{number};
ghost use Rattle.streams.specs.Gathered.{waits};

use super::arguments::{Source, Unread};
use rules::Answer;
use std::io;
use std::io::Stdout;
use streams::{Outlet, Output, Stopped};

/// The bytes of the room in which what is shown is put first. The longest is a verdict. A page has at most 8,704 bytes, and no line of one
/// has fewer than 5; so there are at most 1,740 lines of either, and all that is said of them is shorter.
pub const SHOWN: usize = 262144;

// The system's numbers of the errors that have words of their own. The library's kinds are wider.
const ENOENT: i32 = 2;

const EACCES: i32 = 13;

const EISDIR: i32 = 21;

/// The output, and the room in which what is shown is put first.
#[derive(Drop)]
pub struct Screen {
    pub output: Output<Stdout>,
    pub shown: [u8; SHOWN],
}

impl Screen {
    pub fn new(rt: &HostRuntime) -> Screen {
        Screen {
            output: Output::new(Outlet::new(rt, "follow", rt.stdout())),
            shown: [0; SHOWN],
        }
    }

    pub fn rt(&self) -> HostRuntime {
        self.output.outlet.rt
    }

    /// Takes what was put at the front of `shown`, by the answer of the call that put it. That fits its room. Were it not so, this would be
    /// said, and nothing wrong printed.
    pub fn put_shown(&mut self, answer: Answer) -> Result<(), Stopped>
        ensures { OnOk result (number answer ≡ 0) }
    {
        let Answer::Done(many) = answer else {
            return Err(self.stop());
        };
        let n = many as usize;
        if SHOWN < n {
            return Err(self.stop());
        }
        self.output.put(&self.shown[..n])
    }

    // Says so. What waits is given up.
    fn stop(&mut self) -> Stopped
        ensures empty { waits self.new.output ≡ [] }
        ensures closed { self.new.output.outlet.is_open ≡ false }
    {
        let rt = self.rt();
        let _ = eprintln!(rt; "follow: output stopped: it does not fit its room");
        self.output.stop()
    }

    /// The name of a file, and what is said of it.
    pub fn put_of(&mut self, source: Source, what: &[u8]) -> Result<(), Stopped> {
        let name = source.name(&self.rt());
        self.output.put(name.as_slice())?;
        self.output.put(what)
    }

    /// That a file is not read, and why.
    pub fn put_unread(&mut self, source: Source, why: &Unread) -> Result<(), Stopped> {
        if let Unread::LongPage = why {
            return self.put_of(source, b": longer than 65536 bytes\n");
        }
        self.put_of(source, b": cannot be read: ")?;
        match why {
            Unread::LongName => self.output.put(b"the name is longer than 4095 bytes\n"),
            Unread::NotUtf8 => self.output.put(b"the name is not in UTF-8\n"),
            Unread::Failed(error) => self.put_error(error),
            Unread::LongPage => Ok(()),
        }
    }

    // Why a call of the system failed; its number, where it has no words here, and 0 where it has none.
    fn put_error(&mut self, error: &io::Error) -> Result<(), Stopped> {
        match error.raw_os_error().unwrap_or(0) {
            ENOENT => self.output.put(b"no such file\n"),
            EISDIR => self.output.put(b"a directory\n"),
            EACCES => self.output.put(b"no permission\n"),
            number => {
                self.output.put(b"error ")?;
                self.output.put_number(u64::try_from(number).unwrap_or(0))?;
                self.output.put(b"\n")
            }
        }
    }
}
