// Output that goes out, or is gathered until it does. Once a write has failed nothing is taken any more, so what went out is a front of the
// whole.
ghost use Rattle.std.specs.Prelude.{◌≡◌, ◌+◌, ◌≤◌, ◌++◌, [], true, false, length, OnOk, OnErr, IsErr};
ghost use Rattle.std.specs.Io.KnownBytes.{Appends, Keeps};
ghost use Rattle.text.specs.Text.{decimal};
ghost use Rattle.streams.specs.Fronts.{AppendsFront};

use super::saying::say_why;
use super::waiting::{WriteError, write_whole};
use arrayvec::ArrayVec;
use std::io::Write;

/// The bytes that an `Output` gathers.
pub const SPACE: usize = 65536;

/// The output stopped, and why was said on standard error.
#[derive(Clone, Copy, Debug, PartialEq, Eq)]
pub struct Stopped;

/// Where a program's output goes.
#[derive(Drop)]
pub struct Outlet<W> {
    pub rt: HostRuntime,
    pub program: &'static str,
    pub to: W,
    pub is_open: bool,
}

/// Output that is gathered, and goes out when a piece does not fit any more.
#[derive(Drop)]
pub struct Output<W> {
    pub outlet: Outlet<W>,
    buffer: [u8; SPACE],
    count: usize,
    ghost fits: { count ≤ 65536 },
}

impl<W: Write> Outlet<W> {
    /// The program's name is said with what stops the output.
    pub fn new(rt: &HostRuntime, program: &'static str, to: W) -> Outlet<W>
        ensures to { result.to ≡ to }
        ensures open { result.is_open ≡ true }
    {
        Outlet {
            rt: *rt,
            program,
            to,
            is_open: true,
        }
    }

    /// Lets out all of the bytes; or what of them could be written, and says why not all.
    pub fn write(&mut self, bytes: &[u8]) -> Result<(), Stopped>
        ensures ok { OnOk result (Appends (W.contents self.old.to) (W.contents self.new.to) bytes.now) }
        ensures open { OnOk result (self.new.is_open ≡ true) }
        ensures err { OnErr result (self.new.is_open ≡ false) }
        ensures front { OnErr result (AppendsFront (W.contents self.old.to) (W.contents self.new.to) bytes.now) }
        ensures closed { self.old.is_open ≡ false → IsErr result × (self.new.to ≡ self.old.to) }
    {
        if !self.is_open {
            return Err(Stopped);
        }
        let Err(error) = write_whole(&self.rt, &mut self.to, bytes) else {
            return Ok(());
        };
        self.is_open = false;
        say_stopped(&self.rt, self.program, &error);
        Err(Stopped)
    }
}

fn say_stopped(rt: &HostRuntime, program: &str, error: &WriteError) {
    match error {
        WriteError::NoByte => {
            let _ = eprintln!(rt; "{program}: output stopped: a write took no byte");
        }
        WriteError::Failed(error) => {
            say_why(rt, &format_args!("{program}: output stopped"), error)
        }
    }
}

impl<W: Write> Output<W> {
    ghost use Rattle.streams.specs.Gathered.{gathered, waits};

    /// Nothing waits yet.
    pub fn new(outlet: Outlet<W>) -> Output<W>
        ensures outlet { result.outlet ≡ outlet }
        ensures empty { waits result ≡ [] }
    {
        Output {
            outlet,
            buffer: [0; SPACE],
            count: 0,
        }
    }

    /// Takes a piece. One that is longer than the buffer goes out by itself.
    pub fn put(&mut self, piece: &[u8]) -> Result<(), Stopped>
        ensures ok { OnOk result (Appends (gathered W.contents self.old) (gathered W.contents self.new) piece.now) }
        ensures open { OnOk result (self.new.outlet.is_open ≡ true) }
        ensures err { OnErr result (self.new.outlet.is_open ≡ false) }
        ensures front { OnErr result (AppendsFront (W.contents self.old.outlet.to) (W.contents self.new.outlet.to) (waits self.old ++ piece.now)) }
        ensures closed { self.old.outlet.is_open ≡ false → IsErr result × (self.new.outlet.to ≡ self.old.outlet.to) }
    {
        if !self.outlet.is_open {
            return Err(Stopped);
        }
        if piece.len() <= SPACE - self.count {
            self.append(piece);
            return Ok(());
        }
        self.finish()?;
        if piece.len() <= SPACE {
            self.append(piece);
            return Ok(());
        }
        self.outlet.write(piece)
    }

    // Puts a piece behind those that wait.
    fn append(&mut self, piece: &[u8])
        requires { length (waits self.old) + length piece.now ≤ 65536 }
        ensures waits { waits self.new ≡ waits self.old ++ piece.now }
        ensures outlet { self.new.outlet ≡ self.old.outlet }
    {
        let end = self.count + piece.len();
        self.buffer[self.count..end].copy_from_slice(piece);
        self.count = end;
    }

    /// Takes a number in decimal.
    #[tactic(auto, using(text::proofs::Laws::all_digits))]
    pub fn put_number(&mut self, n: u64) -> Result<(), Stopped>
        ensures ok { OnOk result (Appends (gathered W.contents self.old) (gathered W.contents self.new) (decimal n)) }
        ensures open { OnOk result (self.new.outlet.is_open ≡ true) }
        ensures err { OnErr result (self.new.outlet.is_open ≡ false) }
    {
        let mut digits = ArrayVec::<u8, 20>::new();
        text::writing::put_number(&mut digits, n);
        self.put(digits.as_slice())
    }

    /// Lets out what waits.
    pub fn finish(&mut self) -> Result<(), Stopped>
        ensures ok { OnOk result (Appends (W.contents self.old.outlet.to) (W.contents self.new.outlet.to) (waits self.old)) }
        ensures empty { OnOk result (waits self.new ≡ []) }
        ensures open { OnOk result (self.new.outlet.is_open ≡ true) }
        ensures err { OnErr result (self.new.outlet.is_open ≡ false) }
        ensures front { OnErr result (AppendsFront (W.contents self.old.outlet.to) (W.contents self.new.outlet.to) (waits self.old)) }
        ensures closed { self.old.outlet.is_open ≡ false → IsErr result × (self.new.outlet.to ≡ self.old.outlet.to) }
    {
        self.outlet.write(&self.buffer[..self.count])?;
        self.clear();
        Ok(())
    }

    /// Gives up what waits: nothing goes out any more.
    pub fn stop(&mut self) -> Stopped
        ensures empty { waits self.new ≡ [] }
        ensures closed { self.new.outlet.is_open ≡ false }
        ensures to { self.new.outlet.to ≡ self.old.outlet.to }
    {
        self.clear();
        self.outlet.is_open = false;
        Stopped
    }

    // Nothing waits any more.
    fn clear(&mut self)
        ensures empty { waits self.new ≡ [] }
        ensures outlet { self.new.outlet ≡ self.old.outlet }
    {
        self.count = 0;
    }
}
