// The program's arguments.
ghost use Rattle.std.specs.Prelude.{◌≡◌, ◌≢◌, ◌≤◌, length, slice_index, EachIndex, IfSome};
ghost use Rattle.streams.specs.Fronts.{IsShown};

use std::env::{Env, FillError};

/// The bytes of the longest argument that is taken: a path that is longer names no file.
pub const LONGEST_ARGUMENT: usize = 4095;

/// How many arguments there are, the program's own name among them, which the system counts too. No contract can say how many the system
/// gives.
pub fn count_arguments(rt: &impl Env) -> usize {
    (0..usize::MAX)
        .find(|&i| matches!(rt.arg(i, &mut []), Err(FillError::NotPresent)))
        .unwrap_or(usize::MAX)
}

/// An argument, as the system gave it.
#[derive(Drop)]
pub struct Argument {
    bytes: [u8; LONGEST_ARGUMENT],
    count: usize,
    ghost fits: { count ≤ 4095 },
}

impl Argument {
    ghost use Rattle.streams.specs.Given.{given};

    /// Argument i; none where it is longer than those that are taken, or is not there.
    pub fn take(rt: &impl Env, i: usize) -> Option<Argument>
        ensures { IfSome result (λ a. length (given a) ≤ 4095) }
    {
        let mut bytes = [0; LONGEST_ARGUMENT];
        let count = rt.arg(i, &mut bytes).ok()?;
        Some(Argument { bytes, count })
    }

    /// These bytes in place of an argument.
    pub fn from_slice(s: &[u8]) -> Argument
        requires { length s.now ≤ 4095 }
        ensures { given result ≡ s.now }
    {
        let mut bytes = [0; LONGEST_ARGUMENT];
        bytes[..s.len()].copy_from_slice(s);
        Argument {
            bytes,
            count: s.len(),
        }
    }

    pub fn as_slice(&self) -> &[u8]
        ensures value { result.now ≡ given self.now }
        ensures bound { length result.now ≤ 4095 }
    {
        &self.bytes[..self.count]
    }

    /// The argument with each byte as it is shown.
    pub fn into_shown(self) -> Argument
        ensures length { length (given result) ≡ length (given self) }
        ensures shown { EachIndex (given result) (λ k. IsShown (slice_index (given result) k)) }
    {
        let Argument { mut bytes, count } = self;
        show_all(&mut bytes[..count]);
        Argument { bytes, count }
    }
}

// Makes each byte one that is shown.
fn show_all(bytes: &mut [u8])
    ensures { EachIndex bytes.new (λ k. IsShown (slice_index bytes.new k)) }
{
    for b in bytes.iter_mut() {
        *b = shown(*b);
    }
}

/// A byte of a name as it is shown. One that would end the line, or move about on the terminal, is a question mark.
pub fn shown(b: u8) -> u8
    ensures shown { IsShown result }
    ensures same { 32 ≤ b → b ≢ 127 → result ≡ b }
{
    if b.is_ascii_control() { b'?' } else { b }
}
