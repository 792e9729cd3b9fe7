// An error in the system's words.
ghost use Rattle.std.specs.Prelude.{length};
ghost use Rattle.std.specs.Io.{StartsWith};

use std::{fmt, io};

/// What is said of an error, without the number that the library puts behind the system's words.
pub fn without_number(said: &str) -> &str
    ensures { StartsWith said.now result.now }
{
    match said.split_once(" (os error ") {
        Some((words, _)) => words,
        None => said,
    }
}

/// Says on standard error what failed, and behind it why: both go out in one write.
pub fn say_why(rt: &HostRuntime, what: &impl fmt::Display, error: &io::Error) {
    let Ok(said) = format!(in rt.alloc(); "{error}") else {
        let _ = eprintln!(rt; "{what}: {error}");
        return;
    };
    let why = without_number(said.as_str());
    let _ = eprintln!(rt; "{what}: {why}");
}
