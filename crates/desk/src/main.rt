// The program `desk`: holds a copy's transcript against the original's. With two files it prints the lines that differ; with a key and an
// occurrence behind them, that line. The work on texts is done by `transcripts`; here are only the arguments, the files and the output.
#![tactic(auto)]

mod files;
mod refusing;
mod showing;

use refusing::{Reason, refuse, stop};
use streams::{Outlet, Output, Stopped};

fn list_lines(rt: &HostRuntime, original: &mut [u8], copy: &mut [u8]) -> Result<(), Stopped> {
    let both = files::read_both(rt, original, copy)?;
    let mut list = [0; showing::LISTED];
    let mut output = Output::new(Outlet::new(rt, "desk", rt.stdout()));
    showing::show_list(&mut output, both.original, both.copy, &mut list)
}

// The occurrence that is asked for, from argument 4. More than 19 digits may not fit a u64.
#[inline(never)]
fn take_occurrence(rt: &HostRuntime) -> Result<u64, Stopped> {
    let argument = files::take_argument(rt, 4, "OCCURRENCE")?;
    match text::read_number(argument.as_slice(), 19) {
        Some(occurrence) => Ok(occurrence),
        None => Err(refuse(rt, b"OCCURRENCE", &Reason::NotANumber)),
    }
}

// What is wrong with the arguments themselves is said before a file is opened.
fn find_line(rt: &HostRuntime, original: &mut [u8], copy: &mut [u8]) -> Result<(), Stopped> {
    let key = files::take_argument(rt, 3, "KEY")?;
    let occurrence = take_occurrence(rt)?;
    let both = files::read_both(rt, original, copy)?;
    let mut output = Output::new(Outlet::new(rt, "desk", rt.stdout()));
    showing::show_found(
        &mut output,
        both.original,
        both.copy,
        key.as_slice(),
        occurrence,
    )
}

// The rooms come as arrays, whose lengths their type tells: as slices they would be counted in the proof, place by place. The system counts
// the program's own name among the arguments.
fn run(
    rt: &HostRuntime,
    original: &mut [u8; files::ROOM],
    copy: &mut [u8; files::ROOM],
) -> Result<(), Stopped> {
    match streams::count_arguments(rt) {
        3 => list_lines(rt, original, copy),
        5 => find_line(rt, original, copy),
        _ => Err(stop(rt, "usage: desk ORIGINAL COPY [KEY OCCURRENCE]")),
    }
}

fn main(rt: HostRuntime) {
    let mut original = [0; files::ROOM];
    let mut copy = [0; files::ROOM];
    // What stopped it was said.
    let _ = run(&rt, &mut original, &mut copy);
}
