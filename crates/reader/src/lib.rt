// A page read back: exactly the bytes that the writer makes from some sound tables are read.
#![tactic(auto)]

mod holding;
mod parts;

ghost use Rattle.std.specs.Prelude.{◌≡◌, ◌≤◌, length, drop};
ghost use Rattle.tables.specs.Calls.{told};
ghost use Rattle.reader.specs.Reading.{not_read, judged, reading};
ghost use Rattle.reader.specs.Walks.{PageRead};

use arrayvec::ArrayVec;
use clock::Clock;
pub use holding::{Reader, moved, open, read, read_page};
use ledger::Ledger;
use limits::{PAGE_ROOM, USUAL_YEAR};
use parts::BadLine;
use rules::Answer;
use tables::{Outcome, Tables};

// The page is not read: the line, or 0, and the smallest tables.
fn not_read(line: u64) -> Outcome
    ensures { told result ≡ not_read line }
{
    Outcome {
        answer: Answer::NotRead(line),
        tables: Tables::fresh(1, 0, 0, USUAL_YEAR as u64).tables,
    }
}

// All lines are well formed and say these tables: they are read where they are sound and written again give the bytes from `at` on.
fn judge(s: &[u8], at: usize, tables: Tables) -> Outcome
    requires { at ≤ length s.now }
    ensures { told result ≡ judged (drop at s.now) 0 tables }
{
    if !tables.is_sound() {
        return not_read(0);
    }
    let mut written = ArrayVec::<u8, PAGE_ROOM>::new();
    page::put_lines(&mut written, &tables);
    if !text::rest_is(s, at, written.as_slice()) {
        return not_read(0);
    }
    Outcome {
        answer: Answer::Done(0),
        tables,
    }
}

// The tables that the lines from a place on say.
fn read_tables(s: &[u8], at: usize) -> Result<Tables, BadLine>
    requires { at ≤ length s.now }
    ensures { PageRead s.now at result }
{
    let head = parts::read_head(s, at)?;
    let records = parts::read_records(s, head.at, head.line, head.programs)?;
    let chains = parts::read_chains(s, records.at, records.line)?;
    let blank = Tables::fresh(head.tracks, head.system, head.numbers, head.year)
        .tables
        .ledger;
    let held = parts::read_held(s, chains.at, chains.line, blank.tracks);
    let numbers = parts::read_numbers(s, held.at, held.line, blank.numbers);
    parts::read_end(s, numbers.at, numbers.line)?;
    // an array is read from a struct into a variable, before it goes into another one
    let programs = records.programs;
    let links = chains.links;
    let ledger = Ledger {
        programs,
        clock: Clock::from_ticks(head.clock, blank.clock.year),
        tracks: held.tracks,
        numbers: numbers.numbers,
    };
    Ok(Tables { ledger, links })
}

// The page that stands from a place on.
pub fn read_from(s: &[u8], at: usize) -> Outcome
    ensures { told result ≡ reading (drop at s.now) }
{
    if s.len() < at {
        return not_read(1);
    }
    match read_tables(s, at) {
        Ok(tables) => judge(s, at, tables),
        Err(BadLine(line)) => not_read(line),
    }
}
