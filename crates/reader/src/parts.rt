// The parts of a page, each from a place on: the head, the records, the chains, what is held, the numbers, the last line. Where each line of a
// part is well formed, `at` is where the next part begins and `line` the number of its first line. What is held and the numbers end where a line
// is none of theirs: whether that one is well formed is for the part behind them.
ghost use Rattle.std.specs.Prelude.{◌≤◌, length, ◌≡◌};
ghost use Rattle.text.specs.Text.{text};
ghost use Rattle.page.specs.Page.{key_of_chain, number_key};
ghost use Rattle.shapes.specs.Inner.{NoLine, number_in};
ghost use Rattle.records.specs.Inner as records;
ghost use Rattle.tracks.specs.Inner.{Fit};
ghost use Rattle.reader.specs.Walks.{Onward, YearRead, HeadRead, RecordRead, RecordsRead, ChainsRead, HeldRead, NumbersRead, EndRead};

use chains::SLOTS;
use limits::{MOST_PROGRAMS, USUAL_YEAR};
use page::keys;
use records::{Numbers, Program};
use shapes::{lines, values};
use tracks::Tracks;

// The number of the first line that is not well formed.
#[derive(Clone, Copy)]
pub(crate) struct BadLine(pub(crate) u64);

// The year's line, one or none: what it says, or the usual year, and the place behind it.
#[derive(Clone, Copy)]
pub(crate) struct Year {
    pub(crate) lines: u64,
    pub(crate) at: usize,
    pub(crate) year: u64,
}

#[derive(Clone, Copy)]
pub(crate) struct Head {
    pub(crate) at: usize,
    pub(crate) line: u64,
    pub(crate) clock: u64,
    pub(crate) tracks: u64,
    pub(crate) system: u64,
    pub(crate) numbers: u64,
    pub(crate) year: u64,
    pub(crate) programs: u64,
}

// A record: how many lines it has, the place behind them, and what they say. The mark's line is the eighth of a record that has one.
#[derive(Clone, Copy)]
pub(crate) struct Record {
    pub(crate) lines: u64,
    pub(crate) at: usize,
    pub(crate) id: u64,
    pub(crate) program: Program,
}

#[derive(Clone, Copy)]
pub(crate) struct Records {
    pub(crate) at: usize,
    pub(crate) line: u64,
    pub(crate) programs: [Program; MOST_PROGRAMS],
}

#[derive(Clone, Copy)]
pub(crate) struct Chains {
    pub(crate) at: usize,
    pub(crate) line: u64,
    pub(crate) links: [u8; SLOTS],
}

#[derive(Clone, Copy)]
pub(crate) struct Held {
    pub(crate) at: usize,
    pub(crate) line: u64,
    pub(crate) tracks: Tracks,
}

#[derive(Clone, Copy)]
pub(crate) struct Numbered {
    pub(crate) at: usize,
    pub(crate) line: u64,
    pub(crate) numbers: Numbers,
}

fn read_year(s: &[u8], at: usize) -> Year
    requires { at ≤ length s.now }
    ensures { YearRead s.now at result }
{
    match lines::figure_at(s, at, &keys::YEAR) {
        Some((year, next)) => Year {
            lines: 1,
            at: next,
            year,
        },
        None => Year {
            lines: 0,
            at,
            year: USUAL_YEAR as u64,
        },
    }
}

pub(crate) fn read_head(s: &[u8], at: usize) -> Result<Head, BadLine>
    requires { at ≤ length s.now }
    ensures { HeadRead s.now at result }
{
    let a = lines::word_at(s, at, &keys::PAGE, &keys::RTE2).ok_or(BadLine(1))?;
    let (clock, b) = lines::figure_at(s, a, &keys::CLOCK).ok_or(BadLine(2))?;
    let year = read_year(s, b);
    let line = 3 + year.lines;
    let (tracks, c) = lines::figure_at(s, year.at, &keys::TRACKS).ok_or(BadLine(line))?;
    let (system, d) = lines::figure_at(s, c, &keys::SYSTEM).ok_or(BadLine(line + 1))?;
    let (numbers, e) = lines::figure_at(s, d, &keys::NUMBERS).ok_or(BadLine(line + 2))?;
    let (programs, f) = lines::figure_at(s, e, &keys::PROGRAMS).ok_or(BadLine(line + 3))?;
    Ok(Head {
        at: f,
        line: line + 4,
        clock,
        tracks,
        system,
        numbers,
        year: year.year,
        programs,
    })
}

fn read_record(s: &[u8], at: usize, line: u64) -> Result<Record, BadLine>
    requires { Onward s.now at line }
    ensures { RecordRead s.now at line result }
{
    let (id, a) = lines::figure_at(s, at, &keys::ID).ok_or(BadLine(line))?;
    let (name, b) = lines::name_at(s, a, &keys::NAME).ok_or(BadLine(line + 1))?;
    let (priority, c) = lines::figure_at(s, b, &keys::PRIORITY).ok_or(BadLine(line + 2))?;
    let (state, d) = lines::figure_at(s, c, &keys::STATE).ok_or(BadLine(line + 3))?;
    let (why, e) = lines::reason_at(s, d, &keys::WHY).ok_or(BadLine(line + 4))?;
    let (due, f) = lines::dashed_at(s, e, &keys::DUE).ok_or(BadLine(line + 5))?;
    let (interval, g) = lines::dashed_at(s, f, &keys::INTERVAL).ok_or(BadLine(line + 6))?;
    let program = Program {
        used: true,
        name,
        priority: values::two_bytes(priority),
        state: values::byte(state),
        why,
        due,
        interval,
        suspend: false,
    };
    let Some(h) = lines::word_at(s, g, &keys::SUSPEND, &keys::MARK) else {
        return Ok(Record {
            lines: 7,
            at: g,
            id,
            program,
        });
    };
    let marked = Program {
        suspend: true,
        ..program
    };
    Ok(Record {
        lines: 8,
        at: h,
        id,
        program: marked,
    })
}

// So many records. One whose id is none of a record is passed over.
pub(crate) fn read_records(s: &[u8], at: usize, line: u64, count: u64) -> Result<Records, BadLine>
    requires { Onward s.now at line }
    ensures { RecordsRead s.now at line count result }
{
    let mut programs = [records::unused_record(); MOST_PROGRAMS];
    let mut o = at;
    let mut n = line;
    for _ in 0..count {
        let record = read_record(s, o, n)?;
        if 1 <= record.id && record.id <= MOST_PROGRAMS as u64 {
            programs[(record.id - 1) as usize] = record.program;
        }
        o = record.at;
        n += record.lines;
    }
    Ok(Records {
        at: o,
        line: n,
        programs,
    })
}

// The key of a state's chain.
#[tactic(auto, using(text::proofs::Laws::few_digits))]
fn chain_key(state: u8) -> [u8; 6]
    requires { state ≤ 9 }
    ensures { result ≡ key_of_chain state }
{
    let mut key = [b'0' + state; 6];
    key[..5].copy_from_slice(&keys::CHAIN);
    key
}

// The chains of the states that are shown.
pub(crate) fn read_chains(s: &[u8], at: usize, line: u64) -> Result<Chains, BadLine>
    requires { Onward s.now at line }
    ensures { ChainsRead s.now at line result }
{
    let mut links = [0u8; SLOTS];
    let mut o = at;
    let mut n = line;
    for state in keys::CHAINED {
        let (from, to) = lines::value_at(s, o, &chain_key(state)).ok_or(BadLine(n))?;
        links = values::read_chain(&s[from..to], links, state as usize).ok_or(BadLine(n))?;
        o = to + 1;
        n += 1;
    }
    Ok(Chains {
        at: o,
        line: n,
        links,
    })
}

// The tracks that are held, up to a line that is none. A run that is not one of these tracks is passed over.
pub(crate) fn read_held(s: &[u8], at: usize, line: u64, tracks: Tracks) -> Held
    requires onward { Onward s.now at line }
    requires fit { Fit tracks }
    ensures { HeldRead s.now at line tracks result }
{
    let mut places = tracks.places();
    let mut o = at;
    let mut n = line;
    while let Some((run, next)) = lines::held_at(s, o) {
        if run.first <= run.last && run.last < tracks.count as u64 {
            tracks::fill(
                &mut places,
                run.first as usize,
                run.last as usize,
                run.holder,
            );
        }
        o = next;
        n += 1;
    }
    Held {
        at: o,
        line: n,
        tracks: Tracks::from_places(tracks.count, tracks.system, places),
    }
}

// The numbers that are allocated, up to a line that is none. One that is none of these numbers is passed over.
pub(crate) fn read_numbers(s: &[u8], at: usize, line: u64, numbers: Numbers) -> Numbered
    requires onward { Onward s.now at line }
    requires fit { records.Fit numbers }
    ensures { NumbersRead s.now at line numbers result }
{
    let mut table = numbers;
    let mut o = at;
    let mut n = line;
    while let Some((resource, next)) = lines::number_at(s, o) {
        let r = resource.number;
        if 1 <= r && r <= table.count as u64 {
            table = table.with_number(r as usize, resource.owner, resource.lock);
        }
        o = next;
        n += 1;
    }
    Numbered {
        at: o,
        line: n,
        numbers: table,
    }
}

// The last line, and nothing behind it.
pub(crate) fn read_end(s: &[u8], at: usize, line: u64) -> Result<(), BadLine>
    requires onward { Onward s.now at line }
    requires no_line { NoLine number_in s.now at (text number_key) }
    ensures { EndRead s.now at line result }
{
    let next = lines::word_at(s, at, &keys::END, &keys::PAGE).ok_or(BadLine(line))?;
    if next < s.len() {
        return Err(BadLine(line + 1));
    }
    Ok(())
}
