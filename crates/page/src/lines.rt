// The lines of a page, each of them for one thing.
ghost use Rattle.std.specs.Prelude.{◌≡◌, ◌+◌, ◌≤◌, ◌++◌, length};
ghost use Rattle.records.specs.Names.{bare};
ghost use Rattle.text.specs.Text.{entry};
ghost use Rattle.page.specs.Page.{bytes_of, bytes, reason, mark_line, year_line, head_lines, recorded, chain_line, held_line, number_line};
ghost use Rattle.page.specs.Inner.{or_none};

use super::{keys, values};
use arrayvec::ArrayVec;
use limits::USUAL_YEAR;
use records::{Program, Resource, Why};
use text::writing::{put_entry, put_figure, put_key};
use tracks::{Run, Tracks};

// The start year; none where it is the usual one.
#[tactic(auto, using(crate::proofs::Writing::year_put))]
fn put_year_line<const N: usize>(out: &mut ArrayVec<u8, N>, year: u16)
    requires { length out.old.items + length (bytes (year_line year)) ≤ N }
    ensures { out.new.items ≡ out.old.items ++ bytes (year_line year) }
{
    if year == USUAL_YEAR {
        return;
    }
    put_figure(out, &keys::YEAR, year as u64);
}

// The head of a page, of tables of these sizes and this start year with so many programs.
#[tactic(auto, using(crate::proofs::Writing::lines_put))]
pub(crate) fn put_heading<const N: usize>(
    out: &mut ArrayVec<u8, N>,
    clock: u64,
    tracks: u16,
    system: u16,
    numbers: u8,
    year: u16,
    programs: usize,
)
    requires { length out.old.items + length (bytes (head_lines clock tracks system numbers year programs)) ≤ N }
    ensures { out.new.items ≡ out.old.items ++ bytes (head_lines clock tracks system numbers year programs) }
{
    put_entry(out, &keys::PAGE, &keys::RTE2);
    put_figure(out, &keys::CLOCK, clock);
    put_year_line(out, year);
    put_figure(out, &keys::TRACKS, tracks as u64);
    put_figure(out, &keys::SYSTEM, system as u64);
    put_figure(out, &keys::NUMBERS, numbers as u64);
    put_figure(out, &keys::PROGRAMS, programs as u64);
}

// The line of a name.
#[tactic(auto, unfolding(text::specs::Text::entry))]
fn put_name_line<const N: usize>(out: &mut ArrayVec<u8, N>, key: &[u8], name: [u8; 5])
    requires { length out.old.items + length (entry key.now (bare name)) ≤ N }
    ensures { out.new.items ≡ out.old.items ++ entry key.now (bare name) }
{
    put_key(out, key);
    values::put_name(out, name);
    out.push(b'\n');
}

// The line of a reason.
#[tactic(auto, unfolding(text::specs::Text::entry))]
fn put_why_line<const N: usize>(out: &mut ArrayVec<u8, N>, key: &[u8], why: Why)
    requires { length out.old.items + length (entry key.now (reason why)) ≤ N }
    ensures { out.new.items ≡ out.old.items ++ entry key.now (reason why) }
{
    put_key(out, key);
    values::put_reason(out, why);
    out.push(b'\n');
}

// The line of a number that may be absent.
#[tactic(auto, unfolding(text::specs::Text::entry))]
#[inline(always)]
fn put_or_dash_line<const N: usize>(out: &mut ArrayVec<u8, N>, key: &[u8], n: Option<u64>)
    requires { length out.old.items + length (entry key.now (or_none n)) ≤ N }
    ensures { out.new.items ≡ out.old.items ++ entry key.now (or_none n) }
{
    put_key(out, key);
    values::put_or_dash(out, n);
    out.push(b'\n');
}

// The line of a mark, where there is one.
#[tactic(auto, using(crate::proofs::Writing::mark_put))]
fn put_mark_line<const N: usize>(out: &mut ArrayVec<u8, N>, there: bool)
    requires { length out.old.items + length (bytes (mark_line there)) ≤ N }
    ensures { out.new.items ≡ out.old.items ++ bytes (mark_line there) }
{
    if there {
        put_entry(out, &keys::SUSPEND, &keys::MARK);
    }
}

// The lines of program p.
#[tactic(auto, using(crate::proofs::Writing::lines_put))]
pub(crate) fn put_record<const N: usize>(out: &mut ArrayVec<u8, N>, p: u8, program: &Program)
    requires { length out.old.items + length (bytes (recorded p program.now)) ≤ N }
    ensures { out.new.items ≡ out.old.items ++ bytes (recorded p program.now) }
{
    let timer = 0 < program.due;
    put_figure(out, &keys::ID, p as u64);
    put_name_line(out, &keys::NAME, program.name);
    put_figure(out, &keys::PRIORITY, program.priority as u64);
    put_figure(out, &keys::STATE, program.state as u64);
    put_why_line(out, &keys::WHY, program.why);
    put_or_dash_line(out, &keys::DUE, timer.then_some(program.due));
    put_or_dash_line(out, &keys::INTERVAL, timer.then_some(program.interval));
    put_mark_line(out, program.suspend);
}

// The chain of a state.
#[tactic(auto, unfolding(text::specs::Text::entry))]
pub(crate) fn put_chain<const N: usize>(out: &mut ArrayVec<u8, N>, state: u8, ids: &[u8])
    requires { length out.old.items + length (bytes_of (chain_line state ids.now)) ≤ N }
    ensures { out.new.items ≡ out.old.items ++ bytes_of (chain_line state ids.now) }
{
    values::put_coded(out, &keys::CHAIN, state as u64);
    out.push(b'=');
    values::put_joined(out, ids);
    out.push(b'\n');
}

// A run of tracks of one holder; none for free tracks and the system's.
#[tactic(auto, using(crate::proofs::Writing::held_put))]
pub(crate) fn put_run<const N: usize>(out: &mut ArrayVec<u8, N>, run: Run)
    requires { length out.old.items + length (bytes (held_line run)) ≤ N }
    ensures { out.new.items ≡ out.old.items ++ bytes (held_line run) }
{
    if run.holder == Tracks::FREE || run.holder == Tracks::SYSTEM {
        return;
    }
    put_key(out, &keys::HELD);
    values::put_marked(out, run.first as u64, b'-');
    values::put_marked(out, run.last as u64, b':');
    values::put_party(out, run.holder);
    out.push(b'\n');
}

// A resource number; none where it is free.
#[tactic(auto, using(crate::proofs::Writing::number_put))]
pub(crate) fn put_resource<const N: usize>(out: &mut ArrayVec<u8, N>, number: usize, x: &Resource)
    requires { length out.old.items + length (bytes (number_line number x.now)) ≤ N }
    ensures { out.new.items ≡ out.old.items ++ bytes (number_line number x.now) }
{
    if x.owner == 0 {
        return;
    }
    put_key(out, &keys::NUMBER);
    values::put_marked(out, number as u64, b':');
    values::put_party(out, x.owner);
    out.push(b':');
    values::put_or_dash(out, (0 < x.lock).then_some(x.lock as u64));
    out.push(b'\n');
}
