// What is asked of a program by its name: the operator's orders, and EXEC 9, 10 and 12. And LOAD, whose name must be new.
ghost use Rattle.std.specs.Prelude.{◌≡◌, ◌||◌, eqb};
ghost use Rattle.limits.specs.Limits.{last_priority};
ghost use Rattle.lists.specs.Lists.{up_to};
ghost use Rattle.records.specs.Records.{Known};
ghost use Rattle.rules.specs.Plans.{View};
ghost use Rattle.rules.specs.Rules.{plan};
ghost use Rattle.rules.specs.Requests.{LOAD};
ghost use Rattle.rules.specs.Book.{at, state_of, prio_of};
ghost use Rattle.rules.specs.Rules.{order};
ghost use Rattle.rules.specs.Requests.{SS, PR, OF};
ghost use Rattle.decisions.specs.Inner.{Decides, settled, OfTracks, OfBook, OfParts, NamedBy, CanWait, CanAwait};
ghost use Rattle.decisions.specs.Inner.{CanDismiss, CanTime, CanPrice, CanPerform, CanAsk, timer_allowed};
ghost use Rattle.decisions.specs.Inner.{permitted, going, awaiting, winding, performed, asking};

use super::{Decision, Effect, stay};
use clock::Clock;
use limits::{DORMANT, GENERAL, LAST_PRIORITY, MOST_PROGRAMS, MOST_UNITS, SCHEDULED, SUSPENDED};
use records::{Program, Why};
use rules::Answer;
use tracks::Tracks;

// What is asked of the program: to go from one state to another, by RU or GO; to be suspended, or marked for it; a priority; to end,
// by OF 1 or 8; to be sent off, and awaited or not; a timer.
#[derive(Clone, Copy)]
pub(crate) enum Task {
    Shift(u8, u8),
    Suspend,
    Price(u64),
    Dismiss(u64),
    Await,
    Send,
    Time(u64, u64, u64),
}

// Whether OF takes k.
fn ends(k: u64) -> bool
    ensures { result ≡ (eqb k 1 || eqb k 8) }
{
    matches!(k, 1 | 8)
}

fn is_priority(n: u64) -> bool
    ensures { result ≡ up_to 1 last_priority n }
{
    1 <= n && n <= LAST_PRIORITY as u64
}

// A timer's resolution is 1 to 4, its multiple at most 4095, its offset 1 to 4095.
fn timer_allowed(resolution: u64, multiple: u64, offset: u64) -> bool
    ensures { result ≡ timer_allowed resolution multiple offset }
{
    1 <= resolution
        && resolution <= 4
        && multiple <= MOST_UNITS
        && 1 <= offset
        && offset <= MOST_UNITS
}

// Whether the figures of a task are allowed.
fn is_permitted(task: Task) -> bool
    ensures { result ≡ permitted task }
{
    match task {
        Task::Shift(_, _) | Task::Suspend | Task::Await | Task::Send => true,
        Task::Price(n) => is_priority(n),
        Task::Dismiss(k) => ends(k),
        Task::Time(r, m, o) => timer_allowed(r, m, o),
    }
}

// The program of a name.
fn find(programs: &[Program; MOST_PROGRAMS], name: [u8; 5]) -> Result<u8, Answer>
    ensures { NamedBy programs.now name result }
{
    if !records::is_legal(name) {
        return Err(Answer::NotAllowed);
    }
    records::find_program(*programs, name).ok_or(Answer::NoProgram)
}

// p goes from one state to another, and the answer has this value.
fn shifts(state: u8, p: u8, from: u8, to: u8, value: u64) -> Result<Decision, Answer>
    requires { CanWait p to }
    ensures { (v : View) → state_of v.book p ≡ state → Decides v (going v p from to value) (settled result) }
{
    if state != from {
        return Err(Answer::WrongState(state));
    }
    Ok(Decision {
        answer: Answer::Done(value),
        effect: Effect::Become(p, to, Why::Nothing),
    })
}

// SS: who waits is marked, and who is marked stays so; any other is suspended if it is scheduled.
fn suspends(state: u8, mark: bool, p: u8) -> Result<Decision, Answer>
    requires { Known p }
    ensures { (v : View) → state_of v.book p ≡ state → (at v.book p).suspend ≡ mark
        → Decides v (order v SS p) (settled result) }
{
    if records::in_wait(state) {
        if mark {
            return Ok(stay(Answer::Done(0)));
        }
        return Ok(Decision {
            answer: Answer::Done(0),
            effect: Effect::Mark(p),
        });
    }
    shifts(state, p, SCHEDULED, SUSPENDED, 0)
}

// EXEC 9: p is sent off, and c waits for it.
fn awaits(state: u8, c: u8, p: u8) -> Result<Decision, Answer>
    requires { CanAwait c p }
    ensures { (v : View) → state_of v.book p ≡ state → Decides v (awaiting v c p) (settled result) }
{
    if state != DORMANT {
        return Err(Answer::WrongState(state));
    }
    Ok(Decision {
        answer: Answer::Waits(GENERAL),
        effect: Effect::Await(p, c),
    })
}

// OF: how many tracks p gives up.
fn dismisses(tracks: Tracks, p: u8, k: u64) -> Decision
    requires { CanDismiss tracks p }
    ensures { (v : View) → OfTracks v tracks → Decides v (order v (OF k) p) result }
{
    let n = tracks.held_by(p);
    Decision {
        answer: Answer::Done(n as u64),
        effect: Effect::Dismiss(p, k, n),
    }
}

// EXEC 12: the due, and the interval.
fn times(ticks: u64, p: u8, resolution: u64, multiple: u64, offset: u64) -> Decision
    requires { CanTime ticks p resolution multiple offset }
    ensures { (v : View) → v.book.clock ≡ ticks → Decides v (winding v p resolution multiple offset) result }
{
    let unit = Clock::unit(resolution);
    let due = ticks + offset * unit;
    Decision {
        answer: Answer::Done(due),
        effect: Effect::Time(p, due, multiple * unit),
    }
}

// PR.
fn prices(priority: u16, p: u8, n: u64) -> Decision
    requires { CanPrice p n }
    ensures { (v : View) → prio_of v.book p ≡ priority → Decides v (order v (PR n) p) result }
{
    Decision {
        answer: Answer::Done(priority as u64),
        effect: Effect::Price(p, n as u16),
    }
}

// The task of program p, whose record is x.
fn performs(
    x: Program,
    tracks: Tracks,
    ticks: u64,
    c: u8,
    p: u8,
    task: Task,
) -> Result<Decision, Answer>
    requires { CanPerform tracks ticks c p task }
    ensures { (v : View) → OfParts v p x tracks ticks → Decides v (performed v c task p) (settled result) }
{
    match task {
        Task::Shift(from, to) => shifts(x.state, p, from, to, 0),
        Task::Suspend => suspends(x.state, x.suspend, p),
        Task::Price(n) => Ok(prices(x.priority, p, n)),
        Task::Dismiss(k) => Ok(dismisses(tracks, p, k)),
        Task::Await => awaits(x.state, c, p),
        Task::Send => shifts(x.state, p, DORMANT, SCHEDULED, p as u64),
        Task::Time(r, m, o) => Ok(times(ticks, p, r, m, o)),
    }
}

// A task of the program of that name, asked by program c or by the operator.
pub(crate) fn upon(
    programs: &[Program; MOST_PROGRAMS],
    tracks: Tracks,
    ticks: u64,
    c: u8,
    name: [u8; 5],
    task: Task,
) -> Result<Decision, Answer>
    requires { CanAsk tracks ticks c task }
    ensures { (v : View) → OfBook v programs.now tracks ticks → Decides v (asking v c name task) (settled result) }
{
    if !is_permitted(task) {
        return Err(Answer::NotAllowed);
    }
    let p = find(programs, name)?;
    performs(programs[p as usize - 1], tracks, ticks, c, p, task)
}

// LOAD: the lowest unused record takes the program.
pub(crate) fn loads(
    programs: &[Program; MOST_PROGRAMS],
    name: [u8; 5],
    priority: u64,
) -> Result<Decision, Answer>
    ensures { (v : View) → v.book.programs ≡ programs.now → Decides v (plan v (LOAD name priority)) (settled result) }
{
    if !records::is_legal(name) {
        return Err(Answer::NotAllowed);
    }
    if (LAST_PRIORITY as u64) < priority {
        return Err(Answer::NotAllowed);
    }
    if records::find_program(*programs, name).is_some() {
        return Err(Answer::NameInUse);
    }
    let Some(p) = records::lowest_unused(*programs) else {
        return Err(Answer::AllUsed);
    };
    Ok(Decision {
        answer: Answer::Done(p as u64),
        effect: Effect::Load(p, name, priority as u16),
    })
}
