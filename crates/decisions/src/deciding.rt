// Every request: which part of the book decides it.
ghost use Rattle.std.specs.Prelude.{◌≡◌};
ghost use Rattle.rules.specs.Plans.{View};
ghost use Rattle.rules.specs.Rules.{head, may_start, plan, call};
ghost use Rattle.rules.specs.Requests.{FRESH, LOAD, TICK};
ghost use Rattle.rules.specs.Coded.{the_call, the_request};
ghost use Rattle.ledger.specs.Ledger.{book_of};
ghost use Rattle.decisions.specs.Inner.{CanAsk, CanCall, CanDecide, Decides, settled, asking, task_of};

use super::naming::Task;
use super::numbering::Wanted;
use super::{Decision, Effect, discs, naming, numbering, settled, stay};
use clock::Clock;
use ledger::Ledger;
use limits::{DORMANT, FIRST_YEAR, LAST_YEAR, MOST_NUMBERS, MOST_TRACKS, SCHEDULED, SUSPENDED};
use records::Why;
use rules::{Answer, Call, Order, Request};
use tracks::Tracks;

// FRESH: whether tables may have these sizes, and their clock this start year.
pub fn may_start(tracks: u64, system: u64, numbers: u64, year: u64) -> bool
    ensures { result ≡ may_start tracks system numbers year }
{
    1 <= tracks
        && tracks <= MOST_TRACKS as u64
        && system <= tracks
        && numbers <= MOST_NUMBERS as u64
        && FIRST_YEAR as u64 <= year
        && year <= LAST_YEAR as u64
}

fn renews(tracks: u64, system: u64, numbers: u64, year: u64) -> Result<Decision, Answer>
    ensures { (v : View) → Decides v (plan v (FRESH tracks system numbers year)) (settled result) }
{
    if !may_start(tracks, system, numbers, year) {
        return Err(Answer::NotAllowed);
    }
    Ok(Decision {
        answer: Answer::Done(0),
        effect: Effect::Renew(tracks as u16, system as u16, numbers as u8, year as u16),
    })
}

// TICK, unless the clock stands at its ceiling.
fn ticks_on(ticks: u64) -> Result<Decision, Answer>
    ensures { (v : View) → v.book.clock ≡ ticks → Decides v (plan v TICK) (settled result) }
{
    if Clock::CEILING <= ticks {
        return Err(Answer::AtCeiling);
    }
    Ok(Decision {
        answer: Answer::Done(0),
        effect: Effect::Tick,
    })
}

fn task_of(o: Order) -> Task
    ensures { result ≡ task_of o }
{
    match o {
        Order::Ru => Task::Shift(DORMANT, SCHEDULED),
        Order::Ss => Task::Suspend,
        Order::Go => Task::Shift(SUSPENDED, SCHEDULED),
        Order::Pr(n) => Task::Price(n),
        Order::Of(k) => Task::Dismiss(k),
    }
}

// A task of the program of that name.
fn asks(book: &Ledger, c: u8, name: [u8; 5], task: Task) -> Result<Decision, Answer>
    requires { CanAsk book.now.tracks book.now.clock.ticks c task }
    ensures { (v : View) → v.book ≡ book_of book.now → Decides v (asking v c name task) (settled result) }
{
    naming::upon(&book.programs, book.tracks, book.clock.ticks, c, name, task)
}

fn loads(book: &Ledger, name: [u8; 5], priority: u64) -> Result<Decision, Answer>
    ensures { (v : View) → v.book ≡ book_of book.now → Decides v (plan v (LOAD name priority)) (settled result) }
{
    naming::loads(&book.programs, name, priority)
}

// What program c asks.
fn called(book: &Ledger, c: u8, q: Call) -> Result<Decision, Answer>
    requires { CanCall book.now c }
    ensures { (v : View) → v.book ≡ book_of book.now → Decides v (call v c (the_call q)) (settled result) }
{
    match q {
        Call::Exec4(n, w) => discs::takes(book.tracks, c, c, n, w),
        Call::Exec15(n, w) => discs::takes(book.tracks, c, Tracks::GLOBAL, n, w),
        Call::Exec5(n, start) => discs::gives(book.tracks, c, n, start),
        Call::Exec16(n, start) => discs::gives(book.tracks, Tracks::GLOBAL, n, start),
        Call::Exec5All => Ok(discs::gives_all(book.tracks, c)),
        Call::Exec6 => Ok(Decision {
            answer: Answer::Done(0),
            effect: Effect::End(c),
        }),
        Call::Exec7 => Ok(Decision {
            answer: Answer::Done(0),
            effect: Effect::Become(c, SUSPENDED, Why::Nothing),
        }),
        Call::Exec11 => Ok(stay(Answer::Told(book.clock.time()))),
        Call::Exec9(name) => asks(book, c, name, Task::Await),
        Call::Exec10(name) => asks(book, c, name, Task::Send),
        Call::Exec12(name, r, m, o) => asks(book, c, name, Task::Time(r, m, o)),
        Call::Alloc(global, w) => numbering::allocates(book.numbers, c, global, w),
        Call::Lock(r, w) => numbering::of_number(book.numbers, c, r, Wanted::Lock(w)),
        Call::Clear(r) => numbering::of_number(book.numbers, c, r, Wanted::Clear),
        Call::Free(r) => numbering::of_number(book.numbers, c, r, Wanted::Free),
    }
}

// What a request comes to where c is the caller, or 0: the one place where a call of the running program begins.
fn decided(book: &Ledger, c: u8, q: Request) -> Result<Decision, Answer>
    requires { CanDecide book.now c }
    ensures { (v : View) → v.book ≡ book_of book.now → head (v.chain 1) ≡ c → Decides v (plan v (the_request q)) (settled result) }
{
    match q {
        Request::Fresh(t, s, r, y) => renews(t, s, r, y),
        Request::Load(name, n) => loads(book, name, n),
        Request::Operator(o, name) => asks(book, 0, name, task_of(o)),
        Request::Tick => ticks_on(book.clock.ticks),
        Request::Running(call) => {
            if c == 0 {
                return Err(Answer::NoCaller);
            }
            called(book, c, call)
        }
    }
}

// The same; a refusal is an answer, and nothing happens.
pub fn decide(book: &Ledger, c: u8, q: Request) -> Decision
    requires { CanDecide book.now c }
    ensures { (v : View) → v.book ≡ book_of book.now → head (v.chain 1) ≡ c → Decides v (plan v (the_request q)) result }
{
    settled(decided(book, c, q))
}
