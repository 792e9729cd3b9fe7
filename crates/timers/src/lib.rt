// Timers: when they fall due, and how they move on, over one tick or over many.
#![tactic(auto)]

ghost use Rattle.std.specs.Prelude.{◌+◌, ◌≤◌, ◌≡◌};
ghost use Rattle.clock.specs.Clock.{ceiling};
ghost use Rattle.timers.specs.Inner.{falls_due, due_beyond, moved, starts, sooner, next_start, CanMove, span_of};

use clock::Clock;
use limits::{DORMANT, MOST_PROGRAMS, MOST_TICKS};
use records::Program;

// Why n ticks are not made: n is not allowed, or they would pass the clock's ceiling.
#[derive(Clone, Copy, PartialEq, Eq, Debug)]
pub enum NoSpan {
    NotAllowed,
    AtCeiling,
}

// The clock's reading after n ticks, before any is made.
pub fn span_of(clock: u64, n: u64) -> Result<u64, NoSpan>
    requires { clock ≤ ceiling }
    ensures { result ≡ span_of clock n }
{
    if n == 0 || MOST_TICKS < n {
        return Err(NoSpan::NotAllowed);
    }
    if Clock::CEILING - clock < n {
        return Err(NoSpan::AtCeiling);
    }
    Ok(clock + n)
}

// Whether a record's timer falls due by the time the clock stands at `now`.
#[tactic(auto, unfolding(crate::specs::Inner::falls_due))]
pub fn falls_due(r: Program, now: u64) -> bool
    ensures { result ≡ falls_due now r }
{
    0 < r.due && r.due <= now
}

// Whether its program starts with that.
#[tactic(auto, unfolding(crate::specs::Inner::starts))]
pub fn starts(r: Program, now: u64) -> bool
    ensures { result ≡ starts now r }
{
    falls_due(r, now) && r.state == DORMANT
}

// The first due beyond `now` of a timer that fell due by then; none where it runs once.
fn due_beyond(now: u64, due: u64, interval: u64) -> u64
    requires due_le { due ≤ now }
    requires interval_bound { now + interval ≤ 18446744073709551615 }
    ensures { result ≡ due_beyond now due interval }
{
    if interval == 0 {
        return 0;
    }
    due + ((now - due) / interval + 1) * interval
}

// The record with its timer beyond `now`, where it fell due by then.
#[tactic(auto, unfolding(crate::specs::Inner::falls_due))]
pub fn moved(r: Program, now: u64) -> Program
    requires { CanMove now r }
    ensures { result ≡ moved now r }
{
    if falls_due(r, now) {
        return r.with_timer(due_beyond(now, r.due, r.interval), r.interval);
    }
    r
}

// The sooner of `end` and the moment at which a dormant program falls due.
fn sooner(r: Program, end: u64) -> u64
    ensures { result ≡ sooner r end }
{
    if 0 < r.due && r.due < end && r.state == DORMANT {
        return r.due;
    }
    end
}

// The next moment at which a dormant program falls due, or `end` where none does before.
pub fn next_start(programs: [Program; MOST_PROGRAMS], end: u64) -> u64
    ensures { result ≡ next_start end programs }
{
    let mut least = end;
    for r in &programs {
        least = sooner(*r, least);
    }
    least
}
