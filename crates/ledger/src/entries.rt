// One record by itself: its name, its times, its state, and what it waits for.
ghost use Rattle.std.specs.Prelude.{◌≡◌, cond, not, ◌&&◌, ◌||◌, eqb};
ghost use Rattle.limits.specs.Limits.{dormant, scheduled, suspended};
ghost use Rattle.lists.specs.Lists.{up_to, alike};
ghost use Rattle.records.specs.Names.{legal};
ghost use Rattle.records.specs.Records.{known, unused};
ghost use Rattle.rules.specs.Test.{nothing, son_of, zeros};
ghost use Rattle.ledger.specs.Inner.{timed, mark_fits, trim, state_fits, reason_fits, fits};

use clock::Clock;
use limits::{DISC, DORMANT, GENERAL, LAST_PRIORITY, MOST_PROGRAMS, SCHEDULED, SUSPENDED};
use records::{Program, Why, in_wait, is_legal};

fn one_to(high: usize, n: usize) -> bool
    ensures { result ≡ up_to 1 high n }
{
    1 <= n && n <= high
}

fn is_nothing(w: Why) -> bool
    ensures { result ≡ nothing w }
{
    matches!(w, Why::Nothing)
}

// The son that is awaited, or 0.
pub fn son_of(w: Why) -> u8
    ensures { result ≡ son_of w }
{
    match w {
        Why::Son(k) => k,
        Why::Nothing | Why::Tracks(_) | Why::Lock(_) | Why::Number => 0,
    }
}

fn is_unnamed(name: [u8; 5]) -> bool
    ensures { result ≡ alike name unused.name }
{
    name == [0; 5]
}

// Zeros all over, and no mark. Every part is looked at, so that no branch is taken.
fn holds_zeros(r: Program) -> bool
    ensures { result ≡ zeros r }
{
    let idle = is_unnamed(r.name) & (r.priority == 0) & (r.state == 0);
    idle & is_nothing(r.why) & (r.due == 0) & (r.interval == 0) & !r.suspend
}

// A legal name, or zeros where the record is unused.
fn is_named(r: Program) -> bool
    ensures { result ≡ cond r.used (legal r.name) (zeros r) }
{
    if r.used {
        is_legal(r.name)
    } else {
        holds_zeros(r)
    }
}

#[tactic(auto, unfolding(crate::specs::Inner::timed))]
fn is_timed(ticks: u64, due: u64, interval: u64) -> bool
    ensures { result ≡ timed ticks due interval }
{
    if due == 0 {
        return interval == 0;
    }
    ticks < due && due - ticks <= Clock::FARTHEST && interval <= Clock::FARTHEST
}

// The mark stands only where a program waits. Few are marked, so the state is looked at last.
fn mark_fits(mark: bool, state: u8) -> bool
    ensures { result ≡ mark_fits mark state }
{
    !mark || in_wait(state)
}

// A record but its why.
#[tactic(auto, unfolding(crate::specs::Inner::trim))]
fn is_trim(ticks: u64, r: Program) -> bool
    ensures { result ≡ trim ticks r }
{
    is_named(r)
        && r.priority <= LAST_PRIORITY
        && mark_fits(r.suspend, r.state)
        && is_timed(ticks, r.due, r.interval)
}

fn is_at_rest(state: u8) -> bool
    ensures { result ≡ (eqb state dormant || eqb state scheduled || eqb state suspended) }
{
    matches!(state, DORMANT | SCHEDULED | SUSPENDED)
}

fn state_fits(w: Why, state: u8) -> bool
    ensures { result ≡ state_fits w state }
{
    match w {
        Why::Nothing => is_at_rest(state),
        Why::Tracks(_) => state == DISC,
        Why::Son(_) | Why::Lock(_) | Why::Number => state == GENERAL,
    }
}

// Whether p may await its son k, as far as the numbers go.
fn son_fits(p: usize, k: u8) -> bool
    ensures { result ≡ (known k && not (eqb k p)) }
{
    one_to(MOST_PROGRAMS, k as usize) && k as usize != p
}

fn reason_fits(all: u16, numbers: u8, p: usize, w: Why) -> bool
    ensures { result ≡ reason_fits all numbers p w }
{
    match w {
        Why::Nothing | Why::Number => true,
        Why::Tracks(n) => one_to(all as usize, n as usize),
        Why::Son(k) => son_fits(p, k),
        Why::Lock(r) => one_to(numbers as usize, r as usize),
    }
}

// A record and its why; an unused one is sound where it holds zeros.
#[tactic(auto, unfolding(crate::specs::Inner::fits))]
pub fn record_fits(ticks: u64, all: u16, numbers: u8, p: usize, r: Program) -> bool
    ensures { result ≡ fits ticks all numbers p r }
{
    if !r.used {
        return holds_zeros(r);
    }
    is_trim(ticks, r) && state_fits(r.why, r.state) && reason_fits(all, numbers, p, r.why)
}
