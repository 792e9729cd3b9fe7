// The test of soundness, but for chains: the sizes, the records, the places of the tracks, those of the numbers. Only `reviewed` takes the
// whole ledger, by value: behind a reference no length is known of an array in a field's field. Arrays go on by reference: copies cost more
// than the tests.
ghost use Rattle.std.specs.Prelude.{◌≡◌, false, MatchOption};
ghost use Rattle.tracks.specs.Inner.{Tells};
ghost use Rattle.ledger.specs.Inner.{Sized, test_book, Reviewed};

use super::Ledger;
use super::places::{numbers_ok, strangers};
use super::roll::enrolled;
use clock::Clock;
use limits::{FIRST_YEAR, LAST_YEAR, MOST_NUMBERS, MOST_PROGRAMS, MOST_TRACKS};

// Of a ledger that is sound but for the chains: the states and priorities of its records.
#[derive(Clone, Copy)]
pub struct Review {
    pub states: [u8; MOST_PROGRAMS],
    pub priorities: [u16; MOST_PROGRAMS],
}

fn is_sized(all: u16, own: u16, numbers: u8, ticks: u64, year: u16) -> bool
    ensures { Tells result (Sized all own numbers ticks year) }
{
    1 <= all
        && all as usize <= MOST_TRACKS
        && own <= all
        && numbers as usize <= MOST_NUMBERS
        && FIRST_YEAR <= year
        && year <= LAST_YEAR
        && ticks <= Clock::CEILING
}

// All tests of the ledger in turn; where they pass, what a walk along the chains asks of the records is handed on.
pub fn reviewed(l: Ledger) -> Option<Review>
    ensures { MatchOption result (test_book l ≡ false) (Reviewed l) }
{
    let all = l.tracks.count;
    let numbers = l.numbers.count;
    if !is_sized(all, l.tracks.system, numbers, l.clock.ticks, l.clock.year) {
        return None;
    }
    let roll = enrolled(&l.programs, l.clock.ticks, all, numbers)?;
    let marks = strangers(&roll.used);
    if !l.tracks.held_soundly(&marks)
        || !numbers_ok(numbers as usize, &l.numbers.resources, &marks)
    {
        return None;
    }
    Some(Review {
        states: roll.states,
        priorities: roll.priorities,
    })
}
