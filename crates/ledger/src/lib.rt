// The book as the code keeps it: records, the clock, the tracks and the resource numbers, in arrays of one size.
#![tactic(auto)]

mod entries;
mod freeing;
mod places;
mod roll;
mod sound;

use clock::Clock;
pub use freeing::{sift, without};
use limits::{MOST_NUMBERS, MOST_PROGRAMS};
use records::{Numbers, Program};
pub use sound::{Review, reviewed};
use tracks::Tracks;

#[derive(Clone, Copy)]
pub struct Ledger {
    pub programs: [Program; MOST_PROGRAMS],
    pub clock: Clock,
    pub tracks: Tracks,
    pub numbers: Numbers,
}

// What a call sets free: the program that ended, or 0; how many tracks; which numbers were cleared or deallocated, number r
// at r - 1; whether one was deallocated.
#[derive(Clone, Copy)]
pub struct Release {
    pub ended: u8,
    pub tracks: usize,
    pub cleared: [bool; MOST_NUMBERS],
    pub dealt: bool,
}
