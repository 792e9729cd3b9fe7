// The part of the soundness test that is about tracks: every place, the blank ones too. The
// holders go on by reference, and only the system's tracks are looked at with a branch each.
ghost use Rattle.std.specs.Prelude.{◌≤◌};
ghost use Rattle.limits.specs.Limits.{most_tracks};
ghost use Rattle.tracks.specs.Inner.{Sizes, Tells, Byte, Larger, Serves, SystemHolds, OthersHold, NoneHolds, Held};

use super::Tracks;
use limits::MOST_TRACKS;

// Of a byte behind a reference no bound is known; of a parameter it is.
fn wide(x: u8) -> usize
    ensures { Byte x result }
{
    x as usize
}

fn larger(a: u8, b: u8) -> u8
    ensures { Larger a b result }
{
    a.max(b)
}

// The first tracks are the system's.
fn own_ok(own: usize, holders: &[u8; MOST_TRACKS]) -> bool
    requires { own ≤ most_tracks }
    ensures { Tells result (SystemHolds own holders.now) }
{
    holders[..own].iter().all(|h| *h == Tracks::SYSTEM)
}

// No stranger holds any other track: the marks of the holders sum up to 0.
fn others_ok(own: usize, all: usize, holders: &[u8; MOST_TRACKS], marks: &[u8; 256]) -> bool
    requires { Sizes all own }
    ensures { Tells result (OthersHold own all (Serves marks.now) holders.now) }
{
    let mut sum: usize = 0;
    for i in own..all {
        sum += wide(marks[wide(holders[i])]);
    }
    sum == 0
}

// Nobody holds a place behind the tracks: the largest holder is 0.
fn blank_ok(all: usize, holders: &[u8; MOST_TRACKS]) -> bool
    requires { all ≤ most_tracks }
    ensures { Tells result (NoneHolds all holders.now) }
{
    let mut most: u8 = Tracks::FREE;
    for i in all..MOST_TRACKS {
        most = larger(most, holders[i]);
    }
    most == Tracks::FREE
}

impl Tracks {
    // The system holds its tracks, nobody with a mark holds any other, and nobody a place behind the last.
    pub fn held_soundly(self, marks: &[u8; 256]) -> bool
        requires { Sizes self.count self.system }
        ensures { Tells result (Held (Serves marks.now) self) }
    {
        let all = self.count as usize;
        let own = self.system as usize;
        own_ok(own, &self.holders)
            && others_ok(own, all, &self.holders, marks)
            && blank_ok(all, &self.holders)
    }
}
