// The disc tracks: who holds each. Other crates reach the array by functions of this one alone.
#![tactic(auto)]

mod held;
mod places;
mod sound;

ghost use Rattle.std.specs.Prelude.{◌-◌, ◌≡◌, ◌==◌, ◌++◌, count_by, drop, replicate, take};
ghost use Rattle.lists.specs.Lists.{count};
ghost use Rattle.tracks.specs.Tracks.{nobody, system, holders, table_of, run, lowest, filled, replaced};
ghost use Rattle.tracks.specs.Inner.{Fit, HasTracks, Sizes, found_is};

pub use held::{Run, run_in};
use limits::MOST_TRACKS;
pub use places::fill;

// Tracks 0 to `count` - 1, the first `system` of them the system's. A place holds 0 where the track is free, a program's number, GLOBAL or
// SYSTEM; places from `count` on hold 0.
#[derive(Clone, Copy)]
pub struct Tracks {
    pub count: u16,
    pub system: u16,
    pub holders: [u8; MOST_TRACKS],
}

// How many of these tracks are h's.
fn count_of(held: &[u8], h: u8) -> usize
    ensures { result ≡ count_by (λ x. x == h) held.now }
{
    held.iter().filter(|x| **x == h).count()
}

// How many of the n tracks from `start` on are there and h's.
fn run_length(held: &[u8], start: usize, n: usize, h: u8) -> usize
    ensures { result ≡ count_by (λ x. x == h) (take n (drop start held.now)) }
{
    held.iter().skip(start).take(n).filter(|x| **x == h).count()
}

impl Tracks {
    pub const FREE: u8 = 0;

    pub const GLOBAL: u8 = 33;

    pub const SYSTEM: u8 = 34;

    // All tracks free but the first `own`, the system's.
    pub fn fresh(all: u16, own: u16) -> Tracks
        requires { Sizes all own }
        ensures { result ≡ table_of all own (replicate own system ++ replicate (all - own) nobody) }
    {
        let mut holders = [Tracks::FREE; MOST_TRACKS];
        holders[..own as usize].fill(Tracks::SYSTEM);
        Tracks {
            count: all,
            system: own,
            holders,
        }
    }

    // Whether n tracks from `start` on are there and all h's.
    pub fn run_at(self, h: u8, start: usize, n: usize) -> bool
        requires { Fit self }
        ensures { result ≡ run h n (drop start (holders self)) }
    {
        run_length(&self.holders[..self.count as usize], start, n, h) == n
    }

    // Where the lowest run of n free tracks begins. To follow it, keep two numbers: `track`, the track looked at, from 0 up, and `length`, how
    // many free tracks in a row end with it: the length of the run so far. docs/SEARCH.md goes through twelve tracks with a pencil.
    pub fn lowest_run(self, n: usize) -> Option<usize>
        requires { Fit self }
        ensures { found_is result ≡ lowest n 0 (holders self) }
    {
        let end = self.count as usize;
        // no tracks, or none asked for: nothing to count
        if end == 0 {
            return None;
        }
        if n == 0 {
            return Some(0);
        }
        let mut length: usize = 0;
        for track in 0..end {
            // a held track ends the run: the length is 0 again
            if self.holders[track] != Tracks::FREE {
                length = 0;
                continue;
            }
            // a free track makes it one longer; n tracks that end with this one begin n - 1 tracks back
            length += 1;
            if length == n {
                return Some(track + 1 - n);
            }
        }
        None
    }

    // n tracks from `start` on become h's.
    pub fn filled(self, start: usize, n: usize, h: u8) -> Tracks
        requires { HasTracks self start n }
        ensures { result ≡ table_of self.count self.system (filled start n h (holders self)) }
    {
        let mut holders = self.holders;
        holders[start..start + n].fill(h);
        Tracks { holders, ..self }
    }

    // All of p's tracks become h's.
    pub fn replace_all(self, p: u8, h: u8) -> Tracks
        requires { Fit self }
        ensures { result ≡ table_of self.count self.system (replaced p h (holders self)) }
    {
        let mut holders = self.holders;
        for x in &mut holders[..self.count as usize] {
            if *x == p {
                *x = h;
            }
        }
        Tracks { holders, ..self }
    }

    // How many tracks p holds.
    pub fn held_by(self, p: u8) -> usize
        requires { Fit self }
        ensures { result ≡ count p (holders self) }
    {
        count_of(&self.holders[..self.count as usize], p)
    }
}
