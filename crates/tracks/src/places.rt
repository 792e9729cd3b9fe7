// Tracks place by place, for who stores them elsewhere: all 256 places as they are, sound or not.
ghost use Rattle.std.specs.Prelude.{suc, ◌-◌, ◌≤◌, ◌<◌, ◌≡◌};
ghost use Rattle.limits.specs.Limits.{most_tracks};
ghost use Rattle.tracks.specs.Tracks.{places, table_at, filled};

use super::Tracks;
use limits::MOST_TRACKS;

impl Tracks {
    // The table of those places.
    pub fn from_places(count: u16, system: u16, holders: [u8; MOST_TRACKS]) -> Tracks
        ensures { result ≡ table_at count system holders }
    {
        Tracks {
            count,
            system,
            holders,
        }
    }

    // Who holds each place.
    pub fn places(self) -> [u8; MOST_TRACKS]
        ensures { result ≡ places self }
    {
        self.holders
    }
}

// The places from `first` to `last` become h's.
pub fn fill(places: &mut [u8; MOST_TRACKS], first: usize, last: usize, h: u8)
    requires first_le_last { first ≤ last }
    requires last_lt_most_tracks { last < most_tracks }
    ensures { places.new ≡ filled first (suc last - first) h places.old }
{
    places[first..last + 1].fill(h);
}
