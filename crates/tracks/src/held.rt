// The tracks by the runs that one holder has.
ghost use Rattle.std.specs.Prelude.{take};
ghost use Rattle.tracks.specs.Inner.{Within, RunFrom};

use limits::MOST_TRACKS;

// Tracks `first` to `last`, which one holder has.
#[derive(Clone, Copy)]
pub struct Run {
    pub first: usize,
    pub last: usize,
    pub holder: u8,
}

// The run that begins at `first`, as long as it goes, of `count` tracks. The places come by reference: of tables by value the compiler
// makes a copy for each run.
pub fn run_in(places: &[u8; MOST_TRACKS], count: usize, first: usize) -> Run
    requires { Within count first }
    ensures { RunFrom (take count places.now) first result }
{
    // a slice, whose length is known: that of an array behind a reference is not
    let all = &places[..];
    let holder = all[first];
    let mut last = first;
    while last + 1 < count {
        if all[last + 1] != holder {
            return Run {
                first,
                last,
                holder,
            };
        }
        last += 1;
    }
    Run {
        first,
        last,
        holder,
    }
}
