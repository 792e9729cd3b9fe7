// Tracks asked for, and given back: EXEC 4, 15, 5 and 16.
ghost use Rattle.tracks.specs.Inner.{Fit};
ghost use Rattle.rules.specs.Plans.{View};
ghost use Rattle.rules.specs.Rules.{takes, gives, call};
ghost use Rattle.rules.specs.Requests.{EXEC5ALL};
ghost use Rattle.decisions.specs.Inner.{Decides, settled, CanTake, OfTracks};

use super::{Decision, Effect, waits};
use limits::DISC;
use records::Why;
use rules::Answer;
use tracks::Tracks;

// EXEC 4 and 15: the lowest run of n free tracks becomes h's.
pub(crate) fn takes(tracks: Tracks, c: u8, h: u8, n: u64, w: u64) -> Result<Decision, Answer>
    requires { CanTake tracks c }
    ensures { (v : View) → OfTracks v tracks → Decides v (takes v c h n w) (settled result) }
{
    if n == 0 || (tracks.count as u64) < n || 1 < w {
        return Err(Answer::NotAllowed);
    }
    let size = n as usize;
    let Some(i) = tracks.lowest_run(size) else {
        return waits(c, w, DISC, Why::Tracks(n as u16));
    };
    Ok(Decision {
        answer: Answer::Done(i as u64),
        effect: Effect::Take(i, size, h),
    })
}

// EXEC 5 and 16: n tracks from `start` on, each of them h's, are given back.
pub(crate) fn gives(tracks: Tracks, h: u8, n: u64, start: u64) -> Result<Decision, Answer>
    requires { Fit tracks }
    ensures { (v : View) → OfTracks v tracks → Decides v (gives v h n start) (settled result) }
{
    let all = tracks.count as u64;
    if n == 0 || all < n || all - n < start {
        return Err(Answer::NotAllowed);
    }
    let size = n as usize;
    let from = start as usize;
    if !tracks.run_at(h, from, size) {
        return Err(Answer::NotHolder);
    }
    Ok(Decision {
        answer: Answer::Done(n),
        effect: Effect::Give(from, size),
    })
}

// EXEC 5 of all tracks that c holds.
pub(crate) fn gives_all(tracks: Tracks, c: u8) -> Decision
    requires { Fit tracks }
    ensures { (v : View) → OfTracks v tracks → Decides v (call v c EXEC5ALL) result }
{
    let n = tracks.held_by(c);
    Decision {
        answer: Answer::Done(n as u64),
        effect: Effect::GiveAll(c, n),
    }
}
