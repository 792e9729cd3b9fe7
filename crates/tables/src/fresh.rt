// FRESH: new tables, which takes none.
ghost use Rattle.std.specs.Prelude.{◌≡◌};
ghost use Rattle.rules.specs.Keeper.{lists, fresh};
ghost use Rattle.tables.specs.Tables.{lay};
ghost use Rattle.tables.specs.Calls.{told, made};
ghost use Rattle.decisions.specs.Inner.{Sizes};

use super::{Outcome, Tables};
use chains::SLOTS;
use clock::Clock;
use ledger::Ledger;
use limits::{MOST_PROGRAMS, USUAL_YEAR};
use records::Numbers;
use rules::Answer;
use tracks::Tracks;

impl Tables {
    // FRESH: the smallest tables where the sizes or the start year are not allowed.
    pub fn fresh(tracks: u64, system: u64, numbers: u64, year: u64) -> Outcome
        ensures { told result ≡ made tracks system numbers year }
    {
        if decisions::may_start(tracks, system, numbers, year) {
            return Outcome {
                answer: Answer::Done(0),
                tables: Tables::empty(tracks as u16, system as u16, numbers as u8, year as u16),
            };
        }
        Outcome {
            answer: Answer::NotAllowed,
            tables: Tables::empty(1, 0, 0, USUAL_YEAR),
        }
    }

    // Clock 0 of that year, no record used, every track from `system` up and every number free.
    fn empty(tracks: u16, system: u16, numbers: u8, year: u16) -> Tables
        requires { Sizes tracks system numbers year }
        ensures { result ≡ lay (fresh lists tracks system numbers year) }
    {
        Tables {
            ledger: Ledger {
                programs: [records::unused_record(); MOST_PROGRAMS],
                clock: Clock::from_ticks(0, year),
                tracks: Tracks::fresh(tracks, system),
                numbers: Numbers::fresh(numbers),
            },
            links: [0; SLOTS],
        }
    }
}
