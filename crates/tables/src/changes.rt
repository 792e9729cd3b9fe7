// What else a call changes: who holds the tracks, and the resource numbers.
ghost use Rattle.std.specs.Prelude.{[], ◌∷◌};
ghost use Rattle.records.specs.Numbers.{resources};
ghost use Rattle.tracks.specs.Tracks.{holders};
ghost use Rattle.rules.specs.Plans.{held, numbered};
ghost use Rattle.tables.specs.Inner.{Played, CanHold, CanNumber};

use super::Tables;
use ledger::Ledger;
use records::Numbers;
use tracks::Tracks;

impl Tables {
    // The tracks have other holders.
    pub(crate) fn held(self, tracks: Tracks) -> Tables
        requires { CanHold self tracks }
        ensures { Played self (held (holders tracks) ∷ []) result }
    {
        Tables {
            ledger: Ledger {
                tracks,
                ..self.ledger
            },
            ..self
        }
    }

    // The resource numbers are others.
    pub(crate) fn numbered(self, numbers: Numbers) -> Tables
        requires { CanNumber self numbers }
        ensures { Played self (numbered (resources numbers) ∷ []) result }
    {
        Tables {
            ledger: Ledger {
                numbers,
                ..self.ledger
            },
            ..self
        }
    }
}
