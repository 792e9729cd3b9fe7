// The ending of a program.
ghost use Rattle.std.specs.Prelude.{◌∷◌, ◌++◌, map, take};
ghost use Rattle.limits.specs.Limits.{dormant};
ghost use Rattle.records.specs.Numbers.{resources, without};
ghost use Rattle.records.specs.declared.Why.TheVariants.{Nothing};
ghost use Rattle.tracks.specs.Tracks.{nobody, replaced};
ghost use Rattle.rules.specs.Plans.{on, becomes, held, numbered, wake, woken};
ghost use Rattle.rules.specs.Rules.{ends, dismissed};
ghost use Rattle.rules.proofs.shared.Settling.{settle};
ghost use Rattle.rules.specs.Keeper.{lists, view};
ghost use Rattle.tables.specs.Tables.{plain};
ghost use Rattle.tables.specs.Inner.{Played, CanTurn, CanSettle, CanEnd, Counts};

use super::{Counted, Tables, Waiters};
use ledger::Release;
use limits::DORMANT;
use records::Why;
use tracks::Tracks;

impl Tables {
    // OF 8 makes p's record unused; OF 1 makes it dormant without a timer.
    fn dismissed(self, p: u8, k: u64) -> Tables
        requires { CanTurn self p }
        ensures { Played self (dismissed k p) result }
    {
        if k == 8 {
            return self.unloaded(p);
        }
        self.becomes(p, DORMANT, Why::Nothing).timed(p, 0, 0)
    }

    // The rest of p's ending: its numbers are deallocated and its locks cleared, and those who waited wake.
    fn settled(self, p: u8, w: Waiters) -> Tables
        requires { CanSettle self w.disc.ids w.disc.len w.general.ids w.general.len }
        ensures { Played self (numbered (map (without p) (resources self.ledger.numbers))
            ∷ (wake (take w.disc.len w.disc.ids) ++ wake (take w.general.len w.general.ids))) result }
    {
        self.numbered(self.ledger.numbers.without(p)).roused(w)
    }

    // OF 1 and 8: p is dismissed, its n tracks are freed, and the rest of its ending.
    pub(crate) fn ended(self, p: u8, k: u64, n: usize) -> Tables
        requires { CanEnd self p n }
        ensures { Played self (dismissed k p ++ (held (replaced p nobody (plain self).book.holders)
            ∷ settle (view lists (plain self)) p (ends (view lists (plain self)) p n))) result }
    {
        let w = self.waiters(Release::of_ending(self.ledger.numbers, p, n));
        let gone = self.dismissed(p, k);
        let freed = gone.held(self.ledger.tracks.replace_all(p, Tracks::FREE));
        freed.settled(p, w)
    }

    // EXEC 6: p ends itself and keeps its tracks; how many it wakes.
    pub(crate) fn ended_self(self, p: u8) -> Counted
        requires { CanTurn self p }
        ensures { Counts self
            (on p (becomes dormant Nothing) ∷ settle (view lists (plain self)) p (ends (view lists (plain self)) p 0))
            (woken (view lists (plain self)) (ends (view lists (plain self)) p 0)) result.tables result.number }
    {
        let w = self.waiters(Release::of_ending(self.ledger.numbers, p, 0));
        let idle = self.becomes(p, DORMANT, Why::Nothing);
        let tables = idle.settled(p, w);
        Counted {
            tables,
            number: super::releasing::how_many(w),
        }
    }
}
