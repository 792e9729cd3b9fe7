// Whom a release wakes, and the effects that set something free or take it: tracks, and resource numbers.
ghost use Rattle.std.specs.Prelude.{◌+◌, ◌≡◌, [], ◌∷◌, ◌++◌, take};
ghost use Rattle.tracks.specs.Tracks.{nobody, holders, filled, replaced};
ghost use Rattle.rules.specs.Plans.{held, wake, woken, from_disc, from_general};
ghost use Rattle.rules.specs.Rules.{frees, clears, assigned};
ghost use Rattle.rules.specs.Keeper.{lists, view};
ghost use Rattle.chains.specs.Inner.{Lists};
ghost use Rattle.ledger.specs.Inner.{Releases};
ghost use Rattle.tables.specs.Tables.{plain};
ghost use Rattle.tables.specs.Inner.{Orderly, Played, CanSettle, CanHold, CanFill, CanPut, Counts, Awaits, Few};

use super::{Counted, Tables, Waiters};
use chains::Listing;
use ledger::Release;
use limits::{DISC, GENERAL};
use tracks::Tracks;

// How many they are.
pub(crate) fn how_many(w: Waiters) -> u64
    requires { Few w.disc.len w.general.len }
    ensures { result ≡ w.disc.len + w.general.len }
{
    (w.disc.len + w.general.len) as u64
}

impl Tables {
    // Where a track was freed, all of chain 5 but the one that ended.
    fn disc_waiters(&self, release: Release) -> Listing
        requires { Orderly self.now }
        ensures { (y : Rattle.rules.specs.Plans.Release) → Releases release y
            → Lists result.ids result.len (from_disc (view lists (plain self.now)) y) }
    {
        if release.tracks == 0 {
            return Listing::empty();
        }
        let list = chains::chain_of(self.links, DISC as usize);
        ledger::without(list, release.ended)
    }

    // Those of chain 3 whose reason to wait is gone, but not the one that ended.
    fn general_waiters(&self, release: Release) -> Listing
        requires { Orderly self.now }
        ensures { (y : Rattle.rules.specs.Plans.Release) → Releases release y
            → Lists result.ids result.len (from_general (view lists (plain self.now)) y) }
    {
        let list = chains::chain_of(self.links, GENERAL as usize);
        let rest = ledger::without(list, release.ended);
        ledger::sift(&self.ledger.programs, rest, release)
    }

    // Those whom a release wakes, read out before anything changes.
    pub(crate) fn waiters(&self, release: Release) -> Waiters
        requires { Orderly self.now }
        ensures { (y : Rattle.rules.specs.Plans.Release) → Releases release y → Awaits self.now y result.disc result.general }
    {
        Waiters {
            disc: self.disc_waiters(release),
            general: self.general_waiters(release),
        }
    }

    // They wake.
    pub(crate) fn roused(self, w: Waiters) -> Tables
        requires { CanSettle self w.disc.ids w.disc.len w.general.ids w.general.len }
        ensures { Played self (wake (take w.disc.len w.disc.ids) ++ wake (take w.general.len w.general.ids)) result }
    {
        self.wake(w.disc).wake(w.general)
    }

    // The tracks have other holders: n of them were freed, and who waits for tracks wakes.
    fn freed(self, tracks: Tracks, n: usize) -> Tables
        requires { CanHold self tracks }
        ensures { Played self (held (holders tracks) ∷ wake (woken (view lists (plain self)) (frees n))) result }
    {
        let w = self.waiters(Release::of_tracks(n));
        self.held(tracks).roused(w)
    }

    // n tracks from `at` on become h's.
    pub(crate) fn taken(self, at: usize, n: usize, h: u8) -> Tables
        requires { CanFill self at n }
        ensures { Played self (held (filled at n h (plain self).book.holders) ∷ []) result }
    {
        self.held(self.ledger.tracks.filled(at, n, h))
    }

    // n tracks from `at` on are given back.
    pub(crate) fn given(self, at: usize, n: usize) -> Tables
        requires { CanFill self at n }
        ensures { Played self
            (held (filled at n nobody (plain self).book.holders) ∷ wake (woken (view lists (plain self)) (frees n))) result }
    {
        self.freed(self.ledger.tracks.filled(at, n, Tracks::FREE), n)
    }

    // All of c's tracks, n of them, are given back.
    pub(crate) fn given_all(self, c: u8, n: usize) -> Tables
        requires { Orderly self }
        ensures { Played self
            (held (replaced c nobody (plain self).book.holders) ∷ wake (woken (view lists (plain self)) (frees n))) result }
    {
        self.freed(self.ledger.tracks.replace_all(c, Tracks::FREE), n)
    }

    // Number r has another owner and lock.
    pub(crate) fn with_number(self, r: usize, owner: u8, lock: u8) -> Tables
        requires { CanPut self r }
        ensures { Played self (assigned (view lists (plain self)) r owner lock ∷ []) result }
    {
        self.numbered(self.ledger.numbers.with_number(r, owner, lock))
    }

    // Number r is cleared or deallocated, and those wake who waited for that; how many.
    pub(crate) fn released(self, r: usize, owner: u8, lock: u8, dealt: bool) -> Counted
        requires { CanPut self r }
        ensures { Counts self
            (assigned (view lists (plain self)) r owner lock ∷ wake (woken (view lists (plain self)) (clears r dealt)))
            (woken (view lists (plain self)) (clears r dealt)) result.tables result.number }
    {
        let w = self.waiters(Release::of_number(r, dealt));
        Counted {
            tables: self.with_number(r, owner, lock).roused(w),
            number: how_many(w),
        }
    }
}
