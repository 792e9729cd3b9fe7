// What a call sets free, and whose reason to wait is gone.
ghost use Rattle.std.specs.Prelude.{ℕ, ◌≤◌, ◌≡◌, Bool, take};
ghost use Rattle.limits.specs.Limits.{most_numbers};
ghost use Rattle.lists.specs.Lists.{keep, remove};
ghost use Rattle.records.specs.Records.{Known, record_at};
ghost use Rattle.records.specs.Inner.{Fit};
ghost use Rattle.rules.specs.Plans.{awaits};
ghost use Rattle.rules.specs.Rules.{frees, clears};
ghost use Rattle.chains.specs.Inner.{Lists};
ghost use Rattle.ledger.specs.Inner.{Releases, ending_of, Listed};

use super::Release;
use chains::Listing;
use limits::{MOST_NUMBERS, MOST_PROGRAMS};
use records::{Numbers, Program, Why};

impl Release {
    // n tracks are given back.
    pub fn of_tracks(n: usize) -> Release
        ensures { Releases result (frees n) }
    {
        Release {
            ended: 0,
            tracks: n,
            cleared: [false; MOST_NUMBERS],
            dealt: false,
        }
    }

    // Number r is cleared, or deallocated.
    pub fn of_number(r: usize, dealt: bool) -> Release
        requires { (1 ≤ r) × (r ≤ most_numbers) }
        ensures { Releases result (clears r dealt) }
    {
        let mut cleared = [false; MOST_NUMBERS];
        cleared[r - 1] = true;
        Release {
            ended: 0,
            tracks: 0,
            cleared,
            dealt,
        }
    }

    // p ends, and n tracks are freed.
    pub fn of_ending(numbers: Numbers, p: u8, n: usize) -> Release
        requires fit { Fit numbers }
        requires le_p { 1 ≤ p }
        ensures { Releases result (ending_of numbers p n) }
    {
        let mut cleared = [false; MOST_NUMBERS];
        for (i, x) in numbers.resources[..numbers.count as usize]
            .iter()
            .enumerate()
        {
            cleared[i] = x.concerns(p);
        }
        Release {
            ended: p,
            tracks: n,
            cleared,
            dealt: numbers.owns_any(p),
        }
    }

    // The reason to wait in chain 3 is gone.
    pub fn awaited(self, why: Why) -> bool
        ensures { (y : Rattle.rules.specs.Plans.Release) → Releases self y → result ≡ awaits y why }
    {
        match why {
            Why::Nothing | Why::Tracks(_) => false,
            Why::Son(k) => k != 0 && k == self.ended,
            Why::Lock(r) => {
                let k = r as usize;
                1 <= k && k <= MOST_NUMBERS && self.cleared[k - 1]
            }
            Why::Number => self.dealt,
        }
    }
}

// Those of the list that pass a test.
fn keep<F: Fn(u8) -> bool>(list: Listing, passes: F) -> Listing
    requires listed { Listed list.ids list.len }
    requires callable { (q : ℕ) → Known q → F.pre passes q }
    ensures { (t : ℕ → Bool) → ((q : ℕ) → Known q → (b : Bool) → F.post passes q b → b ≡ t q)
        → Lists result.ids result.len (keep t (take list.len list.ids)) }
{
    let mut kept = Listing::empty();
    for &q in list.as_slice() {
        if passes(q) {
            kept.push(q);
        }
    }
    kept
}

// The list without program p.
pub fn without(list: Listing, p: u8) -> Listing
    requires { Listed list.ids list.len }
    ensures { Lists result.ids result.len (remove p (take list.len list.ids)) }
{
    keep(list, |q| q != p)
}

// Those of the list whose reason to wait is gone.
pub fn sift(programs: &[Program; MOST_PROGRAMS], list: Listing, release: Release) -> Listing
    requires { Listed list.ids list.len }
    ensures { (y : Rattle.rules.specs.Plans.Release) → Releases release y
        → Lists result.ids result.len (keep (λ q. awaits y (record_at programs.now q).why) (take list.len list.ids)) }
{
    keep(list, |q| release.awaited(programs[q as usize - 1].why))
}
