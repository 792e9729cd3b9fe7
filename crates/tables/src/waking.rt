// Waking: the waits of the programs of a list are over, one by one.
ghost use Rattle.std.specs.Prelude.{take};
ghost use Rattle.rules.specs.Plans.{wake};
ghost use Rattle.tables.specs.Inner.{Played, CanWake};

use super::Tables;
use chains::Listing;

impl Tables {
    pub(crate) fn wake(self, list: Listing) -> Tables
        requires { CanWake self list.ids list.len }
        ensures { Played self (wake (take list.len list.ids)) result }
    {
        let mut t = self;
        for &p in list.as_slice() {
            t = t.waited(p);
        }
        t
    }
}
