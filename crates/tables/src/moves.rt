// The steps that calls are made of: a program leaves its chain, enters one, has its record replaced; and the deeds made of these. Each step
// changes the tables where they are.
ghost use Rattle.std.specs.Prelude.{◌≡◌, [], ◌∷◌};
ghost use Rattle.limits.specs.Limits.{scheduled, general};
ghost use Rattle.records.specs.declared.Why.TheVariants.{Nothing, Son};
ghost use Rattle.records.specs.Records.{Known};
ghost use Rattle.rules.specs.Book.{at};
ghost use Rattle.rules.specs.Plans.{becomes, wakes, priced, loaded, unloaded, timed, marked, on};
ghost use Rattle.rules.specs.Keeper.{lists, leave, enter, amend};
ghost use Rattle.tables.specs.Tables.{plain};
ghost use Rattle.tables.specs.Inner.{Says, Played, CanTurn, CanJoin, CanAmend, CanBecome, CanAwait};

use super::Tables;
use limits::{DORMANT, GENERAL, SCHEDULED};
use records::{Program, Why};

impl Tables {
    // p's record.
    fn record_of(&self, p: u8) -> Program
        requires { Known p }
        ensures { result ≡ at (plain self.now).book p }
    {
        self.ledger.programs[p as usize - 1]
    }

    // p's record is replaced.
    fn amended(mut self, p: u8, r: Program) -> Tables
        requires { CanAmend self p r }
        ensures { Says result (amend lists p r (plain self)) }
    {
        self.ledger.programs[p as usize - 1] = r;
        self
    }

    // p leaves its chain and is dormant.
    fn left(mut self, p: u8) -> Tables
        requires { CanTurn self p }
        ensures { Says result (leave lists p (plain self)) }
    {
        let i = p as usize - 1;
        let r = self.ledger.programs[i];
        self.ledger.programs[i] = r.in_state(DORMANT, Why::Nothing);
        if r.state != DORMANT {
            self.links = chains::leave(self.links, r.state as usize, p);
        }
        self
    }

    // p, which stands in no chain, has this record from now on, and enters the chain of its state.
    fn entered(mut self, p: u8, x: Program) -> Tables
        requires { CanJoin self p x.state }
        ensures { Says result (enter lists p x (plain self)) }
    {
        self.ledger.programs[p as usize - 1] = x;
        if x.state != DORMANT {
            self.links = chains::enter(self.links, self.ledger.programs, x.state as usize, p);
        }
        self
    }

    // p takes a state for a reason.
    pub(crate) fn becomes(self, p: u8, state: u8, why: Why) -> Tables
        requires { CanBecome self p state }
        ensures { Played self (on p (becomes state why) ∷ []) result }
    {
        self.left(p)
            .entered(p, self.record_of(p).in_state(state, why))
    }

    // p's wait is over: it is scheduled, or suspended where its mark stood.
    pub(crate) fn waited(self, p: u8) -> Tables
        requires { CanTurn self p }
        ensures { Played self (on p wakes ∷ []) result }
    {
        self.left(p).entered(p, self.record_of(p).wait_over())
    }

    // p is sent off, and c waits for it.
    pub(crate) fn awaited(self, p: u8, c: u8) -> Tables
        requires { CanAwait p c self }
        ensures { Played self (on p (becomes scheduled Nothing) ∷ on c (becomes general (Son p)) ∷ []) result }
    {
        let t = self.becomes(p, SCHEDULED, Why::Nothing);
        t.becomes(c, GENERAL, Why::Son(p))
    }

    // p is priced anew, and enters its chain anew.
    pub(crate) fn priced(self, p: u8, n: u16) -> Tables
        requires { CanTurn self p }
        ensures { Played self (on p (priced n) ∷ []) result }
    {
        self.left(p).entered(p, self.record_of(p).with_priority(n))
    }

    // p's record takes a new program.
    pub(crate) fn loaded(self, p: u8, name: [u8; 5], n: u16) -> Tables
        requires { CanTurn self p }
        ensures { Played self (on p (loaded name n) ∷ []) result }
    {
        self.left(p).amended(p, records::newcomer(name, n))
    }

    // p's record is made unused.
    pub(crate) fn unloaded(self, p: u8) -> Tables
        requires { CanTurn self p }
        ensures { Played self (on p unloaded ∷ []) result }
    {
        self.left(p).amended(p, records::unused_record())
    }

    // p's timer is set, or goes where the due is 0.
    pub(crate) fn timed(self, p: u8, due: u64, interval: u64) -> Tables
        requires { CanTurn self p }
        ensures { Played self (on p (timed due interval) ∷ []) result }
    {
        self.amended(p, self.record_of(p).with_timer(due, interval))
    }

    // p's mark is set.
    pub(crate) fn marked(self, p: u8) -> Tables
        requires { CanTurn self p }
        ensures { Played self (on p marked ∷ []) result }
    {
        self.amended(p, self.record_of(p).with_mark())
    }
}
