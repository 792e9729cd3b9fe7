// TICK, and TICK,n: the clock moves on, and the timers that fall due on the way.
ghost use Rattle.std.specs.Prelude.{◌≡◌};
ghost use Rattle.lists.specs.Lists.{keep};
ghost use Rattle.records.specs.Records.{all};
ghost use Rattle.decisions.specs.Inner.{tick_events, starts_now};
ghost use Rattle.timers.specs.Inner.{passed};
ghost use Rattle.tables.specs.Calls.{told, many_ticks};
ghost use Rattle.tables.specs.Inner.{Says, CanPass, Moves, CanTick, CanTickOn, Counts, CanTickTo, TicksTo};
ghost use Rattle.tables.specs.Tables.{plain};

use super::{Counted, Outcome, Tables, asking};
use ledger::Ledger;
use limits::{MOST_PROGRAMS, SCHEDULED};
use records::Why;
use rules::Answer;
use timers::NoSpan;

impl Tables {
    // The clock stands at `now`, and every timer that fell due by then has moved on beyond it, or is gone.
    fn passed(self, now: u64) -> Tables
        requires { CanPass self now }
        ensures { Says result (passed now (plain self)) }
    {
        let mut programs = self.ledger.programs;
        for r in &mut programs {
            if timers::falls_due(*r, now) {
                *r = timers::moved(*r, now);
            }
        }
        let mut ledger = Ledger {
            programs,
            ..self.ledger
        };
        ledger.clock.ticks = now;
        Tables { ledger, ..self }
    }

    // The same, and then the dormant programs whose timers fell due are scheduled, by their numbers; how many they are.
    fn moved_to(self, now: u64) -> Counted
        requires { CanPass self now }
        ensures { Moves self now result.tables result.number }
    {
        let mut tables = self.passed(now);
        let mut number = 0;
        for p in 1..=MOST_PROGRAMS as u8 {
            if timers::starts(self.ledger.programs[p as usize - 1], now) {
                tables = tables.becomes(p, SCHEDULED, Why::Nothing);
                number += 1;
            }
        }
        Counted { tables, number }
    }

    // TICK, where the clock stands below its ceiling; how many programs it starts.
    pub(crate) fn ticked_on(self) -> Counted
        requires { CanTickOn self }
        ensures { Counts self (tick_events (plain self).book) (keep (starts_now (plain self).book) all) result.tables result.number }
    {
        self.moved_to(self.ledger.clock.ticks + 1)
    }

    // All ticks until the clock stands at `end`: a move for each moment at which programs start, and one for what is left. How many start.
    fn ticked_to(self, end: u64) -> Counted
        requires { CanTickTo self end }
        ensures { TicksTo self end result.tables result.number }
    {
        let mut now = self.ledger.clock.ticks;
        let mut tables = self;
        let mut number = 0;
        while now < end {
            now = timers::next_start(tables.ledger.programs, end);
            let moved = tables.moved_to(now);
            number += moved.number;
            tables = moved.tables;
        }
        Counted { tables, number }
    }

    // TICK,n on sound tables: n ticks, or none.
    fn ticked(self, n: u64) -> Outcome
        requires { CanTick self }
        ensures { told result ≡ many_ticks self n }
    {
        match timers::span_of(self.ledger.clock.ticks, n) {
            Err(NoSpan::NotAllowed) => self.refused(Answer::NotAllowed),
            Err(NoSpan::AtCeiling) => self.refused(Answer::AtCeiling),
            Ok(end) => asking::count_of(self.ticked_to(end)),
        }
    }

    // TICK,n: n ticks one after another; the number of programs that they start.
    pub fn ticks(self, n: u64) -> Outcome
        ensures { told result ≡ many_ticks self n }
    {
        let o = self.opened();
        if !o.sound {
            return self.refused(Answer::NotSound);
        }
        self.ticked(n)
    }
}
