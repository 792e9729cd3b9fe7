// A request asked of any tables: they are tested, the request is decided, and what was decided is made.
ghost use Rattle.std.specs.Prelude.{◌≡◌};
ghost use Rattle.rules.specs.Coded.{the_request};
ghost use Rattle.tables.specs.Calls.{told, asked};
ghost use Rattle.tables.specs.Inner.{CanCarry, carried, counted};

use super::{Counted, Outcome, Tables};
use decisions::{Decision, Effect};
use rules::{Answer, Request};

// The answer is the number of those that were woken or started.
pub(crate) fn count_of(x: Counted) -> Outcome
    ensures { told result ≡ counted x.number x.tables }
{
    Outcome {
        answer: Answer::Done(x.number),
        tables: x.tables,
    }
}

impl Tables {
    // What was decided is made.
    fn carry(self, d: Decision) -> Outcome
        requires { CanCarry self d.effect }
        ensures { told result ≡ carried self d.answer d.effect }
    {
        let tables = match d.effect {
            Effect::Stay => self,
            Effect::Renew(t, s, r, y) => {
                return Tables::fresh(t as u64, s as u64, r as u64, y as u64);
            }
            Effect::Load(p, name, n) => self.loaded(p, name, n),
            Effect::Price(p, n) => self.priced(p, n),
            Effect::Time(p, due, interval) => self.timed(p, due, interval),
            Effect::Mark(p) => self.marked(p),
            Effect::Become(p, state, why) => self.becomes(p, state, why),
            Effect::Await(p, c) => self.awaited(p, c),
            Effect::Dismiss(p, k, n) => self.ended(p, k, n),
            Effect::End(p) => return count_of(self.ended_self(p)),
            Effect::Take(at, n, h) => self.taken(at, n, h),
            Effect::Give(at, n) => self.given(at, n),
            Effect::GiveAll(c, n) => self.given_all(c, n),
            Effect::Number(r, owner, lock) => self.with_number(r, owner, lock),
            Effect::Release(r, owner, lock, dealt) => {
                return count_of(self.released(r, owner, lock, dealt));
            }
            Effect::Tick => return count_of(self.ticked_on()),
        };
        Outcome {
            answer: d.answer,
            tables,
        }
    }

    // Any request.
    pub fn ask(self, q: Request) -> Outcome
        ensures { told result ≡ asked self (the_request q) }
    {
        let o = self.opened();
        if !o.sound {
            return self.refused(Answer::NotSound);
        }
        self.carry(decisions::decide(&self.ledger, o.caller, q))
    }

    // A refusal: the tables as they came.
    pub(crate) fn refused(self, answer: Answer) -> Outcome
        ensures { result ≡ record { answer = answer; tables = self } }
    {
        Outcome {
            answer,
            tables: self,
        }
    }
}
