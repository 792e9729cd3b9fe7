// What a request comes to, read off the book before anything changes: its answer, and the effect that is left to be made.
// Nothing here knows how chains are kept.
#![tactic(auto)]

mod deciding;
mod discs;
mod naming;
mod numbering;

ghost use Rattle.std.specs.Prelude.{◌≡◌};
ghost use Rattle.rules.specs.Plans.{View};
ghost use Rattle.rules.specs.Rules.{waits};
ghost use Rattle.decisions.specs.declared.Effect.TheVariants.{Stay};
ghost use Rattle.decisions.specs.Inner.{Decides, settled, CanWait};

pub use deciding::{decide, may_start};
use records::Why;
use rules::Answer;

// What is left to be made; p and c are programs.
#[derive(Clone, Copy)]
pub enum Effect {
    Stay,
    Renew(u16, u16, u8, u16),
    Load(u8, [u8; 5], u16),
    Price(u8, u16),
    Time(u8, u64, u64),
    Mark(u8),
    Become(u8, u8, Why),
    Await(u8, u8),
    Dismiss(u8, u64, usize),
    End(u8),
    Take(usize, usize, u8),
    Give(usize, usize),
    GiveAll(u8, usize),
    Number(usize, u8, u8),
    Release(usize, u8, u8, bool),
    Tick,
}

// The answer is the effect's own where that counts programs or makes new tables: End, Release, Tick and Renew.
#[derive(Clone, Copy)]
pub struct Decision {
    pub answer: Answer,
    pub effect: Effect,
}

// What is done without anything happening.
fn stay(answer: Answer) -> Decision
    ensures { result ≡ record { answer = answer; effect = Stay } }
{
    Decision {
        answer,
        effect: Effect::Stay,
    }
}

// A refusal leaves everything as it is.
fn settled(decided: Result<Decision, Answer>) -> Decision
    ensures { result ≡ settled decided }
{
    match decided {
        Ok(decision) => decision,
        Err(refusal) => stay(refusal),
    }
}

// c waits in a state for a reason, or is told that there is no room.
fn waits(c: u8, w: u64, state: u8, why: Why) -> Result<Decision, Answer>
    requires { CanWait c state }
    ensures { (v : View) → Decides v (waits c w state why) (settled result) }
{
    if w != 0 {
        return Err(Answer::NoRoom);
    }
    Ok(Decision {
        answer: Answer::Waits(state),
        effect: Effect::Become(c, state, why),
    })
}
