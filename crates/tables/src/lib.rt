// The executive's tables, and what a call hands back.
#![tactic(auto)]

mod asking;
mod calls;
mod changes;
mod ending;
mod fresh;
mod moves;
mod releasing;
mod sound;
mod ticking;
mod waking;

use chains::{Listing, SLOTS};
use ledger::Ledger;
use rules::Answer;

// A caller may hand in anything: every call tests first whether the tables are sound.
#[derive(Clone, Copy)]
pub struct Tables {
    pub ledger: Ledger,
    pub links: [u8; SLOTS],
}

#[derive(Clone, Copy)]
pub struct Outcome {
    pub answer: Answer,
    pub tables: Tables,
}

// What every call begins with: whether the tables are sound, and who stands at the head of the scheduled chain, or 0.
#[derive(Clone, Copy)]
pub struct Opening {
    pub sound: bool,
    pub caller: u8,
}

// The tables, and how many programs were woken or started.
#[derive(Clone, Copy)]
pub struct Counted {
    pub tables: Tables,
    pub number: u64,
}

// Those who will wake: of chain 5, and of chain 3.
#[derive(Clone, Copy)]
pub struct Waiters {
    pub disc: Listing,
    pub general: Listing,
}
