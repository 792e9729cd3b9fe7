// Chains of programs in one array of links: slot s, 0 to 6, is the head of the chain of state s, and slot
// 7 + p the link of program p. A link is the number of the program that comes next, or 0 for the end.
#![tactic(auto)]

ghost use Rattle.std.specs.Prelude.{◌≡◌, ◌+◌, ◌<◌, ◌≤◌, [], get_or, replicate, set, take};
ghost use Rattle.limits.specs.Limits.{most_programs};
ghost use Rattle.chains.specs.Links.{walk, read};
ghost use Rattle.chains.specs.Inner.{Laid, entered, left, prio_in, place, before, CanEnter, CanLeave, Lists};

use limits::{MOST_PROGRAMS, STATES};
use records::Program;

// Heads for the states 0 to 6, and links for the programs 0 to 32.
pub const SLOTS: usize = STATES + MOST_PROGRAMS + 1;

// The slot behind which p goes in the chain of the state: past all that come no later than it.
fn place_of(links: [u8; SLOTS], programs: [Program; MOST_PROGRAMS], state: usize, p: u8) -> usize
    requires { CanEnter links state p }
    ensures { result ≡ place (prio_in programs) p state (get_or (read links) state []) }
{
    let own = programs[p as usize - 1];
    let mine = own.priority;
    let mut at = state;
    let mut n = links[at] as usize;
    while n != 0 {
        let r = programs[n - 1];
        if mine < r.priority {
            return at;
        }
        at = STATES + n;
        n = links[at] as usize;
    }
    at
}

// Enter p in the chain of the state, behind its equals.
pub fn enter(
    links: [u8; SLOTS],
    programs: [Program; MOST_PROGRAMS],
    state: usize,
    p: u8,
) -> [u8; SLOTS]
    requires { CanEnter links state p }
    ensures { Laid result (entered (prio_in programs) state p (read links)) }
{
    let at = place_of(links, programs, state, p);
    let mut l = links;
    l[STATES + p as usize] = links[at];
    l[at] = p;
    l
}

// The slot that leads to p in the chain of the state.
fn before_of(links: [u8; SLOTS], state: usize, p: u8) -> usize
    requires { CanLeave links state p }
    ensures { result ≡ before p state (get_or (read links) state []) }
{
    let q = p as usize;
    let mut at = state;
    let mut n = links[at] as usize;
    while n != 0 {
        if n == q {
            return at;
        }
        at = STATES + n;
        n = links[at] as usize;
    }
    at
}

// Take p out of the chain of the state.
pub fn leave(links: [u8; SLOTS], state: usize, p: u8) -> [u8; SLOTS]
    requires { CanLeave links state p }
    ensures { Laid result (left state p (read links)) }
{
    let at = before_of(links, state, p);
    let own = STATES + p as usize;
    let mut l = links;
    l[at] = links[own];
    l[own] = 0;
    l
}

// What stands in a slot, and 0 past the end.
pub fn link(links: [u8; SLOTS], at: usize) -> u8
    ensures { result ≡ get_or links at 0 }
{
    if at < SLOTS { links[at] } else { 0 }
}

// Programs in order, 32 at most: the first `len` of `ids`.
#[derive(Clone, Copy)]
pub struct Listing {
    pub ids: [u8; MOST_PROGRAMS],
    pub len: usize,
    pub ghost within: { len ≤ most_programs },
}

impl Listing {
    pub fn empty() -> Listing
        ensures ids { result.ids ≡ replicate most_programs 0 }
        ensures len { result.len ≡ 0 }
    {
        Listing {
            ids: [0; MOST_PROGRAMS],
            len: 0,
        }
    }

    pub fn as_slice(&self) -> &[u8]
        ensures { result.now ≡ take self.now.len self.now.ids }
    {
        &self.ids[..self.len]
    }

    // p comes behind the others.
    pub fn push(&mut self, p: u8)
        requires { self.old.len < most_programs }
        ensures ids { self.new.ids ≡ set self.old.ids self.old.len p }
        ensures len { self.new.len ≡ self.old.len + 1 }
    {
        self.ids[self.len] = p;
        self.len += 1;
    }
}

// The chain that begins at a slot, as far as 32 programs: of any links.
pub fn chain_of(links: [u8; SLOTS], state: usize) -> Listing
    ensures { Lists result.ids result.len (walk links state most_programs) }
{
    let mut chain = Listing::empty();
    let mut at = state;
    for _ in 0..MOST_PROGRAMS {
        let n = link(links, at);
        if n == 0 {
            return chain;
        }
        chain.push(n);
        at = STATES + n as usize;
    }
    chain
}
