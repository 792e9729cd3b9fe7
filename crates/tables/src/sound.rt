// Whether tables are sound, of any that a caller hands in: also of links that cross, run in circles or lead nowhere.
ghost use Rattle.std.specs.Prelude.{◌≡◌, MatchOption, get_or};
ghost use Rattle.limits.specs.Limits.{scheduled, suspended};
ghost use Rattle.tracks.specs.Inner.{Tells};
ghost use Rattle.tables.specs.Sound.{sound};
ghost use Rattle.tables.specs.Walks.{Chained, of_program, AllOrdered, Walks, settled, Others, Rests};

use super::{Opening, Tables};
use chains::SLOTS;
use ledger::reviewed;
use limits::{DORMANT, MOST_PROGRAMS, SCHEDULED, STATES, SUSPENDED};

fn wide(x: u8) -> usize
    ensures { result ≡ x }
{
    x as usize
}

// Walks along the chains of states 1 to 6: a mark for each program that is met, or nothing where a chain is not in order. Each walk
// ends, since it meets none twice.
fn walk_chains(
    states: &[u8; MOST_PROGRAMS],
    priorities: &[u16; MOST_PROGRAMS],
    links: &[u8; SLOTS],
) -> Option<[u8; MOST_PROGRAMS]>
    ensures { MatchOption result (AllOrdered (of_program states.now) (of_program priorities.now) links.now suspended → ⊥)
        (Walks (of_program states.now) (of_program priorities.now) links.now) }
{
    let mut met: [u8; MOST_PROGRAMS] = [0; MOST_PROGRAMS];
    for state in SCHEDULED..=SUSPENDED {
        let mut least: u16 = 0;
        let mut n = wide(links[state as usize]);
        while n != 0 {
            if MOST_PROGRAMS < n || met[n - 1] != 0 || states[n - 1] != state {
                return None;
            }
            let priority = priorities[n - 1];
            if priority < least {
                return None;
            }
            met[n - 1] = 1;
            least = priority;
            n = wide(links[STATES + n]);
        }
    }
    Some(met)
}

// Whether a program that was not met has link 0, and no state that has a chain.
#[tactic(auto, unfolding(crate::specs::Walks::settled))]
fn is_settled(mark: u8, link: u8, state: u8) -> bool
    ensures { result ≡ settled mark link state }
{
    mark != 0 || (link == 0 && (state == DORMANT || SUSPENDED < state))
}

// Whether whoever was not met is settled.
fn others_settled(
    states: &[u8; MOST_PROGRAMS],
    links: &[u8; SLOTS],
    met: &[u8; MOST_PROGRAMS],
) -> bool
    ensures { Tells result (Others (of_program states.now) links.now met.now) }
{
    // A `for`, and no `all` over the range: the proof of that didn't close, by any set of lemmas for ranges.
    for p in 1..=MOST_PROGRAMS {
        if !is_settled(met[p - 1], links[STATES + p], states[p - 1]) {
            return false;
        }
    }
    true
}

// Whether the heads of no chain are 0 as well.
fn is_rest_settled(
    states: &[u8; MOST_PROGRAMS],
    links: &[u8; SLOTS],
    met: &[u8; MOST_PROGRAMS],
) -> bool
    ensures { Rests (of_program states.now) links.now met.now result }
{
    links[DORMANT as usize] == 0 && links[STATES] == 0 && others_settled(states, links, met)
}

// Whether the chains are as soundness asks.
fn chains_sound(
    states: &[u8; MOST_PROGRAMS],
    priorities: &[u16; MOST_PROGRAMS],
    links: &[u8; SLOTS],
) -> bool
    ensures { Chained states.now priorities.now links.now result }
{
    let Some(met) = walk_chains(states, priorities, links) else {
        return false;
    };
    is_rest_settled(states, links, &met)
}

impl Tables {
    // The test of the tables, whatever is handed in; and their caller, read off the same links.
    pub fn opened(self) -> Opening
        ensures { (result.sound ≡ sound self) × (result.caller ≡ get_or self.links scheduled 0) }
    {
        let caller = self.links[SCHEDULED as usize];
        let Some(review) = reviewed(self.ledger) else {
            return Opening {
                sound: false,
                caller,
            };
        };
        let sound = chains_sound(&review.states, &review.priorities, &self.links);
        Opening { sound, caller }
    }

    // Whether the tables are sound, whatever a caller hands in.
    pub fn is_sound(self) -> bool
        ensures { result ≡ sound self }
    {
        self.opened().sound
    }
}
