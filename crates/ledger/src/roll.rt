// All records: each by itself in one pass, which notes what is asked of one by another; then names and sons from the notes.
ghost use Rattle.std.specs.Prelude.{◌<◌, ◌≡◌, MatchOption};
ghost use Rattle.tracks.specs.Inner.{Tells};
ghost use Rattle.ledger.specs.Inner.{joined, name_code, slot_of, Fresh, Ended, Distinct, Marked, Sons, Awaited, Roster, Enrolled};

use super::entries::{record_fits, son_of};
use limits::MOST_PROGRAMS;
use records::Program;

// Of sound records: a mark for each used one; and their states and priorities.
#[derive(Clone, Copy)]
pub struct Roll {
    pub used: [u8; MOST_PROGRAMS],
    pub states: [u8; MOST_PROGRAMS],
    pub priorities: [u16; MOST_PROGRAMS],
}

fn join(a: u8, b: u8, c: u8, d: u8, e: u8) -> u64
    ensures { result ≡ joined a b c d e }
{
    let high = ((256 + a as u64) * 256 + b as u64) * 256 + c as u64;
    (high * 256 + d as u64) * 256 + e as u64
}

#[tactic(auto, unfolding(crate::specs::Inner::name_code))]
fn name_code(name: [u8; 5]) -> u64
    ensures { result ≡ name_code name }
{
    join(name[0], name[1], name[2], name[3], name[4])
}

// Where a key leaves its mark: equal keys leave it at one place.
#[tactic(auto, unfolding(crate::specs::Inner::slot_of))]
fn slot(key: u64) -> usize
    ensures { result ≡ slot_of key }
{
    (key % 251) as usize
}

// Whether the key at i is 0 or stands nowhere before it. Where no key has left a mark at its place there is nothing to look for.
fn is_new(keys: &[u64; MOST_PROGRAMS], i: usize, mark: u8) -> bool
    requires { Marked keys.now i mark }
    ensures { Tells result (Fresh keys.now i) }
{
    mark == 0 || keys[i] == 0 || !keys[..i].contains(&keys[i])
}

// Whether no two keys are the same, but zeros.
fn are_distinct(keys: &[u64; MOST_PROGRAMS], high: usize) -> bool
    requires { Ended keys.now high }
    ensures { Tells result (Distinct keys.now) }
{
    let mut seen = [0u8; 251];
    for (i, key) in keys[..high].iter().enumerate() {
        let h = slot(*key);
        if !is_new(keys, i, seen[h]) {
            return false;
        }
        seen[h] = 1;
    }
    true
}

// Whether each son that is awaited is live, and awaited once.
fn sons_ok(sons: &[u8; MOST_PROGRAMS], states: &[u8; MOST_PROGRAMS], high: usize) -> bool
    requires { Sons sons.now high }
    ensures { Tells result (Awaited sons.now states.now) }
{
    let mut met = [0u8; MOST_PROGRAMS];
    for &son in &sons[..high] {
        if son != 0 {
            let k = son as usize - 1;
            if states[k] == 0 || met[k] != 0 {
                return false;
            }
            met[k] = 1;
        }
    }
    true
}

// The records, one by one; then their names, and their sons. Nothing where they are not sound.
pub fn enrolled(
    programs: &[Program; MOST_PROGRAMS],
    ticks: u64,
    all: u16,
    numbers: u8,
) -> Option<Roll>
    ensures { MatchOption result (Roster ticks all numbers programs.now → ⊥) (Enrolled ticks all numbers programs.now) }
{
    let mut names = [0u64; MOST_PROGRAMS];
    let mut sons = [0u8; MOST_PROGRAMS];
    let mut states = [0u8; MOST_PROGRAMS];
    let mut priorities = [0u16; MOST_PROGRAMS];
    let mut used = [0u8; MOST_PROGRAMS];
    let mut high = 0;
    for (i, r) in programs.iter().enumerate() {
        if !record_fits(ticks, all, numbers, i + 1, *r) {
            return None;
        }
        if r.used {
            names[i] = name_code(r.name);
            sons[i] = son_of(r.why);
            states[i] = r.state;
            priorities[i] = r.priority;
            used[i] = 1;
            high = i + 1;
        }
    }
    if !are_distinct(&names, high) || !sons_ok(&sons, &states, high) {
        return None;
    }
    Some(Roll {
        used,
        states,
        priorities,
    })
}
