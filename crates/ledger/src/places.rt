// Who may hold tracks and own or lock numbers; and every place of the numbers, the blank ones too.
ghost use Rattle.std.specs.Prelude.{◌≤◌, ◌≡◌};
ghost use Rattle.limits.specs.Limits.{most_numbers};
ghost use Rattle.tracks.specs.Inner.{Tells, Serves};
ghost use Rattle.ledger.specs.Inner.{strange, Strangers, Sits, Seated, Bare, AllBare, Unowned, Numbered};

use limits::{MOST_NUMBERS, MOST_PROGRAMS};
use records::{Numbers, Resource};

// The mark of a program that is not used.
#[tactic(auto, unfolding(crate::specs::Inner::strange))]
fn stranger(used: u8) -> u8
    ensures { result ≡ strange used }
{
    if used == 0 { 1 } else { 0 }
}

// A mark for each number that is neither 0, nor a used program's, nor GLOBAL.
pub fn strangers(used: &[u8; MOST_PROGRAMS]) -> [u8; 256]
    ensures { Strangers used.now result }
{
    let mut marks = [1u8; 256];
    marks[0] = 0;
    marks[Numbers::GLOBAL as usize] = 0;
    for (i, u) in used.iter().enumerate() {
        marks[i + 1] = stranger(*u);
    }
    marks
}

// A number of ours: no stranger owns or locks it, no lock is GLOBAL, and a free one is clear.
fn number_fits(x: Resource, marks: &[u8; 256]) -> bool
    ensures { Tells result (Sits (Serves marks.now) x) }
{
    marks[x.owner as usize] == 0
        && marks[x.lock as usize] == 0
        && x.lock != Numbers::GLOBAL
        && (x.owner != 0 || x.lock == 0)
}

fn ours_ok(count: usize, resources: &[Resource; MOST_NUMBERS], marks: &[u8; 256]) -> bool
    requires { count ≤ most_numbers }
    ensures { Tells result (Seated count (Serves marks.now) resources.now) }
{
    resources[..count].iter().all(|x| number_fits(*x, marks))
}

// Nobody owns or locks the number; and so with all of them.
fn is_blank(x: Resource) -> bool
    ensures { Tells result (Bare x) }
{
    x.owner == 0 && x.lock == 0
}

fn are_blank(numbers: &[Resource]) -> bool
    ensures { Tells result (AllBare numbers.now) }
{
    numbers.iter().all(|x| is_blank(*x))
}

// Nobody owns or locks a number behind them.
fn rest_ok(count: usize, resources: &[Resource; MOST_NUMBERS]) -> bool
    requires { count ≤ most_numbers }
    ensures { Tells result (Unowned count resources.now) }
{
    are_blank(&resources[count..])
}

// Every place of the numbers.
pub fn numbers_ok(count: usize, resources: &[Resource; MOST_NUMBERS], marks: &[u8; 256]) -> bool
    requires { count ≤ most_numbers }
    ensures { Tells result (Numbered count (Serves marks.now) resources.now) }
{
    ours_ok(count, resources, marks) && rest_ok(count, resources)
}
