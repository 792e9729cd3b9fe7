// Resource numbers: RN ALLOC, LOCK, CLEAR and FREE.
ghost use Rattle.std.specs.Prelude.{◌≤◌, ◌≡◌, cond, ◌||◌, eqb};
ghost use Rattle.records.specs.Numbers.{globally};
ghost use Rattle.rules.specs.Plans.{View};
ghost use Rattle.rules.specs.Rules.{call};
ghost use Rattle.rules.specs.Requests.{ALLOC};
ghost use Rattle.decisions.specs.declared.numbering.Wanted.TheVariants.{Lock, Clear, Free};
ghost use Rattle.decisions.specs.Inner.{Decides, settled, CanAllocate, OfNumbers, Ours, of_number, wanted, waiting_of, may_free};

use super::{Decision, Effect, stay, waits};
use limits::GENERAL;
use records::{Numbers, Why};
use rules::Answer;

// What is wanted of a number that is allocated; to lock it, w says whether to wait.
#[derive(Clone, Copy)]
pub(crate) enum Wanted {
    Lock(u64),
    Clear,
    Free,
}

// Who owns a number that program c allocates.
fn owner_of(global: bool, c: u8) -> u8
    ensures { result ≡ cond global globally c }
{
    if global { Numbers::GLOBAL } else { c }
}

// Whether program c may free a number: its own or a global one, that nobody else has locked.
fn may_free(c: u8, owner: u8, lock: u8) -> bool
    ensures { result ≡ may_free c owner lock }
{
    (owner == c || owner == Numbers::GLOBAL) && (lock == c || lock == 0)
}

// RN ALLOC: the lowest free number becomes c's, or everybody's.
pub(crate) fn allocates(numbers: Numbers, c: u8, global: bool, w: u64) -> Result<Decision, Answer>
    requires { CanAllocate numbers c }
    ensures { (v : View) → OfNumbers v numbers → Decides v (call v c (ALLOC global w)) (settled result) }
{
    if 1 < w {
        return Err(Answer::NotAllowed);
    }
    let Some(r) = numbers.lowest_free() else {
        return waits(c, w, GENERAL, Why::Number);
    };
    Ok(Decision {
        answer: Answer::Done(r as u64),
        effect: Effect::Number(r, owner_of(global, c), 0),
    })
}

// RN LOCK of a number x that is allocated.
fn locks(c: u8, r: usize, w: u64, owner: u8, lock: u8) -> Result<Decision, Answer>
    requires { Ours c r }
    ensures { (v : View) → r ≤ v.book.numbers
        → Decides v (wanted v c r (Lock w) (record { owner = owner; lock = lock })) (settled result) }
{
    if lock == c {
        return Ok(stay(Answer::Done(r as u64)));
    }
    if lock == 0 {
        return Ok(Decision {
            answer: Answer::Done(r as u64),
            effect: Effect::Number(r, owner, c),
        });
    }
    waits(c, w, GENERAL, Why::Lock(r as u8))
}

// RN CLEAR of it.
fn clears(c: u8, r: usize, owner: u8, lock: u8) -> Result<Decision, Answer>
    requires { Ours c r }
    ensures { (v : View) → r ≤ v.book.numbers
        → Decides v (wanted v c r Clear (record { owner = owner; lock = lock })) (settled result) }
{
    if lock == 0 {
        return Ok(stay(Answer::Done(0)));
    }
    if lock != c {
        return Err(Answer::NotHolder);
    }
    Ok(Decision {
        answer: Answer::Done(0),
        effect: Effect::Release(r, owner, 0, false),
    })
}

// RN FREE of it.
fn frees(c: u8, r: usize, owner: u8, lock: u8) -> Result<Decision, Answer>
    requires { Ours c r }
    ensures { (v : View) → r ≤ v.book.numbers
        → Decides v (wanted v c r Free (record { owner = owner; lock = lock })) (settled result) }
{
    if !may_free(c, owner, lock) {
        return Err(Answer::NotHolder);
    }
    Ok(Decision {
        answer: Answer::Done(0),
        effect: Effect::Release(r, 0, 0, true),
    })
}

// How LOCK is to be answered where the number is locked: 0 where nothing is said of it.
fn waiting(q: Wanted) -> u64
    ensures { result ≡ waiting_of q }
{
    match q {
        Wanted::Lock(w) => w,
        Wanted::Clear | Wanted::Free => 0,
    }
}

// What is wanted of number r: it is one of ours, and allocated.
pub(crate) fn of_number(numbers: Numbers, c: u8, r: u64, q: Wanted) -> Result<Decision, Answer>
    requires { CanAllocate numbers c }
    ensures { (v : View) → OfNumbers v numbers → Decides v (of_number v c r q) (settled result) }
{
    if 1 < waiting(q) || r < 1 || (numbers.count as u64) < r {
        return Err(Answer::NotAllowed);
    }
    let k = r as usize;
    let x = numbers.number(k);
    if x.owner == 0 {
        return Err(Answer::NotAllocated);
    }
    match q {
        Wanted::Lock(w) => locks(c, k, w, x.owner, x.lock),
        Wanted::Clear => clears(c, k, x.owner, x.lock),
        Wanted::Free => frees(c, k, x.owner, x.lock),
    }
}
