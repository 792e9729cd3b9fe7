// A program's record, why it waits, and a resource number.
#![tactic(auto)]

ghost use Rattle.std.specs.List.{position, list_all, prefix_len};
ghost use Rattle.std.specs.Prelude.{◌≡◌, ◌==◌, not, ◌<◌, IfSome, ◌&&◌, ◌||◌, map, ◌≤◌, eqb, length, drop, replicate};
ghost use Rattle.limits.specs.Limits.{most_numbers};
ghost use Rattle.lists.specs.Lists.{alike, any, every, first, from};
ghost use Rattle.records.specs.Names.{letter, digit, blank, legal, name_of};
ghost use Rattle.records.specs.Records.{unused, newcomer, in_state, with_priority, with_timer, with_mark, in_wait, wait_over};
ghost use Rattle.records.specs.Records.{find, lowest_unused};
ghost use Rattle.records.specs.Numbers.{free, resources, table_of, number_at, with_number, concerns, without};
ghost use Rattle.records.specs.Inner.{named, unless_0, Fit, Within};

use limits::{DISC, DORMANT, GENERAL, MOST_NUMBERS, MOST_PROGRAMS, SCHEDULED, SUSPENDED};

// Why a program waits: for tracks, how many; for its son, or for a lock, which; or for any number.
#[derive(Clone, Copy)]
pub enum Why {
    Nothing,
    Tracks(u16),
    Son(u8),
    Lock(u8),
    Number,
}

// A record. It has a timer exactly where due is not 0. The mark `suspend` sends a program that waits to the suspended ones once its wait is
// over.
#[derive(Clone, Copy)]
pub struct Program {
    pub used: bool,
    pub name: [u8; 5],
    pub priority: u16,
    pub state: u8,
    pub suspend: bool,
    pub why: Why,
    pub due: u64,
    pub interval: u64,
}

// A resource number: its owner is 0 where it is free, a program, or GLOBAL; its lock is 0 where it is clear, or a program.
#[derive(Clone, Copy)]
pub struct Resource {
    pub owner: u8,
    pub lock: u8,
}

// The table of resource numbers 1 to `count`; number r stands at r - 1.
#[derive(Clone, Copy)]
pub struct Numbers {
    pub count: u8,
    pub resources: [Resource; MOST_NUMBERS],
}

fn is_letter(c: u8) -> bool
    ensures { result ≡ letter c }
{
    c.is_ascii_uppercase()
}

fn is_letter_or_digit(c: u8) -> bool
    ensures { result ≡ (letter c || digit c) }
{
    is_letter(c) || c.is_ascii_digit()
}

// Letters and digits, and then blanks to the end.
fn is_rest(s: &[u8]) -> bool
    ensures { result ≡ list_all (λ c. c == 32) (drop (prefix_len (λ c. letter c || digit c) s.now) s.now) }
{
    s.iter()
        .skip_while(|c| is_letter_or_digit(**c))
        .all(|c| *c == b' ')
}

// A letter, letters or digits, and blanks at the end.
pub fn is_legal(name: [u8; 5]) -> bool
    ensures { result ≡ legal name }
{
    is_letter(name[0]) && is_rest(&name[1..])
}

// Those bytes as a name, blanks behind them; none where they are not one.
pub fn read_name(s: &[u8]) -> Option<[u8; 5]>
    ensures { named result ≡ name_of s.now }
{
    let mut name = [b' '; 5];
    if name.len() < s.len() || s.contains(&b' ') {
        return None;
    }
    name[..s.len()].copy_from_slice(s);
    if !is_legal(name) {
        return None;
    }
    Some(name)
}

// Whether two names have the same bytes.
pub fn same_name(a: [u8; 5], b: [u8; 5]) -> bool
    ensures { result ≡ alike a b }
{
    a == b
}

// The place of the first record in use that has the name; none where no record has it.
fn place_named(programs: &[Program], name: [u8; 5]) -> Option<usize>
    ensures place { result ≡ position (λ r. r.used && alike r.name name) programs.now }
    ensures within { IfSome result (λ i. i < length programs.now) }
{
    programs.iter().position(|r| r.is_named(name))
}

// The number of the program of that name.
pub fn find_program(programs: [Program; MOST_PROGRAMS], name: [u8; 5]) -> Option<u8>
    ensures { result ≡ unless_0 (find programs name) }
{
    place_named(&programs, name).map(|i| i as u8 + 1)
}

// The place of the first record that no program has; none where all are used.
fn place_unused(programs: &[Program]) -> Option<usize>
    ensures place { result ≡ position (λ r. not r.used) programs.now }
    ensures within { IfSome result (λ i. i < length programs.now) }
{
    programs.iter().position(|r| !r.used)
}

// The lowest number that no program has.
pub fn lowest_unused(programs: [Program; MOST_PROGRAMS]) -> Option<u8>
    ensures { result ≡ unless_0 (lowest_unused programs) }
{
    place_unused(&programs).map(|i| i as u8 + 1)
}

pub fn unused_record() -> Program
    ensures { result ≡ unused }
{
    Program {
        used: false,
        name: [0; 5],
        priority: 0,
        state: 0,
        why: Why::Nothing,
        due: 0,
        interval: 0,
        suspend: false,
    }
}

// A program just loaded.
pub fn newcomer(name: [u8; 5], priority: u16) -> Program
    ensures { result ≡ newcomer name priority }
{
    Program {
        used: true,
        name,
        priority,
        state: DORMANT,
        why: Why::Nothing,
        due: 0,
        interval: 0,
        suspend: false,
    }
}

impl Program {
    fn is_named(self, name: [u8; 5]) -> bool
        ensures { result ≡ (self.used && alike self.name name) }
    {
        self.used && same_name(self.name, name)
    }

    // The mark goes with the state that it stood in.
    pub fn in_state(self, state: u8, why: Why) -> Program
        ensures { result ≡ in_state state why self }
    {
        Program {
            state,
            why,
            suspend: false,
            ..self
        }
    }

    pub fn with_priority(mut self, n: u16) -> Program
        ensures { result ≡ with_priority n self }
    {
        self.priority = n;
        self
    }

    pub fn with_timer(mut self, due: u64, interval: u64) -> Program
        ensures { result ≡ with_timer due interval self }
    {
        self.due = due;
        self.interval = interval;
        self
    }

    pub fn with_mark(mut self) -> Program
        ensures { result ≡ with_mark self }
    {
        self.suspend = true;
        self
    }

    // Its wait is over: scheduled, or suspended where its mark stood.
    pub fn wait_over(self) -> Program
        ensures { result ≡ wait_over self }
    {
        let state = if self.suspend { SUSPENDED } else { SCHEDULED };
        self.in_state(state, Why::Nothing)
    }
}

// Whether a program in that state waits.
pub fn in_wait(state: u8) -> bool
    ensures { result ≡ in_wait state }
{
    state == GENERAL || state == DISC
}

impl Resource {
    pub fn free() -> Resource
        ensures { result ≡ free }
    {
        Resource { owner: 0, lock: 0 }
    }

    // Whether p owns or locks the number.
    pub fn concerns(self, p: u8) -> bool
        ensures { result ≡ concerns p self }
    {
        self.owner == p || self.lock == p
    }

    // What is left of the number when p ends.
    pub fn without(mut self, p: u8) -> Resource
        ensures { result ≡ without p self }
    {
        if self.owner == p {
            return Resource::free();
        }
        if self.lock == p {
            self.lock = 0;
        }
        self
    }
}

impl Numbers {
    // The owner of a number that is allocated globally.
    pub const GLOBAL: u8 = 33;

    // `count` free numbers.
    pub fn fresh(count: u8) -> Numbers
        requires { count ≤ most_numbers }
        ensures { result ≡ table_of count (replicate count free) }
    {
        let free = Resource::free();
        let resources = [free; MOST_NUMBERS];
        Numbers { count, resources }
    }

    pub fn number(self, r: usize) -> Resource
        requires { Within self r }
        ensures { result ≡ number_at (resources self) r }
    {
        self.resources[r - 1]
    }

    // The place of the first number that p owns, among the `count` there are; none where it owns none.
    fn place_owned(self, p: u8) -> Option<usize>
        requires { Fit self }
        ensures place { result ≡ position (λ x. eqb x.owner p) (resources self) }
        ensures within { IfSome result (λ i. i < length (resources self)) }
    {
        self.resources[..self.count as usize]
            .iter()
            .position(|x| x.owner == p)
    }

    // The lowest number that p owns; nobody owns a free one.
    fn lowest_of(self, p: u8) -> Option<usize>
        requires { Fit self }
        ensures { result ≡ unless_0 (first (λ r. eqb (number_at (resources self) r).owner p) (from 1 self.count)) }
    {
        self.place_owned(p).map(|i| i + 1)
    }

    // The lowest free number.
    pub fn lowest_free(self) -> Option<usize>
        requires { Fit self }
        ensures { result ≡ unless_0 (first (λ r. eqb (number_at (resources self) r).owner 0) (from 1 self.count)) }
    {
        self.lowest_of(0)
    }

    pub fn with_number(mut self, r: usize, owner: u8, lock: u8) -> Numbers
        requires { Within self r }
        ensures { result ≡ table_of self.count (with_number r owner lock (resources self)) }
    {
        self.resources[r - 1] = Resource { owner, lock };
        self
    }

    // The numbers when p ends.
    pub fn without(self, p: u8) -> Numbers
        requires { Fit self }
        ensures { result ≡ table_of self.count (map (without p) (resources self)) }
    {
        let mut resources = self.resources;
        for x in &mut resources {
            *x = x.without(p);
        }
        Numbers { resources, ..self }
    }

    pub fn owns_any(self, p: u8) -> bool
        requires { Fit self }
        ensures { result ≡ any (λ r. eqb (number_at (resources self) r).owner p) (from 1 self.count) }
    {
        self.lowest_of(p).is_some()
    }
}
