// What is asked, and what a call answers. The rules themselves are definitions, and stand in specs/.
#![tactic(auto)]

use clock::Time;

// The cases of the outline's list of answers. A value stands with its case where the list gives one.
#[derive(Clone, Copy)]
pub enum Answer {
    Done(u64),
    Told(Time),
    Waits(u8),
    NoCaller,
    NotAllowed,
    NoProgram,
    WrongState(u8),
    NameInUse,
    AllUsed,
    NoRoom,
    NotHolder,
    NotAllocated,
    AtCeiling,
    TooShort(u64),
    NotUnderstood,
    NotSound,
    NotRead(u64),
    InNeither,
}

// What the operator asks of a program.
#[derive(Clone, Copy)]
pub enum Order {
    Ru,
    Ss,
    Go,
    Pr(u64),
    Of(u64),
}

// What the running program asks.
#[derive(Clone, Copy)]
pub enum Call {
    Exec4(u64, u64),
    Exec15(u64, u64),
    Exec5(u64, u64),
    Exec16(u64, u64),
    Exec5All,
    Exec6,
    Exec7,
    Exec11,
    Exec9([u8; 5]),
    Exec10([u8; 5]),
    Exec12([u8; 5], u64, u64, u64),
    Alloc(bool, u64),
    Lock(u64, u64),
    Clear(u64),
    Free(u64),
}

// Every request, with the name in it where it has one.
#[derive(Clone, Copy)]
pub enum Request {
    Fresh(u64, u64, u64, u64),
    Load([u8; 5], u64),
    Operator(Order, [u8; 5]),
    Tick,
    Running(Call),
}
