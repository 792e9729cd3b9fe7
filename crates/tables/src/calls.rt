// The public calls, each by itself: the operator's, TICK, and those of the running program.
ghost use Rattle.std.specs.Prelude.{◌≡◌};
ghost use Rattle.rules.specs.Requests.{LOAD, RU, SS, GO, PR, OF, operator, TICK, running, EXEC4, EXEC15, EXEC5, EXEC16, EXEC5ALL, EXEC6};
ghost use Rattle.rules.specs.Requests.{EXEC7, EXEC11, EXEC9, EXEC10, EXEC12, ALLOC, LOCK, CLEAR, FREE};
ghost use Rattle.rules.specs.Coded.{the_call};
ghost use Rattle.tables.specs.Calls.{told, asked};

use super::{Outcome, Tables};
use rules::{Call, Order, Request};

impl Tables {
    // LOAD: the lowest unused record takes the program.
    pub fn load(self, name: [u8; 5], priority: u64) -> Outcome
        ensures { told result ≡ asked self (LOAD name priority) }
    {
        self.ask(Request::Load(name, priority))
    }

    // RU: a dormant program is scheduled.
    pub fn ru(self, name: [u8; 5]) -> Outcome
        ensures { told result ≡ asked self (operator RU name) }
    {
        self.ask(Request::Operator(Order::Ru, name))
    }

    // SS: a scheduled program is suspended.
    pub fn ss(self, name: [u8; 5]) -> Outcome
        ensures { told result ≡ asked self (operator SS name) }
    {
        self.ask(Request::Operator(Order::Ss, name))
    }

    // GO: a suspended program goes on.
    pub fn go(self, name: [u8; 5]) -> Outcome
        ensures { told result ≡ asked self (operator GO name) }
    {
        self.ask(Request::Operator(Order::Go, name))
    }

    // PR: a new priority.
    pub fn pr(self, name: [u8; 5], n: u64) -> Outcome
        ensures { told result ≡ asked self (operator (PR n) name) }
    {
        self.ask(Request::Operator(Order::Pr(n), name))
    }

    // OF: a program ends; 8 removes it.
    pub fn off(self, name: [u8; 5], k: u64) -> Outcome
        ensures { told result ≡ asked self (operator (OF k) name) }
    {
        self.ask(Request::Operator(Order::Of(k), name))
    }

    // TICK: the number of programs that it starts.
    pub fn tick(self) -> Outcome
        ensures { told result ≡ asked self TICK }
    {
        self.ask(Request::Tick)
    }

    // What the running program asks.
    fn call(self, q: Call) -> Outcome
        ensures { told result ≡ asked self (running (the_call q)) }
    {
        self.ask(Request::Running(q))
    }

    // EXEC 4: the lowest run of n free tracks becomes the caller's; where there is none it waits, or is told.
    pub fn exec4(self, n: u64, w: u64) -> Outcome
        ensures { told result ≡ asked self (running (EXEC4 n w)) }
    {
        self.call(Call::Exec4(n, w))
    }

    // EXEC 15: the same, and the tracks are everybody's.
    pub fn exec15(self, n: u64, w: u64) -> Outcome
        ensures { told result ≡ asked self (running (EXEC15 n w)) }
    {
        self.call(Call::Exec15(n, w))
    }

    // EXEC 5: n tracks from `start` on, each of them the caller's, are given back.
    pub fn exec5(self, n: u64, start: u64) -> Outcome
        ensures { told result ≡ asked self (running (EXEC5 n start)) }
    {
        self.call(Call::Exec5(n, start))
    }

    // EXEC 16: n tracks from `start` on, each of them everybody's, are given back.
    pub fn exec16(self, n: u64, start: u64) -> Outcome
        ensures { told result ≡ asked self (running (EXEC16 n start)) }
    {
        self.call(Call::Exec16(n, start))
    }

    // EXEC 5 of all tracks that the caller holds.
    pub fn exec5_all(self) -> Outcome
        ensures { told result ≡ asked self (running EXEC5ALL) }
    {
        self.call(Call::Exec5All)
    }

    // EXEC 6: the caller ends, and keeps its tracks.
    pub fn exec6(self) -> Outcome
        ensures { told result ≡ asked self (running EXEC6) }
    {
        self.call(Call::Exec6)
    }

    // EXEC 7: the caller suspends itself.
    pub fn exec7(self) -> Outcome
        ensures { told result ≡ asked self (running EXEC7) }
    {
        self.call(Call::Exec7)
    }

    // EXEC 9: a son is scheduled, and the caller waits for it.
    pub fn exec9(self, name: [u8; 5]) -> Outcome
        ensures { told result ≡ asked self (running (EXEC9 name)) }
    {
        self.call(Call::Exec9(name))
    }

    // EXEC 10: a son is scheduled.
    pub fn exec10(self, name: [u8; 5]) -> Outcome
        ensures { told result ≡ asked self (running (EXEC10 name)) }
    {
        self.call(Call::Exec10(name))
    }

    // EXEC 11: the time.
    pub fn exec11(self) -> Outcome
        ensures { told result ≡ asked self (running EXEC11) }
    {
        self.call(Call::Exec11)
    }

    // EXEC 12: a timer, by its resolution, multiple and offset.
    pub fn exec12(self, name: [u8; 5], resolution: u64, multiple: u64, offset: u64) -> Outcome
        ensures { told result ≡ asked self (running (EXEC12 name resolution multiple offset)) }
    {
        self.call(Call::Exec12(name, resolution, multiple, offset))
    }

    // RN ALLOC: the lowest free number becomes the caller's, or everybody's.
    pub fn alloc(self, global: bool, w: u64) -> Outcome
        ensures { told result ≡ asked self (running (ALLOC global w)) }
    {
        self.call(Call::Alloc(global, w))
    }

    // RN LOCK: number r becomes locked by the caller.
    pub fn lock(self, r: u64, w: u64) -> Outcome
        ensures { told result ≡ asked self (running (LOCK r w)) }
    {
        self.call(Call::Lock(r, w))
    }

    // RN CLEAR: the caller's lock of number r is cleared.
    pub fn clear(self, r: u64) -> Outcome
        ensures { told result ≡ asked self (running (CLEAR r)) }
    {
        self.call(Call::Clear(r))
    }

    // RN FREE: number r is deallocated.
    pub fn free(self, r: u64) -> Outcome
        ensures { told result ≡ asked self (running (FREE r)) }
    {
        self.call(Call::Free(r))
    }
}
