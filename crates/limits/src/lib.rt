// The outline's figures, once for all crates: the states of a program, and how much
// there may be of each thing. The definitions have theirs in specs/Limits.antt.
#![tactic(auto)]

// The states that a program may be in.
pub const DORMANT: u8 = 0;

pub const SCHEDULED: u8 = 1;

pub const GENERAL: u8 = 3;

pub const DISC: u8 = 5;

pub const SUSPENDED: u8 = 6;

// Each state is below this.
pub const STATES: usize = 7;

// The records, the tracks and the resource numbers, at most.
pub const MOST_PROGRAMS: usize = 32;

pub const MOST_TRACKS: usize = 256;

pub const MOST_NUMBERS: usize = 16;

// The last number that a priority may have.
pub const LAST_PRIORITY: u16 = 32767;

// The units of a timer's multiple and of its offset, at most.
pub const MOST_UNITS: u64 = 4095;

// The ticks of one TICK,n, at most.
pub const MOST_TICKS: u64 = 100000000;

// The bytes of a line, at most; and the bytes that no page passes.
pub const LONGEST_LINE: usize = 72;

pub const PAGE_ROOM: usize = 8704;

// The years in which a clock may start, and the one in which it starts where none is said.
pub const FIRST_YEAR: u16 = 1970;

pub const LAST_YEAR: u16 = 2099;

pub const USUAL_YEAR: u16 = 1975;

// The digits of a number on a page, at most.
pub const PAGE_DIGITS: usize = 13;
