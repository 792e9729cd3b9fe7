// The console line: what it says, what it does, and what is printed for it.
#![tactic(auto)]

mod answers;
mod fields;
mod keying;
mod lines;
mod parse;
mod words;

pub use answers::{LONGEST_ANSWER, bytes_printed, number_of, print_answer};
pub use keying::{key_line, print_line};
pub use lines::line_end;
use rules::Request;

// What a line says: a wrong word, field count or field form is bad.
#[derive(Clone, Copy)]
pub enum Said {
    Bad,
    Page,
    Asks(Request),
    Ticks(u64),
}
