// Whether one sheet can follow another: a page, request lines, and the next page.
#![tactic(auto)]

mod judging;

pub use judging::{Verdict, judge, key_lines};
