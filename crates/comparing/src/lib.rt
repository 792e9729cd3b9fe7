// What is shown of a verdict: how the next sheet and the page that was written differ, put at the front of a lent buffer.
#![tactic(auto)]

mod differing;
mod sink;
mod verdicts;

pub use verdicts::show_verdict;
