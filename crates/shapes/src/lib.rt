// The values and the lines of a page, one at a time: from a place on, what stands there, or that no such thing does.
#![tactic(auto)]

pub mod lines;
pub mod values;
