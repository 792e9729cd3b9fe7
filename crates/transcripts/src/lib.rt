// The reading desk: two lent texts, the original's transcript and the copy's. It finds a line by its key, and lists the lines of the
// original whose counterpart in the copy differs or is missing. The texts may be damaged: any bytes are taken.
#![tactic(auto)]

mod finding;
mod handing;
mod lines;
mod listing;

pub use finding::{Located, Mark, Place, locate, part};
pub use handing::{Found, find};
pub use listing::{list, list_figures};
