// What the programs share: reads and writes that wait for the other end, output that is gathered, and the arguments. No contract can say
// what a file or a terminal gives or takes; where a reader's or a writer's bytes are known, the contracts here say what becomes of them.
#![tactic(auto)]

mod arguments;
mod gathering;
mod saying;
mod waiting;

pub use arguments::{Argument, LONGEST_ARGUMENT, count_arguments, shown};
pub use gathering::{Outlet, Output, SPACE, Stopped};
pub use saying::{say_why, without_number};
pub use waiting::{ReadError, WriteError, read_some, read_whole, write_whole};

#[cfg(test)]
mod tests;
