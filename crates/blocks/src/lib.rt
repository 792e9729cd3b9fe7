// A text that comes in blocks: what the lines that end in a block print, and what is held of the line that goes on behind it.
#![tactic(auto)]

mod carrying;
mod turning;

pub use carrying::carry;
use tables::Tables;
pub use turning::print_block;

// What a turn over a block comes to: the tables, the place of the next line, and how many bytes were printed.
#[derive(Clone, Copy)]
pub struct Turn {
    pub tables: Tables,
    pub place: usize,
    pub used: usize,
}
