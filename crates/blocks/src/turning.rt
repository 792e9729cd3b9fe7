// A turn over the lines that end in a block.
ghost use Rattle.std.specs.Prelude.{◌≡◌};
ghost use Rattle.blocks.specs.Blocks.{turned};

use super::Turn;
use limits::PAGE_ROOM;
use rules::Answer;
use tables::{Outcome, Tables};

// Prints for line after line, from place `at` on, while 8,704 bytes are left of the lent buffer. The tables are handed on from
// outcome to outcome where they stand.
pub fn print_block(tables: Tables, block: &[u8], at: usize, out: &mut [u8]) -> Turn
    ensures { record { tables = result.tables; place = result.place; used = result.used; buffer = out.new }
        ≡ turned tables block.now at out.old }
{
    let mut last = Outcome {
        answer: Answer::Done(0),
        tables,
    };
    let mut from = at;
    let mut used: usize = 0;
    let mut end = console::line_end(block, from);
    while end < block.len() {
        if out.len() - used < PAGE_ROOM {
            let t = last.tables;
            return Turn {
                tables: t,
                place: from,
                used,
            };
        }
        last = console::print_line(last.tables, &block[from..end], &mut out[used..]);
        let answer = last.answer;
        used += console::bytes_printed(answer);
        from = end + 1;
        end = console::line_end(block, from);
    }
    let t = last.tables;
    Turn {
        tables: t,
        place: from,
        used,
    }
}
