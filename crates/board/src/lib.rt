// The executive on bytes, as callers in other languages have it: six functions. They trust nobody: whatever bytes they are handed, of
// whatever lengths, the contracts say what comes back. Crate board_c offers them to C, under the same names.
//
// All but board_sound hand back the answer's number. The answer itself goes to the front of `answer`, in 56 bytes: its number and six
// values of 8 bytes each, the lowest first. Fewer than 56 bytes are answered 12: nothing is done, and no byte is written. The values of
// board_find are 0, then 0 for the original or 1 for the copy, and where the line begins and ends there; that of board_list is how many
// lines it put, or, with 12, how many places these need.
#![tactic(auto)]

mod desk;
mod telling;

ghost use Rattle.std.specs.Prelude.{◌≡◌};
ghost use Rattle.board.specs.Board.{ran, boarded, soundly, read_back};

pub use desk::{board_find, board_list};
use limits::{PAGE_ROOM, USUAL_YEAR};
use rules::Answer;
use tables::Tables;

// The bytes of a text, at most.
const LONGEST_TEXT: usize = 281474976710656;

// Runs a whole console text from the smallest tables, as `sheet` does; a line's output is put where it and all before it fit.
// 0, and as values how many bytes the output has in all and how many were put; or 3, and `out` as it was, where the text has
// more than 2^48 bytes. 3 goes before 12.
pub fn board_run(text: &[u8], out: &mut [u8], answer: &mut [u8]) -> u64
    ensures { record { number = result; buffer = out.new; answer = answer.new }
        ≡ ran text.now out.old answer.old }
{
    if LONGEST_TEXT < text.len() {
        return telling::tell(answer, Answer::NotAllowed);
    }
    if answer.len() < telling::FIGURES_LENGTH {
        return 12;
    }
    let mut tables = Tables::fresh(1, 0, 0, USUAL_YEAR as u64).tables;
    let mut space = [0u8; PAGE_ROOM];
    let mut from: usize = 0;
    let mut used: usize = 0;
    let mut needed: u64 = 0;
    let mut is_full = false;
    while from < text.len() {
        let end = console::line_end(text, from);
        let printed = console::print_line(tables, &text[from..end], &mut space);
        tables = printed.tables;
        let n = console::bytes_printed(printed.answer);
        needed += n as u64;
        if is_full || out.len() - used < n {
            is_full = true;
        } else {
            out[used..used + n].copy_from_slice(&space[..n]);
            used += n;
        }
        from = end + 1;
    }
    telling::put_figures(answer, 0, [needed, used as u64, 0, 0, 0, 0]);
    0
}

// 1 where the bytes are tables in packed form that are sound, else 0.
pub fn board_sound(tables: &[u8]) -> u64
    ensures { result ≡ soundly tables.now }
{
    u64::from(packing::is_packed(tables) && packing::tables_at(tables).is_sound())
}

// One console line on tables in packed form, which are replaced by those after it. The line's own answer; or 14, and every byte of tables
// and page as it was, where the bytes are no tables in packed form or these are not sound. 14 goes before 12.
pub fn board_ask(tables: &mut [u8], line: &[u8], page: &mut [u8], answer: &mut [u8]) -> u64
    ensures { record { number = result; tables = tables.new; page = page.new; answer = answer.new }
        ≡ boarded tables.old line.now page.old answer.old }
{
    if !packing::is_packed(tables) {
        return telling::tell(answer, Answer::NotSound);
    }
    let t = packing::tables_at(tables);
    if answer.len() < telling::FIGURES_LENGTH {
        if t.is_sound() {
            return 12;
        }
        return 14;
    }
    let r = console::key_line(t, line, page);
    tables.copy_from_slice(packing::pack(&r.tables).as_slice());
    telling::tell(answer, r.answer)
}

// Reads a page back: the tables, in packed form, at the front of `tables`, the rest of it untouched. The reading's own answer, 0, or 15 and
// the line, with the smallest tables; or 12, and `tables` as it was, where fewer than 1,271 bytes are lent for these, value 1271.
pub fn board_read(page: &[u8], tables: &mut [u8], answer: &mut [u8]) -> u64
    ensures { record { number = result; tables = tables.new; answer = answer.new }
        ≡ read_back page.now tables.old answer.old }
{
    if answer.len() < telling::FIGURES_LENGTH {
        return 12;
    }
    if tables.len() < packing::PACKED_LENGTH {
        return telling::tell(answer, Answer::TooShort(1271));
    }
    let r = reader::read_page(page);
    tables[..packing::PACKED_LENGTH].copy_from_slice(packing::pack(&r.tables).as_slice());
    telling::tell(answer, r.answer)
}
