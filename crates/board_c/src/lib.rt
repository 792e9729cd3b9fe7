// The functions of crate board for callers in other languages, under the same names and with the same clauses. In C, where a slice is a
// pointer and its length, in bytes but for `list`, whose length is in places of 8 bytes:
//
//     uint64_t board_run(const uint8_t *text, size_t, uint8_t *out, size_t, uint8_t *answer, size_t);
//     uint64_t board_ask(uint8_t *tables, size_t, const uint8_t *line, size_t, uint8_t *page, size_t, uint8_t *answer, size_t);
//     uint64_t board_sound(const uint8_t *tables, size_t);
//     uint64_t board_read(const uint8_t *page, size_t, uint8_t *tables, size_t, uint8_t *answer, size_t);
//     uint64_t board_find(const uint8_t *original, size_t, const uint8_t *copy, size_t, const uint8_t *key, size_t, uint64_t occurrence,
//         uint8_t *answer, size_t);
//     uint64_t board_list(const uint8_t *original, size_t, const uint8_t *copy, size_t, uint64_t *list, size_t, uint8_t *answer, size_t);
//
// What no contract can say, the caller sees to: each pointer is valid for its length, for writing too where it is not const, and aligned
// for its type; bytes that are lent for writing overlap no others that are handed in; and nothing else writes to any of them before the
// call returns. What is handed back, and where, stands in crates/board/src.
#![tactic(auto)]

ghost use Rattle.std.specs.Prelude.{◌≡◌};
ghost use Rattle.board.specs.Board.{ran, boarded, soundly, read_back};
ghost use Rattle.board.specs.Desk.{found_by, listed_by};

// A whole console text from the smallest tables.
#[unsafe(no_mangle)]
pub extern "C" fn board_run(text: &[u8], out: &mut [u8], answer: &mut [u8]) -> u64
    ensures { record { number = result; buffer = out.new; answer = answer.new }
        ≡ ran text.now out.old answer.old }
{
    board::board_run(text, out, answer)
}

// Whether bytes are tables in packed form that are sound.
#[unsafe(no_mangle)]
pub extern "C" fn board_sound(tables: &[u8]) -> u64
    ensures { result ≡ soundly tables.now }
{
    board::board_sound(tables)
}

// One console line on tables in packed form.
#[unsafe(no_mangle)]
pub extern "C" fn board_ask(
    tables: &mut [u8],
    line: &[u8],
    page: &mut [u8],
    answer: &mut [u8],
) -> u64
    ensures { record { number = result; tables = tables.new; page = page.new; answer = answer.new }
        ≡ boarded tables.old line.now page.old answer.old }
{
    board::board_ask(tables, line, page, answer)
}

// A page read back, into tables in packed form.
#[unsafe(no_mangle)]
pub extern "C" fn board_read(page: &[u8], tables: &mut [u8], answer: &mut [u8]) -> u64
    ensures { record { number = result; tables = tables.new; answer = answer.new }
        ≡ read_back page.now tables.old answer.old }
{
    board::board_read(page, tables, answer)
}

// A line looked for in two texts.
#[unsafe(no_mangle)]
pub extern "C" fn board_find(
    original: &[u8],
    copy: &[u8],
    key: &[u8],
    occurrence: u64,
    answer: &mut [u8],
) -> u64
    ensures { record { number = result; answer = answer.new }
        ≡ found_by original.now copy.now key.now occurrence answer.old }
{
    board::board_find(original, copy, key, occurrence, answer)
}

// The lines of the original whose counterpart in the copy differs or is missing.
#[unsafe(no_mangle)]
pub extern "C" fn board_list(
    original: &[u8],
    copy: &[u8],
    list: &mut [u64],
    answer: &mut [u8],
) -> u64
    ensures { record { number = result; list = list.new; answer = answer.new }
        ≡ listed_by original.now copy.now list.old answer.old }
{
    board::board_list(original, copy, list, answer)
}
