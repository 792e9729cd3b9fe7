// How the sheet and the written page part, put piece by piece into a count or into a lent buffer.
ghost use Rattle.std.specs.Prelude.{◌+◌, ◌≤◌, ◌≡◌, ◌++◌, length};
ghost use Rattle.limits.specs.Limits.{page_room};
ghost use Rattle.comparing.specs.Verdicts.{sides};
ghost use Rattle.comparing.specs.Inner.{line_from, said_of, pieces, parted_at, parting_text, parts_text, piece_room};

use super::sink::Sink;
use arrayvec::ArrayVec;
use limits::PAGE_ROOM;
use rules::Answer;
use text::writing::{put_bytes, put_number};

// Of each listed line three figures, and no page has more than half as many lines with a byte each as it has bytes.
const LISTED: usize = PAGE_ROOM / 2 * 3;
// The bytes that are said of one line, with a page's for either side.
const PIECE: usize = 2 * PAGE_ROOM + 68;

// What is said of one line.
type Piece = ArrayVec<u8, PIECE>;

// `line N: X on the sheet, Y by the requests`.
#[tactic(auto, using(crate::proofs::DifferenceLaws::said_put), unfolding(crate::specs::Verdicts::sides))]
fn put_difference(out: &mut Piece, what: &[u8], n: u64, x: &[u8], y: &[u8])
    requires { length out.old.items + length (what.now ++ sides n x.now y.now) ≤ piece_room }
    ensures { out.new.items ≡ out.old.items ++ (what.now ++ sides n x.now y.now) }
{
    put_bytes(out, what);
    put_number(out, n);
    put_bytes(out, b": ");
    put_bytes(out, x);
    put_bytes(out, b" on the sheet, ");
    put_bytes(out, y);
    put_bytes(out, b" by the requests");
    out.push(b'\n');
}

// The line that begins at a place of a text, without its byte 10.
fn line_at(s: &[u8], begins: usize) -> &[u8]
    requires { begins ≤ length s.now }
    ensures { result.now ≡ line_from s.now begins }
{
    let end = console::line_end(s, begins);
    &s[begins..end]
}

// What is said of one listed line: its number, where it begins, and where its counterpart begins, the copy's length where it has none. The
// original is the page that was given, or the written one: of its lines something is said only where the sheet lacks them.
fn put_listed(
    out: &mut Piece,
    given: bool,
    original: &[u8],
    copy: &[u8],
    number: u64,
    begins: usize,
    other: usize,
)
    requires begins_in_bounds { begins ≤ length original.now }
    requires other_in_bounds { other ≤ length copy.now }
    requires room { length out.old.items + length (said_of given original.now copy.now number begins other) ≤ piece_room }
    ensures { out.new.items ≡ out.old.items ++ said_of given original.now copy.now number begins other }
{
    let line = line_at(original, begins);
    if given {
        if other == copy.len() {
            put_difference(out, b"line ", number, line, b"no such line");
        } else {
            put_difference(out, b"line ", number, line, line_at(copy, other));
        }
    } else if other == copy.len() {
        put_difference(out, b"written line ", number, b"no such line", line);
    }
}

// Puts what is said of each line of the original that the desk lists against the copy.
fn put_all_listed<S: Sink>(given: bool, original: &[u8], copy: &[u8], sink: &mut S)
    requires original_len_bound { length original.now ≤ page_room }
    requires copy_len_bound { length copy.now ≤ page_room }
    requires room { S.place sink.old + length (pieces given original.now copy.now) ≤ S.end sink.old }
    ensures { sink.new ≡ S.after sink.old (pieces given original.now copy.now) }
{
    let mut list = [0u64; LISTED];
    let Answer::Done(many) = transcripts::list_figures(original, copy, &mut list) else {
        return;
    };
    let mut piece = ArrayVec::new();
    let mut figures = &list[..3 * many as usize];
    while let [number, begins, other, rest @ ..] = figures {
        piece.clear();
        put_listed(
            &mut piece,
            given,
            original,
            copy,
            *number,
            *begins as usize,
            *other as usize,
        );
        sink.put(piece.as_slice());
        figures = rest;
    }
}

// What is said of line n of two texts, which begins at a in the sheet and at b in the written page, where it is there.
fn put_parted(out: &mut Piece, sheet: &[u8], a: usize, written: &[u8], b: usize, n: u64)
    requires { length out.old.items + length (parted_at sheet.now a written.now b n) ≤ piece_room }
    ensures { out.new.items ≡ out.old.items ++ parted_at sheet.now a written.now b n }
{
    if a < sheet.len() {
        let line = line_at(sheet, a);
        if b < written.len() {
            put_difference(out, b"line ", n, line, line_at(written, b));
        } else {
            put_difference(out, b"line ", n, line, b"no such line");
        }
    } else if b < written.len() {
        put_difference(out, b"line ", n, b"no such line", line_at(written, b));
    }
}

// Puts the first line at which the two part.
fn put_parting<S: Sink>(sheet: &[u8], written: &[u8], sink: &mut S)
    requires sheet_len_bound { length sheet.now ≤ page_room }
    requires written_len_bound { length written.now ≤ page_room }
    requires room { S.place sink.old + length (parting_text sheet.now written.now) ≤ S.end sink.old }
    ensures { sink.new ≡ S.after sink.old (parting_text sheet.now written.now) }
{
    let mut a: usize = 0;
    let mut b: usize = 0;
    let mut n: u64 = 1;
    while a < sheet.len() && b < written.len() {
        let end = text::part_end(sheet, a, 10);
        let there = text::part_end(written, b, 10);
        if sheet[a..end] != written[b..there] {
            break;
        }
        a = end + 1;
        b = there + 1;
        n += 1;
    }
    let mut piece = ArrayVec::new();
    put_parted(&mut piece, sheet, a, written, b, n);
    sink.put(piece.as_slice());
}

// Puts that the sheet of this name does not follow, and how the two part.
pub(crate) fn put_parts<S: Sink>(name: &[u8], sheet: &[u8], written: &[u8], sink: &mut S)
    requires sheet_len_bound { length sheet.now ≤ page_room }
    requires written_len_bound { length written.now ≤ page_room }
    requires room { S.place sink.old + length (parts_text name.now sheet.now written.now) ≤ S.end sink.old }
    ensures { sink.new ≡ S.after sink.old (parts_text name.now sheet.now written.now) }
{
    sink.put(name);
    sink.put(b": does not follow\n");
    let begun = sink.at();
    put_all_listed(true, sheet, written, sink);
    put_all_listed(false, written, sheet, sink);
    if sink.at() == begun {
        put_parting(sheet, written, sink);
    }
}
