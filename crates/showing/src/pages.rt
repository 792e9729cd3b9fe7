// A page and what its reading came to, as they are shown.
ghost use Rattle.std.specs.Prelude.{◌+◌, ◌≤◌, ◌≡◌, ◌++◌, length};
ghost use Rattle.text.specs.Lines.{lines_of};
ghost use Rattle.rules.specs.Answers.{number, values};
ghost use Rattle.tables.specs.Calls.{told};
ghost use Rattle.transcripts.specs.Listing.{answered};
ghost use Rattle.showing.specs.Showing.{line_of_number, page_text, page_shown};
ghost use Rattle.showing.specs.Inner.{bad_text, read_shown, page_text_room};

use super::hand_over;
use arrayvec::ArrayVec;
use console::LONGEST_ANSWER;
use rules::Answer;
use tables::Outcome;
use text::writing::put_bytes;

// The longest name, and the longest text of a page.
pub const LONGEST_NAME: usize = 4095;

pub const LONGEST_PAGE: usize = 65536;
// The bytes of all that is shown of the longest page.
const PAGE_TEXT: usize = 69794;

// Line n of a text, from 1, as it stands, with a byte 10 behind it; nothing where there is none.
fn put_line_of(out: &mut ArrayVec<u8, PAGE_TEXT>, s: &[u8], n: u64)
    requires { length out.old.items + length (line_of_number n (lines_of s.now)) ≤ page_text_room }
    ensures { out.new.items ≡ out.old.items ++ line_of_number n (lines_of s.now) }
{
    // by places: what comes behind the last byte 10 of a text is no line, where the library's `split` gives one more part
    let mut from = 0;
    let mut left = n;
    while from < s.len() {
        if left == 0 {
            return;
        }
        let end = text::part_end(s, from, 10);
        if left == 1 {
            put_bytes(out, &s[from..end]);
            out.push(b'\n');
            return;
        }
        left -= 1;
        from = end + 1;
    }
}

// Behind 15 the line that is not well formed.
fn put_bad(out: &mut ArrayVec<u8, PAGE_TEXT>, s: &[u8], answer: Answer)
    requires { length out.old.items + length (bad_text s.now (number answer) (values answer)) ≤ page_text_room }
    ensures { out.new.items ≡ out.old.items ++ bad_text s.now (number answer) (values answer) }
{
    if let Answer::NotRead(n) = answer {
        put_line_of(out, s, n);
    }
}

// `NAME: answer=a,value=v`, and behind 15 the line.
fn put_page_text(out: &mut ArrayVec<u8, PAGE_TEXT>, name: &[u8], s: &[u8], answer: Answer)
    requires { length out.old.items + length (page_text name.now s.now (number answer) (values answer)) ≤ page_text_room }
    ensures { out.new.items ≡ out.old.items ++ page_text name.now s.now (number answer) (values answer) }
{
    put_bytes(out, name);
    put_bytes(out, b": ");
    let mut printed = [0u8; LONGEST_ANSWER];
    let n = console::print_answer(answer, &mut printed);
    put_bytes(out, &printed[..n]);
    put_bad(out, s, answer);
}

// A page that was read: what its reading comes to, and the answer of what is shown of it.
#[derive(Clone, Copy)]
pub struct Sheet {
    pub read: Outcome,
    pub shown: Answer,
}

// Puts what is shown of a page that was read at the front of `out`.
fn show_read(name: &[u8], page: &[u8], read: Answer, out: &mut [u8]) -> Answer
    ensures { answered result out.new
        ≡ read_shown name.now page.now (number read) (values read) out.old }
{
    if LONGEST_NAME < name.len() || LONGEST_PAGE < page.len() {
        return Answer::NotAllowed;
    }
    let mut shown = ArrayVec::<u8, PAGE_TEXT>::new();
    put_page_text(&mut shown, name, page, read);
    hand_over(shown.as_slice(), out)
}

// Reads a page, and puts what is shown of it at the front of `out`: 0 and how many bytes, or 12 and how many are needed. 3 where the name
// has more than 4,095 bytes, or the text more than 65,536.
pub fn show_page(name: &[u8], page: &[u8], out: &mut [u8]) -> Sheet
    ensures { record { read = told result.read; shown = answered result.shown out.new }
        ≡ page_shown name.now page.now out.old }
{
    let read = reader::read_page(page);
    let shown = show_read(name, page, read.answer, out);
    Sheet { read, shown }
}
