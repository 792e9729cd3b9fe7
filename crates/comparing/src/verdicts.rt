// The verdict, as it is shown.
ghost use Rattle.std.specs.Prelude.{◌≤◌, ◌≡◌, true, length};
ghost use Rattle.limits.specs.Limits.{page_room};
ghost use Rattle.rules.specs.Engine.{beside};
ghost use Rattle.tables.specs.Sound.{sound};
ghost use Rattle.tables.specs.Calls.{told};
ghost use Rattle.reader.specs.Reading.{reading};
ghost use Rattle.transcripts.specs.Listing.{answered};
ghost use Rattle.following.specs.Following.{held_against};
ghost use Rattle.showing.specs.Showing.{longest_name, shown_in};
ghost use Rattle.comparing.specs.Verdicts.{verdict_text, verdict_shown};
ghost use Rattle.comparing.specs.Inner.{follows_text, parts_text};

use super::differing;
use super::sink::{Count, Lent};
use arrayvec::ArrayVec;
use limits::PAGE_ROOM;
use rules::Answer;
use showing::{LONGEST_NAME, LONGEST_PAGE};
use tables::{Outcome, Tables};
use text::writing::put_bytes;

// The bytes of the longest name, and of what is said of a page that follows.
const FOLLOWS: usize = 4105;

// The sheet of this name follows.
fn show_follows(name: &[u8], out: &mut [u8]) -> Answer
    requires { length name.now ≤ longest_name }
    ensures { answered result out.new ≡ shown_in (follows_text name.now) out.old }
{
    let mut shown = ArrayVec::<u8, FOLLOWS>::new();
    put_bytes(&mut shown, name);
    put_bytes(&mut shown, b": follows\n");
    showing::hand_over(shown.as_slice(), out)
}

// It does not, and how the two part: counted, then put.
fn show_parts(name: &[u8], sheet: &[u8], written: &[u8], out: &mut [u8]) -> Answer
    requires name_len_bound { length name.now ≤ longest_name }
    requires sheet_len_bound { length sheet.now ≤ page_room }
    requires written_len_bound { length written.now ≤ page_room }
    ensures { answered result out.new
        ≡ shown_in (parts_text name.now sheet.now written.now) out.old }
{
    let mut count = Count { at: 0 };
    differing::put_parts(name, sheet, written, &mut count);
    let n = count.at;
    if out.len() < n {
        return Answer::TooShort(n as u64);
    }
    let mut lent = Lent { out, at: 0 };
    differing::put_parts(name, sheet, written, &mut lent);
    Answer::Done(n as u64)
}

// What sound tables write, held against a page that is read.
fn show_held(tables: Tables, name: &[u8], next: &[u8], out: &mut [u8]) -> Answer
    requires tables_value { sound tables ≡ true }
    requires name_len_bound { length name.now ≤ longest_name }
    requires next_value { (reading next.now).number ≡ 0 }
    ensures { answered result out.new
        ≡ shown_in (verdict_text name.now (held_against tables next.now)) out.old }
{
    let mut written = ArrayVec::<u8, PAGE_ROOM>::new();
    page::put_lines(&mut written, &tables);
    if text::rest_is(next, 0, written.as_slice()) {
        return show_follows(name, out);
    }
    show_parts(name, next, written.as_slice(), out)
}

// Holds what tables write against the next page, and puts the verdict at the front of `out`: 0 and how many bytes, or 12 and how many are
// needed. 14 where the tables are not sound, 3 where the name has more than 4,095 bytes or the text more than 65,536, 15 where the next is
// no page. Where it is done, the tables are those of the page given: the next step goes on from there.
pub fn show_verdict(tables: Tables, name: &[u8], next: &[u8], out: &mut [u8]) -> Outcome
    ensures { beside out.new (told result) ≡ verdict_shown tables name.now next.now out.old }
{
    let o = tables.opened();
    if !o.sound {
        return Outcome {
            answer: Answer::NotSound,
            tables,
        };
    }
    if LONGEST_NAME < name.len() {
        return Outcome {
            answer: Answer::NotAllowed,
            tables,
        };
    }
    if LONGEST_PAGE < next.len() {
        return Outcome {
            answer: Answer::NotAllowed,
            tables,
        };
    }
    let given = reader::read_page(next);
    let read = given.answer;
    let after = given.tables;
    if console::number_of(read) != 0 {
        return Outcome {
            answer: read,
            tables,
        };
    }
    let shown = show_held(tables, name, next, out);
    if console::number_of(shown) != 0 {
        return Outcome {
            answer: shown,
            tables,
        };
    }
    Outcome {
        answer: shown,
        tables: after,
    }
}
