// The page: what the tables say, in lines of key=value.
#![tactic(auto)]

pub mod keys;
mod lines;
mod sections;
mod values;

ghost use Rattle.std.specs.Prelude.{◌≡◌, ◌+◌, ◌≤◌, ◌++◌, length};
ghost use Rattle.limits.specs.Limits.{most_tracks, most_numbers, page_room};
ghost use Rattle.text.specs.Inner.{Wrote};
ghost use Rattle.tables.specs.Tables.{plain};
ghost use Rattle.tables.specs.Calls.{told};
ghost use Rattle.page.specs.Page.{page};
ghost use Rattle.rules.specs.Engine.{beside};
ghost use Rattle.page.specs.Paging.{paged};
ghost use Rattle.page.specs.Inner.{Fits, CanPage};

use arrayvec::ArrayVec;
use limits::PAGE_ROOM;
use rules::Answer;
use tables::{Outcome, Tables};

// Room for the page of any tables that have no more tracks and numbers than there can be, sound or not.
const WIDEST: usize = 32768;

// Puts the lines of the page of tables, sound or not.
pub fn put_lines<const N: usize>(out: &mut ArrayVec<u8, N>, tables: &Tables)
    requires tracks { tables.now.ledger.tracks.count ≤ most_tracks }
    requires numbers { tables.now.ledger.numbers.count ≤ most_numbers }
    requires room { length out.old.items + length (page (plain tables.now)) ≤ N }
    ensures { out.new.items ≡ out.old.items ++ page (plain tables.now) }
{
    let book = &tables.ledger;
    lines::put_heading(
        out,
        book.clock.ticks,
        book.tracks.count,
        book.tracks.system,
        book.numbers.count,
        book.clock.year,
        sections::count_used(&book.programs),
    );
    sections::put_records(out, &book.programs);
    sections::put_chains(out, tables.links);
    sections::put_runs(out, book.tracks);
    sections::put_resources(out, &book.numbers);
    text::writing::put_entry(out, &keys::END, &keys::PAGE);
}

// The page of tables.
pub fn page_of(tables: Tables) -> ArrayVec<u8, PAGE_ROOM>
    requires { Fits tables page_room }
    ensures { result.items ≡ page (plain tables) }
{
    let mut out = ArrayVec::new();
    put_lines(&mut out, &tables);
    out
}

// Puts the page at the front of a buffer that has room for it, and hands back its length. The tables need not be sound.
pub fn put_page(buf: &mut [u8], tables: Tables) -> usize
    requires { CanPage tables buf.old }
    ensures { Wrote buf.old 0 (page (plain tables)) buf.new result }
{
    let mut whole = ArrayVec::<u8, WIDEST>::new();
    put_lines(&mut whole, &tables);
    text::put_bytes(buf, 0, whole.as_slice())
}

// PAGE: the page at the front of the lent buffer, the rest of it untouched; where it is too short, nothing is written.
pub fn write_page(tables: Tables, buf: &mut [u8]) -> Outcome
    ensures { beside buf.new (told result) ≡ paged tables buf.old }
{
    let o = tables.opened();
    if !o.sound {
        return Outcome {
            answer: Answer::NotSound,
            tables,
        };
    }
    let mut page = ArrayVec::<u8, PAGE_ROOM>::new();
    put_lines(&mut page, &tables);
    let n = page.len();
    if buf.len() < n {
        return Outcome {
            answer: Answer::TooShort(n as u64),
            tables,
        };
    }
    buf[..n].copy_from_slice(page.as_slice());
    Outcome {
        answer: Answer::Done(n as u64),
        tables,
    }
}
