// The verdict on a page, lines and a page.
ghost use Rattle.std.specs.Prelude.{ℕ, ◌≡◌, true, [], ◌∷◌};
ghost use Rattle.text.specs.Lines.{lines_of};
ghost use Rattle.rules.specs.Answers.{number, values};
ghost use Rattle.tables.specs.Sound.{sound};
ghost use Rattle.blocks.specs.Blocks.{tables_after};
ghost use Rattle.following.specs.Following.{held_against, verdict, briefly};

use arrayvec::ArrayVec;
use limits::PAGE_ROOM;
use rules::Answer;
use tables::Tables;

// The first is no page, or the next is none, each with the value of its refusal; the next follows; or it does not.
#[derive(Clone, Copy)]
pub enum Verdict {
    NoFirst(u64),
    NoNext(u64),
    Follows,
    DoesNotFollow,
}

// The tables after the lines of a text, obeyed one after another.
pub fn key_lines(tables: Tables, requests: &[u8]) -> Tables
    ensures { result ≡ tables_after tables (lines_of requests.now) }
{
    let mut t = tables;
    let mut at: usize = 0;
    while at < requests.len() {
        let end = text::part_end(requests, at, 10);
        let mut space = [0u8; PAGE_ROOM];
        t = console::key_line(t, &requests[at..end], &mut space).tables;
        at = end + 1;
    }
    t
}

// The value of a page that is not read.
fn bad_line(answer: Answer) -> u64
    ensures { (n : ℕ) → number answer ≡ 15 → values answer ≡ n ∷ [] → result ≡ n }
{
    match answer {
        Answer::NotRead(n) => n,
        _ => 0,
    }
}

// What sound tables write, held against the next page.
pub(crate) fn hold(tables: Tables, next: &[u8]) -> Verdict
    requires { sound tables ≡ true }
    ensures { result ≡ briefly (held_against tables next.now) }
{
    let given = reader::read_page(next);
    if console::number_of(given.answer) != 0 {
        return Verdict::NoNext(bad_line(given.answer));
    }
    let mut written = ArrayVec::<u8, PAGE_ROOM>::new();
    page::put_lines(&mut written, &tables);
    if text::rest_is(next, 0, written.as_slice()) {
        return Verdict::Follows;
    }
    Verdict::DoesNotFollow
}

// The verdict on a page, the lines of a text, and a page.
pub fn judge(first: &[u8], requests: &[u8], next: &[u8]) -> Verdict
    ensures { result ≡ briefly (verdict first.now (lines_of requests.now) next.now) }
{
    let read = reader::read_page(first);
    if console::number_of(read.answer) != 0 {
        return Verdict::NoFirst(bad_line(read.answer));
    }
    let after = key_lines(read.tables, requests);
    hold(after, next)
}
