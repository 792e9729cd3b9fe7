// The lines of the original whose counterpart in the copy, the same key and the same occurrence, differs or is missing.
ghost use Rattle.std.specs.Prelude.{◌≡◌, [], ◌∷◌, ◌+◌, ◌≤◌, ◌<◌, length, take};
ghost use Rattle.std.proofs.Math.Seq.{slice};
ghost use Rattle.text.specs.Inner.{Wrote};
ghost use Rattle.transcripts.specs.Listing.{listed_lines, answered, listing, figuring};
ghost use Rattle.transcripts.specs.Inner.{SpanIn, held_at, KeyedLine, TakesTurn, TurnedApart, Width, cut, Fills, filled_by};

use super::lines;
use super::lines::Span;
use rules::Answer;

// One line of the original held against its counterpart: where it ends; whether it is listed, and where its counterpart begins, the copy's
// length where it has none; and the places up to which the lines of the two texts go together.
#[derive(Clone, Copy)]
pub(crate) struct Turn {
    end: usize,
    listed: bool,
    begins: usize,
    base: usize,
    other: usize,
}

// Whether a line is listed, and where its counterpart begins.
#[derive(Clone, Copy)]
pub(crate) struct Held {
    listed: bool,
    begins: usize,
}

// The line original[at..end] held against its counterpart in the copy.
fn hold(original: &[u8], at: usize, end: usize, copy: &[u8], span: Option<Span>) -> Held
    requires at_le_end { at ≤ end }
    requires end_in_bounds { end ≤ length original.now }
    requires span_in { SpanIn copy.now span }
    ensures { result ≡ held_at (slice at end original.now) copy.now span }
{
    match span {
        Some(span) => Held {
            listed: original[at..end] != copy[span.begins..span.ends],
            begins: span.begins,
        },
        None => Held {
            listed: true,
            begins: copy.len(),
        },
    }
}

// The line original[at..end], where its counterpart is not the next line with a key: it is counted off, behind the places up to which the
// two texts go together.
fn turn_apart(
    original: &[u8],
    copy: &[u8],
    at: usize,
    end: usize,
    key: &[u8],
    base: usize,
    other: usize,
) -> Turn
    requires at_le_end { at ≤ end }
    requires end_in_bounds { end ≤ length original.now }
    ensures { TurnedApart original.now copy.now at end key.now base other result }
{
    let n = lines::count_key(original, base, at, key);
    let span = lines::seek(copy, other, key, n);
    let held = hold(original, at, end, copy, span);
    Turn {
        end,
        listed: held.listed,
        begins: held.begins,
        base,
        other,
    }
}

// The line original[at..end], where the lines up to here and those of the copy up to `other` go together. Where the next line of the copy
// with a key has this line's, that is its counterpart, and both go on; where the key does not come any more, the original goes on alone.
fn turn_together(
    original: &[u8],
    copy: &[u8],
    at: usize,
    end: usize,
    key: &[u8],
    other: usize,
) -> Turn
    requires { KeyedLine original.now at end key.now }
    ensures { TakesTurn original.now copy.now at at other result }
{
    let next = lines::first_keyed(copy, other);
    if let Some(span) = next {
        if lines::has_key(&copy[span.begins..span.ends], key) {
            let held = hold(original, at, end, copy, next);
            return Turn {
                end,
                listed: held.listed,
                begins: held.begins,
                base: end + 1,
                other: span.ends + 1,
            };
        }
    }
    let span = lines::seek(copy, other, key, 0);
    let Some(_) = span else {
        return Turn {
            end,
            listed: true,
            begins: copy.len(),
            base: end + 1,
            other,
        };
    };
    turn_apart(original, copy, at, end, key, at, other)
}

// The line at `at` held against its counterpart. Lines before `base` and lines of the copy before `other` go together, key by key; so texts
// that have the same keys in the same order, but for lines that one of them has lost, are gone through once.
pub(crate) fn take_turn(original: &[u8], copy: &[u8], at: usize, base: usize, other: usize) -> Turn
    requires { at < length original.now }
    ensures { TakesTurn original.now copy.now at base other result }
{
    let end = text::part_end(original, at, 10);
    let line = &original[at..end];
    let key_end = text::part_end(line, 0, b'=');
    if key_end == line.len() {
        if base == at {
            return Turn {
                end,
                listed: false,
                begins: 0,
                base: end + 1,
                other,
            };
        }
        return Turn {
            end,
            listed: false,
            begins: 0,
            base,
            other,
        };
    }
    let key = &line[..key_end];
    if base == at {
        return turn_together(original, copy, at, end, key, other);
    }
    turn_apart(original, copy, at, end, key, base, other)
}

// Puts the first `width` of a line's three figures at `at`.
fn put_figures(
    list: &mut [u64],
    at: usize,
    width: usize,
    line: u64,
    begins: usize,
    other: usize,
) -> usize
    requires width { Width width }
    requires width_in_bounds { at + width ≤ length list.old }
    ensures { Wrote list.old at (take width (line ∷ begins ∷ other ∷ [])) list.new result }
{
    if width == 0 {
        return at;
    }
    list[at] = line;
    if width == 1 {
        return at + 1;
    }
    list[at + 1] = begins as u64;
    list[at + 2] = other as u64;
    at + 3
}

// Goes through the original once: hands back how many lines are listed, and puts the first `width` figures of each.
fn fill(original: &[u8], copy: &[u8], list: &mut [u64], width: usize) -> usize
    requires width { Width width }
    requires copy_in_bounds { length (cut width copy.now (listed_lines original.now copy.now)) ≤ length list.old }
    ensures { Fills width original.now copy.now list.old list.new result }
{
    let mut at: usize = 0;
    let mut base: usize = 0;
    let mut other: usize = 0;
    let mut line: u64 = 0;
    let mut put: usize = 0;
    let mut found: usize = 0;
    while at < original.len() {
        let t = take_turn(original, copy, at, base, other);
        line += 1;
        if t.listed {
            put = put_figures(list, put, width, line, at, t.begins);
            found += 1;
        }
        at = t.end + 1;
        base = t.base;
        other = t.other;
    }
    found
}

// Puts the first `width` figures of each line at the front of `list`: 0 and how many lines, or 12 and the places needed, nothing written.
fn put_listed(original: &[u8], copy: &[u8], list: &mut [u64], width: usize) -> Answer
    requires { Width width }
    ensures { answered result list.new ≡ filled_by width original.now copy.now list.old }
{
    let n = fill(original, copy, list, 0);
    let needed = n * width;
    if list.len() < needed {
        return Answer::TooShort(needed as u64);
    }
    fill(original, copy, list, width);
    Answer::Done(n as u64)
}

// Lists the lines at the front of `list`, by their numbers: 0 and how many, or 12 and the places needed, nothing written.
pub fn list(original: &[u8], copy: &[u8], list: &mut [u64]) -> Answer
    ensures { answered result list.new ≡ listing original.now copy.now list.old }
{
    put_listed(original, copy, list, 1)
}

// The same with three places of `list` for each line, for whoever shows them: its number, where it begins, and where its counterpart in the
// copy begins, the copy's length where it has none.
pub fn list_figures(original: &[u8], copy: &[u8], list: &mut [u64]) -> Answer
    ensures { answered result list.new ≡ figuring original.now copy.now list.old }
{
    put_listed(original, copy, list, 3)
}
