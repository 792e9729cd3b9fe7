// A line found by its key and its occurrence: a part of one of the two lent texts.
ghost use Rattle.std.specs.Prelude.{◌≡◌, length};
ghost use Rattle.transcripts.specs.Finding.{told, empty_front, sought, marked, within, PartAt};

use super::lines;
use super::lines::Span;
use rules::Answer;

// Which of the two texts.
#[derive(Clone, Copy)]
pub enum Mark {
    Original,
    Copy,
}

// A part of one of the two texts: which, where it begins, and where it ends.
#[derive(Clone, Copy)]
pub struct Place {
    pub mark: Mark,
    pub begins: usize,
    pub ends: usize,
}

// What a search comes to: the answer, and the part that is handed back.
#[derive(Clone, Copy)]
pub struct Located {
    pub answer: Answer,
    pub place: Place,
}

// The empty front of the original, which a refusal hands back.
fn empty_front() -> Place
    ensures { result ≡ empty_front }
{
    Place {
        mark: Mark::Original,
        begins: 0,
        ends: 0,
    }
}

// The line at a place of the text that a mark names.
fn found(mark: Mark, span: Span) -> Located
    ensures { result ≡ record { answer = Answer.Done 0; place = record { mark = mark; begins = span.begins; ends = span.ends } } }
{
    Located {
        answer: Answer::Done(0),
        place: Place {
            mark,
            begins: span.begins,
            ends: span.ends,
        },
    }
}

fn refuse(answer: Answer) -> Located
    ensures { result ≡ record { answer = answer; place = empty_front } }
{
    Located {
        answer,
        place: empty_front(),
    }
}

// Where the line with this key and occurrence, from 1, stands: in the original if it is there, else in the copy. 3 for an empty key or
// occurrence 0; 17 where it is in neither.
pub fn locate(original: &[u8], copy: &[u8], key: &[u8], occurrence: u64) -> Located
    ensures { told result ≡ sought original.now copy.now key.now occurrence }
{
    if key.is_empty() || occurrence == 0 {
        return refuse(Answer::NotAllowed);
    }
    if let Some(span) = lines::seek(original, 0, key, occurrence - 1) {
        return found(Mark::Original, span);
    }
    if let Some(span) = lines::seek(copy, 0, key, occurrence - 1) {
        return found(Mark::Copy, span);
    }
    refuse(Answer::InNeither)
}

// How many bytes the text has that a mark names.
fn limit_of(mark: Mark, original: &[u8], copy: &[u8]) -> usize
    ensures { result ≡ length (marked mark original.now copy.now) }
{
    match mark {
        Mark::Original => original.len(),
        Mark::Copy => copy.len(),
    }
}

// A place that does not lie within its text stands for the empty front of the original.
fn confine(original: &[u8], copy: &[u8], place: Place) -> Place
    ensures { result ≡ within original.now copy.now place }
{
    if place.ends < place.begins || limit_of(place.mark, original, copy) < place.ends {
        return empty_front();
    }
    place
}

// The part of one of the two texts that a place names.
pub fn part<'a>(original: &'a [u8], copy: &'a [u8], place: Place) -> &'a [u8]
    ensures { PartAt original.entry copy.entry place result }
{
    let p = confine(original, copy, place);
    match p.mark {
        Mark::Original => &original[p.begins..p.ends],
        Mark::Copy => &copy[p.begins..p.ends],
    }
}
