// What values say: from a place up to the mark that ends them, or, of a chain, a whole text.
ghost use Rattle.std.specs.Prelude.{◌≡◌, false, ◌≤◌, length, set};
ghost use Rattle.lists.specs.Lists.{up_to};
ghost use Rattle.text.specs.Inner.{read};
ghost use Rattle.shapes.specs.Shapes.{figure, figure_or_dash, party_of};
ghost use Rattle.shapes.specs.Inner.{byte, two_bytes, coded_by, ChainRead};
ghost use Rattle.shapes.specs.Inner.{FigureTo, WordTo, ReasonTo, RunTo, ResourceTo};

use chains::SLOTS;
use limits::{PAGE_DIGITS, STATES};
use page::keys;
use records::{Numbers, Why};

// A run of tracks as a line says it: the first and the last track, which may be none of these tracks, and the holder.
#[derive(Clone, Copy)]
pub struct Run {
    pub first: u64,
    pub last: u64,
    pub holder: u8,
}

// A resource number as a line says it, which may be none of these numbers, its owner and its lock.
#[derive(Clone, Copy)]
pub struct Resource {
    pub number: u64,
    pub owner: u8,
    pub lock: u8,
}

// A number in a byte, or in two: the largest that these hold where it is larger.
pub fn byte(n: u64) -> u8
    ensures { result ≡ byte n }
{
    n.min(255) as u8
}

pub fn two_bytes(n: u64) -> u16
    ensures { result ≡ two_bytes n }
{
    n.min(65535) as u16
}

// A word, with the mark behind it: the place behind the mark.
pub fn word_to(s: &[u8], from: usize, word: &[u8], mark: u8) -> Option<usize>
    requires { from ≤ length s.now }
    ensures { WordTo word.now mark s.now from result }
{
    let end = text::behind(s, from, s.len(), word)?;
    if end == s.len() || s[end] != mark {
        return None;
    }
    Some(end + 1)
}

// A number, with the mark behind it: the number, and the place behind the mark.
pub fn figure_to(s: &[u8], from: usize, mark: u8) -> Option<(u64, usize)>
    requires from_in_bounds { from ≤ length s.now }
    requires mark_value { up_to 48 57 mark ≡ false }
    ensures { FigureTo figure mark s.now from result }
{
    let digits = text::digits_from(s, from, PAGE_DIGITS);
    let end = digits.end;
    if end == from || end == s.len() || s[end] != mark {
        return None;
    }
    if from + 1 < end && s[from] == b'0' {
        return None;
    }
    Some((digits.value, end + 1))
}

// A number, or a dash where there is none.
pub fn dashed_to(s: &[u8], from: usize, mark: u8) -> Option<(u64, usize)>
    requires from_in_bounds { from ≤ length s.now }
    requires mark_value { up_to 48 57 mark ≡ false }
    ensures { FigureTo figure_or_dash mark s.now from result }
{
    match word_to(s, from, &keys::NONE, mark) {
        Some(next) => Some((0, next)),
        None => figure_to(s, from, mark),
    }
}

// A holder or an owner.
fn party_to(s: &[u8], from: usize, mark: u8) -> Option<(u64, usize)>
    requires from_in_bounds { from ≤ length s.now }
    requires mark_value { up_to 48 57 mark ≡ false }
    ensures { FigureTo party_of mark s.now from result }
{
    match word_to(s, from, &keys::GLOBAL, mark) {
        Some(next) => Some((Numbers::GLOBAL as u64, next)),
        None => figure_to(s, from, mark),
    }
}

// A number behind a word.
fn coded_to(s: &[u8], from: usize, word: &[u8], mark: u8) -> Option<(u64, usize)>
    requires from_in_bounds { from ≤ length s.now }
    requires mark_value { up_to 48 57 mark ≡ false }
    ensures { FigureTo (coded_by word.now) mark s.now from result }
{
    let i = text::behind(s, from, s.len(), word)?;
    figure_to(s, i, mark)
}

// Why a program waits, with byte 10 behind it.
pub fn reason_to(s: &[u8], from: usize) -> Option<(Why, usize)>
    requires { from ≤ length s.now }
    ensures { ReasonTo s.now from result }
{
    if let Some(next) = word_to(s, from, &keys::NONE, 10) {
        return Some((Why::Nothing, next));
    }
    if let Some((n, next)) = coded_to(s, from, &keys::FOR_TRACKS, 10) {
        return Some((Why::Tracks(two_bytes(n)), next));
    }
    if let Some((k, next)) = coded_to(s, from, &keys::FOR_SON, 10) {
        return Some((Why::Son(byte(k)), next));
    }
    if let Some((r, next)) = coded_to(s, from, &keys::FOR_LOCK, 10) {
        return Some((Why::Lock(byte(r)), next));
    }
    let next = word_to(s, from, &keys::FOR_NUMBER, 10)?;
    Some((Why::Number, next))
}

// first-last:holder
pub fn run_to(s: &[u8], from: usize) -> Option<(Run, usize)>
    requires { from ≤ length s.now }
    ensures { RunTo s.now from result }
{
    let (first, a) = figure_to(s, from, b'-')?;
    let (last, b) = figure_to(s, a, b':')?;
    let (holder, next) = party_to(s, b, 10)?;
    let run = Run {
        first,
        last,
        holder: byte(holder),
    };
    Some((run, next))
}

// r:owner:lock
pub fn resource_to(s: &[u8], from: usize) -> Option<(Resource, usize)>
    requires { from ≤ length s.now }
    ensures { ResourceTo s.now from result }
{
    let (number, a) = figure_to(s, from, b':')?;
    let (owner, b) = party_to(s, a, b':')?;
    let (lock, next) = dashed_to(s, b, 10)?;
    let resource = Resource {
        number,
        owner: byte(owner),
        lock: byte(lock),
    };
    Some((resource, next))
}

fn read_figure(s: &[u8]) -> Option<u64>
    ensures { read result ≡ figure s.now }
{
    text::read_number(s, PAGE_DIGITS)
}

// A slot of the links, where there is such a slot, holds p.
fn put_link(links: &mut [u8; SLOTS], slot: usize, p: u8)
    ensures { links.new ≡ set links.old slot p }
{
    if slot < SLOTS {
        links[slot] = p;
    }
}

// The programs of a chain, joined by commas, put into the links from a slot on; none where the text is no chain.
pub fn read_chain(s: &[u8], links: [u8; SLOTS], state: usize) -> Option<[u8; SLOTS]>
    ensures { ChainRead s.now links state result }
{
    let mut laid = links;
    let mut slot = state;
    if !s.is_empty() {
        for part in s.split(|b| *b == b',') {
            let p = byte(read_figure(part)?);
            put_link(&mut laid, slot, p);
            slot = STATES + p as usize;
        }
    }
    put_link(&mut laid, slot, 0);
    Some(laid)
}
