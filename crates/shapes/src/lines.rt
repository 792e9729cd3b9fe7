// The line at a place of a page: its key is compared, and its value read.
ghost use Rattle.std.specs.Prelude.{◌≤◌, ◌≡◌, true, length};
ghost use Rattle.shapes.specs.Shapes.{figure, figure_or_dash};
ghost use Rattle.shapes.specs.Inner.{unbroken, ValueAt, FigureAt, NameAt, ReasonAt, WordAt, RunAt, ResourceAt};

use super::values;
use super::values::{Resource, Run};
use page::keys;
use records::Why;

// Where the value of the line at a place begins and ends; none, where the line has another key or is not ended.
pub fn value_at(s: &[u8], at: usize, key: &[u8]) -> Option<(usize, usize)>
    requires at_in_bounds { at ≤ length s.now }
    requires key_value { unbroken key.now ≡ true }
    ensures { ValueAt s.now at key.now result }
{
    let from = values::word_to(s, at, key, b'=')?;
    let to = text::part_end(s, from, 10);
    if to == s.len() {
        return None;
    }
    Some((from, to))
}

// What the value of a line says, and the place of the next line.
pub fn figure_at(s: &[u8], at: usize, key: &[u8]) -> Option<(u64, usize)>
    requires at_in_bounds { at ≤ length s.now }
    requires key_value { unbroken key.now ≡ true }
    ensures { FigureAt figure s.now at key.now result }
{
    let from = values::word_to(s, at, key, b'=')?;
    values::figure_to(s, from, 10)
}

pub fn dashed_at(s: &[u8], at: usize, key: &[u8]) -> Option<(u64, usize)>
    requires at_in_bounds { at ≤ length s.now }
    requires key_value { unbroken key.now ≡ true }
    ensures { FigureAt figure_or_dash s.now at key.now result }
{
    let from = values::word_to(s, at, key, b'=')?;
    values::dashed_to(s, from, 10)
}

pub fn name_at(s: &[u8], at: usize, key: &[u8]) -> Option<([u8; 5], usize)>
    requires at_in_bounds { at ≤ length s.now }
    requires key_value { unbroken key.now ≡ true }
    ensures { NameAt s.now at key.now result }
{
    let (from, to) = value_at(s, at, key)?;
    let name = records::read_name(&s[from..to])?;
    Some((name, to + 1))
}

pub fn reason_at(s: &[u8], at: usize, key: &[u8]) -> Option<(Why, usize)>
    requires at_in_bounds { at ≤ length s.now }
    requires key_value { unbroken key.now ≡ true }
    ensures { ReasonAt s.now at key.now result }
{
    let from = values::word_to(s, at, key, b'=')?;
    values::reason_to(s, from)
}

// A line with one word for its value: the place of the next line.
pub fn word_at(s: &[u8], at: usize, key: &[u8], word: &[u8]) -> Option<usize>
    requires at_in_bounds { at ≤ length s.now }
    requires key_value { unbroken key.now ≡ true }
    requires word_value { unbroken word.now ≡ true }
    ensures { WordAt s.now at key.now word.now result }
{
    let from = values::word_to(s, at, key, b'=')?;
    values::word_to(s, from, word, 10)
}

// A line of what is held, and one of a resource number.
pub fn held_at(s: &[u8], at: usize) -> Option<(Run, usize)>
    requires { at ≤ length s.now }
    ensures { RunAt s.now at result }
{
    let from = values::word_to(s, at, &keys::HELD, b'=')?;
    values::run_to(s, from)
}

pub fn number_at(s: &[u8], at: usize) -> Option<(Resource, usize)>
    requires { at ≤ length s.now }
    ensures { ResourceAt s.now at result }
{
    let from = values::word_to(s, at, &keys::NUMBER, b'=')?;
    values::resource_to(s, from)
}
