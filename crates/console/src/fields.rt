// The fields of a line. A place is where a field begins; past the line's end there is none.
ghost use Rattle.std.specs.Prelude.{◌≤◌, length};
ghost use Rattle.limits.specs.Limits.{longest_line};
ghost use Rattle.console.specs.Inner.{NumbersRead, NameRead};

use limits::USUAL_YEAR;

const YEAR: u64 = USUAL_YEAR as u64;

// k numbers, or one less where the last may be left away, and no field behind them; the usual year in the place of each of four that there is
// not. None, where they are too few or too many, or a field is no number.
pub(crate) fn read_numbers(s: &[u8], at: usize, k: usize, spare: bool) -> Option<[u64; 4]>
    requires { length s.now ≤ longest_line }
    ensures { NumbersRead s.now at k spare result }
{
    if s.len() < at {
        if k == 0 || spare && k == 1 {
            return Some([YEAR; 4]);
        }
        return None;
    }
    if k == 0 {
        return None;
    }
    let end = text::part_end(s, at, b',');
    let n = text::read_number(&s[at..end], 10)?;
    let others = read_numbers(s, end + 1, k - 1, spare)?;
    Some([n, others[0], others[1], others[2]])
}

// The name in a field, and the next place.
pub(crate) fn name_field(s: &[u8], at: usize) -> Option<([u8; 5], usize)>
    requires { length s.now ≤ longest_line }
    ensures { NameRead s.now at result }
{
    if s.len() < at {
        return None;
    }
    let end = text::part_end(s, at, b',');
    let name = records::read_name(&s[at..end])?;
    Some((name, end + 1))
}
