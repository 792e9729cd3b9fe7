// What a line says. A wrong word, field count or field form is none of it: the line says `Bad`, which is answered 13.
ghost use Rattle.std.specs.Prelude.{◌≡◌, ◌≤◌, ◌<◌, length};
ghost use Rattle.limits.specs.Limits.{longest_line};
ghost use Rattle.console.specs.Line.{line_of};
ghost use Rattle.console.specs.Inner.{no_word, fields_from, counted, request, ended, says, says_or_bad};

use super::{Said, fields, words};
use limits::LONGEST_LINE;

// Behind word `last` and a name the line ends with k numbers, or with one less where the last is spare.
fn with_numbers(
    s: &[u8],
    at: usize,
    last: usize,
    name: [u8; 5],
    k: usize,
    spare: bool,
) -> Option<Said>
    requires s_len_bound { length s.now ≤ longest_line }
    requires last_lt_no_word { last < no_word }
    ensures { says_or_bad result ≡ counted k spare (request last name) (fields_from s.now at) }
{
    let numbers = fields::read_numbers(s, at, k, spare)?;
    Some(words::said_by(last, name, numbers))
}

// Behind word `last` there is no other.
fn end_of(s: &[u8], at: usize, last: usize) -> Option<Said>
    requires s_len_bound { length s.now ≤ longest_line }
    requires last_lt_no_word { last < no_word }
    ensures { says_or_bad result ≡ ended last (fields_from s.now at) }
{
    let word = words::word_of(last);
    let k = word.numbers as usize;
    if !word.named {
        return with_numbers(s, at, last, [b' '; 5], k, word.spare);
    }
    let (name, next) = fields::name_field(s, at)?;
    with_numbers(s, next, last, name, k, word.spare)
}

// Word after word is taken, as long as there is one behind the last.
fn read_line(s: &[u8]) -> Option<Said>
    ensures { says_or_bad result ≡ line_of s.now }
{
    if LONGEST_LINE < s.len() {
        return None;
    }
    let mut at = 0;
    let mut last = 0;
    while at <= s.len() {
        let row = words::word_of(last);
        if row.is_last {
            return end_of(s, at, last);
        }
        let end = text::part_end(s, at, b',');
        let Some(word) = words::which(&s[at..end], last) else {
            return end_of(s, at, row.instead as usize);
        };
        at = end + 1;
        last = word;
    }
    end_of(s, at, last)
}

// What a line of any bytes says.
pub(crate) fn command_of(s: &[u8]) -> Said
    ensures { says result ≡ line_of s.now }
{
    read_line(s).unwrap_or(Said::Bad)
}
