// Text as bytes: put behind what is there (`writing`), and read: fields, words and numbers.
#![tactic(auto)]

pub mod writing;

ghost use Rattle.std.specs.Prelude.{◌≡◌, [], ◌∷◌, ◌++◌, ◌+◌, ◌≤◌, ◌<◌, ◌==◌, length, drop};
ghost use Rattle.std.specs.List.{position};
ghost use Rattle.std.proofs.Math.Seq.{slice};
ghost use Rattle.lists.specs.Lists.{alike};
ghost use Rattle.text.specs.Text.{decimal, number_of, entry};
ghost use Rattle.text.specs.Inner.{Wrote, PartEnd, Behind, read, three_digits, DigitsFrom};

// Puts s at a place of a lent buffer, the rest of which stays, and hands back the place behind it.
pub fn put_bytes(buf: &mut [u8], at: usize, s: &[u8]) -> usize
    requires { at + length s.now ≤ length buf.old }
    ensures { Wrote buf.old at s.now buf.new result }
{
    buf[at..at + s.len()].copy_from_slice(s);
    at + s.len()
}

// The place of the first byte d.
fn first_of(s: &[u8], d: u8) -> Option<usize>
    ensures { result ≡ position (λ b. b == d) s.now }
{
    s.iter().position(|b| *b == d)
}

// Where the part that begins at `from` ends: the place of the next byte d, or the length.
pub fn part_end(s: &[u8], from: usize, d: u8) -> usize
    requires { from ≤ length s.now }
    ensures { PartEnd d s.now from result }
{
    match first_of(&s[from..], d) {
        Some(n) => from + n,
        None => s.len(),
    }
}

// Whether s from a place on is w.
#[tactic(auto, using(crate::proofs::Fields::rest_same))]
pub fn rest_is(s: &[u8], from: usize, w: &[u8]) -> bool
    requires { from ≤ length s.now }
    ensures { result ≡ alike (drop from s.now) w.now }
{
    &s[from..] == w
}

// The place behind w, where s[from..to] begins with it.
pub fn behind(s: &[u8], from: usize, to: usize, w: &[u8]) -> Option<usize>
    requires from_le_to { from ≤ to }
    requires to_in_bounds { to ≤ length s.now }
    ensures { Behind w.now s.now from to result }
{
    if s[from..to].starts_with(w) {
        Some(from + w.len())
    } else {
        None
    }
}

// What digits say, and the place behind them.
#[derive(Clone, Copy)]
pub struct Digits {
    pub value: u64,
    pub end: usize,
}

// The digits that stand from a place on, `most` of them at most.
pub fn digits_from(s: &[u8], from: usize, most: usize) -> Digits
    requires from_in_bounds { from ≤ length s.now }
    requires most_bound { most ≤ 19 }
    ensures { DigitsFrom s.now from most result }
{
    let limit = s.len().min(from + most);
    let mut value: u64 = 0;
    // a loop over places: the place where the digits end is told
    for i in from..limit {
        if !s[i].is_ascii_digit() {
            return Digits { value, end: i };
        }
        value = value * 10 + (s[i] - b'0') as u64;
    }
    Digits { value, end: limit }
}

// The text as a number of 1 to `most` digits without leading zeros.
pub fn read_number(s: &[u8], most: usize) -> Option<u64>
    requires { most ≤ 19 }
    ensures { read result ≡ number_of most s.now }
{
    let n = s.len();
    if n == 0 || most < n {
        return None;
    }
    if 1 < n && s[0] == b'0' {
        return None;
    }
    let digits = digits_from(s, 0, n);
    if digits.end < n {
        return None;
    }
    Some(digits.value)
}
