// The lines of one text, by their keys.
ghost use Rattle.std.specs.Prelude.{◌≡◌, ◌≤◌, length};
ghost use Rattle.transcripts.specs.Transcripts.{has_key};
ghost use Rattle.transcripts.specs.Inner.{lines_from, span_of, behind_others, first_keyed, Counted};

// Where a line begins and ends, without its byte 10.
#[derive(Clone, Copy)]
pub struct Span {
    pub begins: usize,
    pub ends: usize,
}

// Whether a line has this key: the bytes before its first `=`.
pub fn has_key(line: &[u8], key: &[u8]) -> bool
    ensures { result ≡ has_key key.now line.now }
{
    let end = text::part_end(line, 0, b'=');
    end < line.len() && &line[..end] == key
}

// Of the lines from a place on, the one with this key that stands behind n others with it.
pub fn seek(s: &[u8], from: usize, key: &[u8], n: u64) -> Option<Span>
    ensures { result ≡ span_of (behind_others key.now n (lines_from s.now from)) }
{
    // by places, since what is handed back is a place: the library's `split` gives the lines' bytes alone
    let mut at = from;
    let mut others = n;
    while at < s.len() {
        let end = text::part_end(s, at, 10);
        if has_key(&s[at..end], key) {
            if others == 0 {
                return Some(Span {
                    begins: at,
                    ends: end,
                });
            }
            others -= 1;
        }
        at = end + 1;
    }
    None
}

// Of the lines from a place on, the first that has a key.
pub fn first_keyed(s: &[u8], from: usize) -> Option<Span>
    ensures { result ≡ span_of (first_keyed (lines_from s.now from)) }
{
    let mut at = from;
    while at < s.len() {
        let end = text::part_end(s, at, 10);
        let line = &s[at..end];
        if text::part_end(line, 0, b'=') < line.len() {
            return Some(Span {
                begins: at,
                ends: end,
            });
        }
        at = end + 1;
    }
    None
}

// How many of the lines that begin from a place on and before another have this key.
pub fn count_key(s: &[u8], from: usize, to: usize, key: &[u8]) -> u64
    requires { to ≤ length s.now }
    ensures { Counted key.now s.now from to result }
{
    let mut at = from;
    let mut n: u64 = 0;
    while at < to {
        let end = text::part_end(s, at, 10);
        if has_key(&s[at..end], key) {
            n += 1;
        }
        at = end + 1;
    }
    n
}
