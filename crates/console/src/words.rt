// The words of a line. Each stands behind another word, or behind the line's start, which is word 0.
ghost use Rattle.std.specs.Prelude.{◌≡◌, ◌<◌, map};
ghost use Rattle.console.specs.Inner.{no_word, rows, row_at, said_with, keys, seek, Which};

use super::Said;
use rules::{Call, Order, Request};

// How many words there are.
const NO_WORD: usize = 30;

// A word's row. The last row is no word of its own: it is TICK with a number.
#[derive(Clone, Copy)]
pub(crate) struct Word {
    // the word before
    pub before: u8,
    // whether a name comes next, how many numbers come behind that, and whether the last of them may be left away
    pub named: bool,
    pub numbers: u8,
    pub spare: bool,
    // whether no other word comes behind it; and the word whose row holds in its place where a field comes behind it that is no word
    pub is_last: bool,
    pub instead: u8,
}

// A word's row: the word before; whether a name comes next, and how many numbers behind it, `spare` where the last of them may be left away; and
// `last` with the word itself, where no other word comes behind it, or else `or` with the word whose row holds in its place where a field comes
// behind it that is none.
macro_rules! row {
    (behind $before:literal, name $named:literal, numbers $n:literal, last $own:literal) => {
        Word { before: $before, named: $named, numbers: $n, spare: false, is_last: true, instead: $own }
    };
    (behind $before:literal, name $named:literal, numbers $n:literal, spare, last $own:literal) => {
        Word { before: $before, named: $named, numbers: $n, spare: true, is_last: true, instead: $own }
    };
    (behind $before:literal, name $named:literal, numbers $n:literal, or $instead:literal) => {
        Word { before: $before, named: $named, numbers: $n, spare: false, is_last: false, instead: $instead }
    };
}

const WORDS: [Word; NO_WORD] = [
    row!(behind 30, name false, numbers 0, or 0), // the start
    row!(behind 0, name false, numbers 4, spare, last 1), // FRESH,T,S,R,year
    row!(behind 0, name true, numbers 1, last 2), // LOAD,name,priority
    row!(behind 0, name true, numbers 0, last 3), // RU,name
    row!(behind 0, name true, numbers 0, last 4), // SS,name
    row!(behind 0, name true, numbers 0, last 5), // GO,name
    row!(behind 0, name true, numbers 1, last 6), // PR,name,number
    row!(behind 0, name true, numbers 1, last 7), // OF,name,figure
    row!(behind 0, name false, numbers 0, or 29), // TICK
    row!(behind 0, name false, numbers 0, or 9), // EXEC
    row!(behind 0, name false, numbers 0, or 10), // RN
    row!(behind 0, name false, numbers 0, last 11), // PAGE
    row!(behind 9, name false, numbers 2, last 12), // EXEC,4,n,w
    row!(behind 9, name false, numbers 2, last 13), // EXEC,15,n,w
    row!(behind 9, name false, numbers 2, or 14), // EXEC,5,n,start
    row!(behind 9, name false, numbers 2, last 15), // EXEC,16,n,start
    row!(behind 9, name false, numbers 0, last 16), // EXEC,6
    row!(behind 9, name false, numbers 0, last 17), // EXEC,7
    row!(behind 9, name false, numbers 0, last 18), // EXEC,11
    row!(behind 9, name true, numbers 0, last 19), // EXEC,9,name
    row!(behind 9, name true, numbers 0, last 20), // EXEC,10,name
    row!(behind 9, name true, numbers 3, last 21), // EXEC,12,name,resolution,multiple,offset
    row!(behind 10, name false, numbers 0, or 22), // RN,ALLOC
    row!(behind 10, name false, numbers 2, last 23), // RN,LOCK,r,w
    row!(behind 10, name false, numbers 1, last 24), // RN,CLEAR,r
    row!(behind 10, name false, numbers 1, last 25), // RN,FREE,r
    row!(behind 22, name false, numbers 1, last 26), // RN,ALLOC,L,w
    row!(behind 22, name false, numbers 1, last 27), // RN,ALLOC,G,w
    row!(behind 14, name false, numbers 0, last 28), // EXEC,5,ALL
    row!(behind 30, name false, numbers 1, last 29), // TICK,n
];

pub(crate) fn word_of(i: usize) -> Word
    requires { i < no_word }
    ensures { result ≡ row_at i }
{
    WORDS[i]
}

// The texts of the words; the start and TICK with a number have none. They stand beside the rows: a row that held its text would hold an address,
// and `word_of` could not be the specification's row.
const TEXTS: [&[u8]; NO_WORD] = [
    b"", b"FRESH", b"LOAD", b"RU", b"SS", b"GO", b"PR", b"OF", b"TICK", b"EXEC", b"RN", b"PAGE",
    b"4", b"15", b"5", b"16", b"6", b"7", b"11", b"9", b"10", b"12", b"ALLOC", b"LOCK", b"CLEAR",
    b"FREE", b"L", b"G", b"ALL", b"",
];

fn texts() -> &'static [&'static [u8]]
    ensures { map (λ b. b.now) result.now ≡ keys }
{
    &TEXTS
}

// What a line says whose last word is word i, by the name and as many of the numbers as come behind it. It stands in a table like the others: a
// `match` is no plainer, since its proof has an answer for each of the 30 words, and the table's has one.
pub(crate) fn said_by(i: usize, name: [u8; 5], numbers: [u64; 4]) -> Said
    requires { i < no_word }
    ensures { result ≡ said_with i name numbers }
{
    let [a, b, c, d] = numbers;
    let all = [
        Said::Bad,
        Said::Asks(Request::Fresh(a, b, c, d)),
        Said::Asks(Request::Load(name, a)),
        Said::Asks(Request::Operator(Order::Ru, name)),
        Said::Asks(Request::Operator(Order::Ss, name)),
        Said::Asks(Request::Operator(Order::Go, name)),
        Said::Asks(Request::Operator(Order::Pr(a), name)),
        Said::Asks(Request::Operator(Order::Of(a), name)),
        Said::Asks(Request::Tick),
        Said::Bad,
        Said::Bad,
        Said::Page,
        Said::Asks(Request::Running(Call::Exec4(a, b))),
        Said::Asks(Request::Running(Call::Exec15(a, b))),
        Said::Asks(Request::Running(Call::Exec5(a, b))),
        Said::Asks(Request::Running(Call::Exec16(a, b))),
        Said::Asks(Request::Running(Call::Exec6)),
        Said::Asks(Request::Running(Call::Exec7)),
        Said::Asks(Request::Running(Call::Exec11)),
        Said::Asks(Request::Running(Call::Exec9(name))),
        Said::Asks(Request::Running(Call::Exec10(name))),
        Said::Asks(Request::Running(Call::Exec12(name, a, b, c))),
        Said::Bad,
        Said::Asks(Request::Running(Call::Lock(a, b))),
        Said::Asks(Request::Running(Call::Clear(a))),
        Said::Asks(Request::Running(Call::Free(a))),
        Said::Asks(Request::Running(Call::Alloc(false, a))),
        Said::Asks(Request::Running(Call::Alloc(true, a))),
        Said::Asks(Request::Running(Call::Exec5All)),
        Said::Ticks(a),
    ];
    all[i]
}

// Which word behind word `last` the field is, if it is one.
pub(crate) fn which(field: &[u8], last: usize) -> Option<usize>
    ensures { Which (seek last field.now rows keys) result }
{
    let texts = texts();
    for i in 0..NO_WORD {
        if WORDS[i].before as usize == last && field == texts[i] {
            return Some(i);
        }
    }
    None
}
