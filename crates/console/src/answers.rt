// Answers as they are printed: the outline's number, and the value or the parts of a time.
ghost use Rattle.std.specs.Prelude.{◌≡◌, ◌+◌, ◌≤◌, ◌++◌, map, length};
ghost use Rattle.text.specs.Text.{decimal, between};
ghost use Rattle.clock.specs.Clock.{parts_of};
ghost use Rattle.rules.specs.Answers.{number, values};
ghost use Rattle.rules.specs.Engine.{front};
ghost use Rattle.console.specs.Inner.{single, dotted, values_line, answer_bytes};
ghost use Rattle.console.specs.Sheet.{answer_put, printed_bytes};

use arrayvec::ArrayVec;
use clock::Time;
use rules::Answer;
use text::writing::{put_bytes, put_number};

// The outline's number of an answer.
pub fn number_of(answer: Answer) -> u64
    ensures { result ≡ number answer }
{
    match answer {
        Answer::Done(_) | Answer::Told(_) => 0,
        Answer::Waits(_) => 1,
        Answer::NoCaller => 2,
        Answer::NotAllowed => 3,
        Answer::NoProgram => 4,
        Answer::WrongState(_) => 5,
        Answer::NameInUse => 6,
        Answer::AllUsed => 7,
        Answer::NoRoom => 8,
        Answer::NotHolder => 9,
        Answer::NotAllocated => 10,
        Answer::AtCeiling => 11,
        Answer::TooShort(_) => 12,
        Answer::NotUnderstood => 13,
        Answer::NotSound => 14,
        Answer::NotRead(_) => 15,
        Answer::InNeither => 17,
    }
}

// How many bytes a line printed, by its answer: none where too few were lent.
pub fn bytes_printed(answer: Answer) -> usize
    ensures { result ≡ printed_bytes (number answer) (values answer) }
{
    match answer {
        Answer::Done(n) => n as usize,
        _ => 0,
    }
}

// The one value of an answer; of a time 0.
fn value_of(answer: Answer) -> u64
    ensures { result ≡ single (values answer) }
{
    match answer {
        Answer::Done(v) | Answer::TooShort(v) | Answer::NotRead(v) => v,
        Answer::Waits(s) | Answer::WrongState(s) => s as u64,
        Answer::Told(_)
        | Answer::NoCaller
        | Answer::NotAllowed
        | Answer::NoProgram
        | Answer::NameInUse
        | Answer::AllUsed
        | Answer::NoRoom
        | Answer::NotHolder
        | Answer::NotAllocated
        | Answer::AtCeiling
        | Answer::NotUnderstood
        | Answer::NotSound
        | Answer::InNeither => 0,
    }
}

// Numbers, a dot before each.
#[tactic(auto, using(crate::proofs::AnswerLaws::dotted_room))]
fn put_dotted<const N: usize>(out: &mut ArrayVec<u8, N>, numbers: &[u64])
    requires { length out.old.items + length (dotted numbers.now) ≤ N }
    ensures { out.new.items ≡ out.old.items ++ dotted numbers.now }
{
    for n in numbers {
        out.push(b'.');
        put_number(out, *n);
    }
}

// year.day.hour.minute.second.hundredth
#[tactic(auto, using(crate::proofs::AnswerLaws::time_line))]
fn put_time<const N: usize>(out: &mut ArrayVec<u8, N>, t: Time)
    requires { length out.old.items + length (between 46 (map decimal (parts_of t))) ≤ N }
    ensures { out.new.items ≡ out.old.items ++ between 46 (map decimal (parts_of t)) }
{
    put_number(out, t.year);
    put_dotted(out, &[t.day, t.hour, t.minute, t.second, t.hundredth]);
}

#[tactic(auto, unfolding(crate::specs::Inner::values_line))]
fn put_values<const N: usize>(out: &mut ArrayVec<u8, N>, answer: Answer)
    requires { length out.old.items + length (values_line answer) ≤ N }
    ensures { out.new.items ≡ out.old.items ++ values_line answer }
{
    match answer {
        Answer::Told(t) => put_time(out, t),
        _ => put_number(out, value_of(answer)),
    }
}

// The bytes of the longest line for an answer.
pub const LONGEST_ANSWER: usize = 160;

// The line for an answer.
#[tactic(auto, using(crate::proofs::AnswerLaws::answer_line), unfolding(crate::specs::Inner::answer_bytes))]
fn answer_line(answer: Answer) -> ArrayVec<u8, LONGEST_ANSWER>
    ensures { result.items ≡ answer_bytes answer }
{
    let mut line = ArrayVec::new();
    put_bytes(&mut line, b"answer=");
    put_number(&mut line, number_of(answer));
    put_bytes(&mut line, b",value=");
    put_values(&mut line, answer);
    line.push(b'\n');
    line
}

// The line for an answer, at the front.
pub(crate) fn put_answer(out: &mut [u8], answer: Answer) -> usize
    requires { length (answer_bytes answer) ≤ length out.old }
    ensures many { result ≡ length (answer_bytes answer) }
    ensures buffer { out.new ≡ front (answer_bytes answer) out.old }
{
    let line = answer_line(answer);
    let n = line.len();
    out[..n].copy_from_slice(line.as_slice());
    n
}

// The line for an answer at the front of `out`, and how many bytes it has; none where fewer than 160 are lent.
pub fn print_answer(answer: Answer, out: &mut [u8]) -> usize
    ensures { record { many = result; buffer = out.new } ≡ answer_put (number answer) (values answer) out.old }
{
    if out.len() < LONGEST_ANSWER {
        return 0;
    }
    put_answer(out, answer)
}
