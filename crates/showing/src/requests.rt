// A request and its answer, as they are shown.
ghost use Rattle.std.specs.Prelude.{◌+◌, ◌≤◌, ◌≡◌, ◌++◌, length};
ghost use Rattle.rules.specs.Answers.{number, values};
ghost use Rattle.rules.specs.Engine.{beside};
ghost use Rattle.tables.specs.Calls.{told};
ghost use Rattle.showing.specs.Showing.{shown_byte, shown_request, refusal, answer_text, request_text, request_shown};
ghost use Rattle.showing.specs.Inner.{meant, request_room};

use arrayvec::ArrayVec;
use console::LONGEST_ANSWER;
use limits::{LONGEST_LINE, PAGE_ROOM};
use rules::Answer;
use tables::{Outcome, Tables};
use text::writing::{put_bytes, put_number};

// The bytes of the longest line that is shown for a request.
const REQUEST_ROOM: usize = 321;

// A byte that is no letter, digit or mark is shown as a question mark.
fn shown(b: u8) -> u8
    ensures { result ≡ shown_byte b }
{
    if 32 <= b && b <= 126 { b } else { b'?' }
}

// A request's bytes: 72 at most, and `..` where there are more.
fn put_line(out: &mut ArrayVec<u8, REQUEST_ROOM>, line: &[u8])
    requires { length out.old.items + length (shown_request line.now) ≤ request_room }
    ensures { out.new.items ≡ out.old.items ++ shown_request line.now }
{
    let n = line.len().min(LONGEST_LINE);
    for b in &line[..n] {
        out.push(shown(*b));
    }
    if LONGEST_LINE < line.len() {
        put_bytes(out, b"..");
    }
}

// What a refusal's number means; of the numbers that no request is answered with, nothing is said.
fn meaning(answer: Answer) -> &'static [u8]
    ensures { result.now ≡ meant (number answer) }
{
    match answer {
        Answer::NoCaller => b"no program is scheduled",
        Answer::NotAllowed => b"a number or parameter is not allowed",
        Answer::NoProgram => b"no such program",
        Answer::WrongState(_) => b"the program is in the wrong state",
        Answer::NameInUse => b"the name is in use",
        Answer::AllUsed => b"all 32 records are used",
        Answer::NoRoom => b"no room now, and the caller would not wait",
        Answer::NotHolder => b"not the holder",
        Answer::NotAllocated => b"the resource number is not allocated",
        Answer::AtCeiling => b"the clock is at its ceiling",
        Answer::TooShort(_) => b"the lent buffer is too short",
        Answer::NotUnderstood => b"the line is not understood",
        Answer::NotSound => b"the tables are not sound",
        Answer::Done(_)
        | Answer::Told(_)
        | Answer::Waits(_)
        | Answer::NotRead(_)
        | Answer::InNeither => b"",
    }
}

// What stands at the end of a line that is refused.
#[tactic(auto, using(crate::proofs::RequestLaws::refused))]
fn put_refusal(out: &mut ArrayVec<u8, REQUEST_ROOM>, answer: Answer)
    requires { length out.old.items + length (refusal (number answer)) ≤ request_room }
    ensures { out.new.items ≡ out.old.items ++ refusal (number answer) }
{
    if 2 <= console::number_of(answer) {
        put_bytes(out, b" (refused: ");
        put_bytes(out, meaning(answer));
        out.push(b')');
    }
}

// The answer as `sheet` prints it, less its byte 10.
fn put_answer(out: &mut ArrayVec<u8, REQUEST_ROOM>, answer: Answer)
    requires { length out.old.items + length (answer_text (number answer) (values answer)) ≤ request_room }
    ensures { out.new.items ≡ out.old.items ++ answer_text (number answer) (values answer) }
{
    let mut printed = [0u8; LONGEST_ANSWER];
    let n = console::print_answer(answer, &mut printed);
    put_bytes(out, &printed[..n - 1]);
}

// `N: LINE -> answer=a,value=v`
#[tactic(auto, using(crate::proofs::RequestLaws::request_put))]
fn put_request(out: &mut ArrayVec<u8, REQUEST_ROOM>, count: u64, line: &[u8], answer: Answer)
    requires { length out.old.items + length (request_text count line.now (number answer) (values answer)) ≤ request_room }
    ensures { out.new.items ≡ out.old.items ++ request_text count line.now (number answer) (values answer) }
{
    put_number(out, count);
    put_bytes(out, b": ");
    put_line(out, line);
    put_bytes(out, b" -> ");
    put_answer(out, answer);
    put_refusal(out, answer);
    out.push(b'\n');
}

// Obeys a request line, and puts what is shown for it at the front of `out`: 0 and how many bytes, or 12 and how many are needed. Then
// nothing is written, and nothing is done.
pub fn show_request(tables: Tables, count: u64, line: &[u8], out: &mut [u8]) -> Outcome
    ensures { beside out.new (told result) ≡ request_shown tables count line.now out.old }
{
    let mut space = [0u8; PAGE_ROOM];
    let outcome = console::key_line(tables, line, &mut space);
    let mut shown = ArrayVec::<u8, REQUEST_ROOM>::new();
    put_request(&mut shown, count, line, outcome.answer);
    let n = shown.len();
    if out.len() < n {
        return Outcome {
            answer: Answer::TooShort(n as u64),
            tables,
        };
    }
    out[..n].copy_from_slice(shown.as_slice());
    Outcome {
        answer: Answer::Done(n as u64),
        tables: outcome.tables,
    }
}
