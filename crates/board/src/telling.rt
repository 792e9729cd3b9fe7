// An answer as bytes: its number and six values, of 8 bytes each.
ghost use Rattle.std.specs.Prelude.{◌≡◌, ◌≤◌, ◌∷◌, ◌++◌, map, length, take, replicate};
ghost use Rattle.lists.specs.Lists.{join};
ghost use Rattle.rules.specs.Answers.{number, values};
ghost use Rattle.rules.specs.Engine.{front};
ghost use Rattle.packing.specs.Packed.{in_bytes};
ghost use Rattle.board.specs.Board.{figures_length, answering};

use arrayvec::ArrayVec;
use rules::Answer;

// The bytes of an answer.
pub(crate) const FIGURES_LENGTH: usize = 56;

// The values of an answer; one that it does not have is 0.
fn values_of(answer: Answer) -> [u64; 6]
    ensures { result ≡ take 6 (values answer ++ replicate 6 0) }
{
    match answer {
        Answer::Told(t) => [t.year, t.day, t.hour, t.minute, t.second, t.hundredth],
        Answer::Done(v) | Answer::TooShort(v) | Answer::NotRead(v) => [v, 0, 0, 0, 0, 0],
        Answer::Waits(s) | Answer::WrongState(s) => [s as u64, 0, 0, 0, 0, 0],
        Answer::NoCaller
        | Answer::NotAllowed
        | Answer::NoProgram
        | Answer::NameInUse
        | Answer::AllUsed
        | Answer::NoRoom
        | Answer::NotHolder
        | Answer::NotAllocated
        | Answer::AtCeiling
        | Answer::NotUnderstood
        | Answer::NotSound
        | Answer::InNeither => [0; 6],
    }
}

// Puts a number and six values at the front of a lent buffer.
pub(crate) fn put_figures(buf: &mut [u8], number: u64, values: [u64; 6])
    requires { figures_length ≤ length buf.old }
    ensures { buf.new ≡ front (join (map (in_bytes 8) (number ∷ values))) buf.old }
{
    let mut out: ArrayVec<u8, FIGURES_LENGTH> = ArrayVec::new();
    packing::push_long(&mut out, number);
    for v in &values {
        packing::push_long(&mut out, *v);
    }
    buf[..FIGURES_LENGTH].copy_from_slice(out.as_slice());
}

// Tells an answer: its figures at the front of the bytes lent for it, where these are enough, and its number.
pub(crate) fn tell(buf: &mut [u8], answer: Answer) -> u64
    ensures value { result ≡ number answer }
    ensures buf_after { buf.new ≡ answering (number answer) (values answer) buf.old }
{
    let number = console::number_of(answer);
    if FIGURES_LENGTH <= buf.len() {
        put_figures(buf, number, values_of(answer));
    }
    number
}
