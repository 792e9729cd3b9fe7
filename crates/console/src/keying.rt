// What a line does, and what is printed for it.
ghost use Rattle.std.specs.Prelude.{ℕ, ◌≤◌, ◌≡◌, List, [], ◌∷◌, length};
ghost use Rattle.limits.specs.Limits.{page_room};
ghost use Rattle.tables.specs.Calls.{told};
ghost use Rattle.rules.specs.Engine.{beside, front};
ghost use Rattle.console.specs.Line.{PAGE, line_of};
ghost use Rattle.console.specs.Console.{keyed};
ghost use Rattle.console.specs.Sheet.{line_shown};
ghost use Rattle.console.specs.Inner.{obeys, refusing, says, answer_bytes};

use super::{Said, answers, parse};
use limits::PAGE_ROOM;
use rules::Answer;
use tables::{Outcome, Tables};

// The answer to a line that is not understood; but tables that are not sound come first.
fn refusal(tables: Tables) -> Answer
    ensures { told (record { answer = result; tables = tables }) ≡ refusing tables }
{
    if tables.opened().sound {
        Answer::NotUnderstood
    } else {
        Answer::NotSound
    }
}

// What a line that says so does.
fn obey(tables: Tables, said: Said, buf: &mut [u8]) -> Outcome
    ensures { beside buf.new (told result) ≡ obeys tables buf.old (says said) }
{
    match said {
        Said::Bad => Outcome {
            answer: refusal(tables),
            tables,
        },
        Said::Page => page::write_page(tables, buf),
        Said::Asks(q) => tables.ask(q),
        Said::Ticks(n) => tables.ticks(n),
    }
}

// A line of any bytes, keyed in on any tables; only PAGE writes to the lent buffer.
pub fn key_line(tables: Tables, line: &[u8], buf: &mut [u8]) -> Outcome
    ensures { beside buf.new (told result) ≡ keyed tables line.now buf.old }
{
    obey(tables, parse::command_of(line), buf)
}

// The line for an outcome's answer at the front of a lent buffer, and how many bytes it has, as an answer, beside the tables.
fn print_outcome(outcome: Outcome, out: &mut [u8]) -> Outcome
    requires { length (answer_bytes outcome.answer) ≤ length out.old }
    ensures outcome { told result ≡ record { number = 0; values = length (answer_bytes outcome.answer) ∷ []; tables = outcome.tables } }
    ensures buffer { out.new ≡ front (answer_bytes outcome.answer) out.old }
{
    let length = answers::put_answer(out, outcome.answer);
    Outcome {
        answer: Answer::Done(length as u64),
        ..outcome
    }
}

// What any line that asks for the page prints: the page, or the line for a refusal.
fn print_page(tables: Tables, out: &mut [u8]) -> Outcome
    requires { page_room ≤ length out.old }
    ensures { (l : List ℕ) → line_of l ≡ PAGE → beside out.new (told result) ≡ line_shown tables l out.old }
{
    let outcome = page::write_page(tables, out);
    if let Answer::Done(_) = outcome.answer {
        return outcome;
    }
    print_outcome(outcome, out)
}

// What a line prints, at the front of a lent buffer of at least 8,704 bytes: the line for its answer, or for PAGE
// the page; and how many bytes that is.
pub fn print_line(tables: Tables, line: &[u8], out: &mut [u8]) -> Outcome
    ensures { beside out.new (told result) ≡ line_shown tables line.now out.old }
{
    if out.len() < PAGE_ROOM {
        return Outcome {
            answer: Answer::TooShort(PAGE_ROOM as u64),
            tables,
        };
    }
    let said = parse::command_of(line);
    if let Said::Page = said {
        return print_page(tables, out);
    }
    let outcome = obey(tables, said, out);
    print_outcome(outcome, out)
}
