// What is printed: the lines that are listed, or the line that was found.
ghost use Rattle.std.specs.Prelude.{◌≡◌, ◌≤◌, [], false, length};
ghost use Rattle.std.proofs.Math.Seq.{slice};
ghost use Rattle.console.specs.Sheet.{line_end};
ghost use Rattle.streams.specs.Gathered.{waits};

use super::refusing::stop;
use console::LONGEST_ANSWER;
use rules::Answer;
use std::io::Stdout;
use streams::{Output, Stopped};
use transcripts::Mark;

/// The figures of a full list: three for each of 65,536 lines.
pub const LISTED: usize = 196608;

fn put_answer(output: &mut Output<Stdout>, answer: Answer) -> Result<(), Stopped> {
    let mut line = [0; LONGEST_ANSWER];
    let n = console::print_answer(answer, &mut line);
    output.put(&line[..n])
}

// `line N: ORIGINAL'S BYTES | COPY'S BYTES`.
fn put_pair(
    output: &mut Output<Stdout>,
    number: u64,
    bytes: &[u8],
    other: &[u8],
) -> Result<(), Stopped> {
    output.put(b"line ")?;
    output.put_number(number)?;
    output.put(b": ")?;
    output.put(bytes)?;
    output.put(b" | ")?;
    output.put(other)?;
    output.put(b"\n")
}

// The line that begins at a place of a transcript, without its byte 10.
fn line_at(transcript: &[u8], begins: usize) -> &[u8]
    requires { begins ≤ length transcript.now }
    ensures { result.now ≡ slice begins (line_end transcript.now begins) transcript.now }
{
    let end = console::line_end(transcript, begins);
    &transcript[begins..end]
}

// One listed line, from its figures: its number, where it begins, and where its counterpart begins, the copy's length where it has none. The
// figures are right by the list's contract. Were they not, this would be said, and no wrong line printed.
fn put_listed(
    output: &mut Output<Stdout>,
    original: &[u8],
    copy: &[u8],
    figures: &[u64],
) -> Result<(), Stopped> {
    let &[number, begins, other] = figures else {
        return Err(wrong_list(output));
    };
    let (begins, other) = (begins as usize, other as usize);
    if original.len() < begins || copy.len() < other {
        return Err(wrong_list(output));
    }
    let bytes = line_at(original, begins);
    if other == copy.len() {
        return put_pair(output, number, bytes, b"-");
    }
    put_pair(output, number, bytes, line_at(copy, other))
}

// Says why no more lines are printed. Those that wait are given up.
fn stop_list(output: &mut Output<Stdout>, why: &str) -> Stopped
    ensures empty { waits output.new ≡ [] }
    ensures closed { output.new.outlet.is_open ≡ false }
{
    stop(&output.outlet.rt, why);
    output.stop()
}

fn wrong_list(output: &mut Output<Stdout>) -> Stopped
    ensures empty { waits output.new ≡ [] }
    ensures closed { output.new.outlet.is_open ≡ false }
{
    stop_list(output, "the list of lines that differ is not right")
}

/// Prints the lines of the original whose counterpart in the copy differs or is missing, and how many they are. By the list's contract it
/// can only be refused because it is short.
pub fn show_list(
    output: &mut Output<Stdout>,
    original: &[u8],
    copy: &[u8],
    list: &mut [u64; LISTED],
) -> Result<(), Stopped> {
    let answer = transcripts::list_figures(original, copy, list);
    let Answer::Done(many) = answer else {
        return Err(stop_list(output, "more than 65536 lines differ"));
    };
    let Some(listed) = list.get(..(many as usize).saturating_mul(3)) else {
        return Err(wrong_list(output));
    };
    for figures in listed.chunks(3) {
        put_listed(output, original, copy, figures)?;
    }
    put_answer(output, answer)?;
    output.finish()
}

// Prints one line, behind the name of its text.
fn show_line(output: &mut Output<Stdout>, name: &[u8], bytes: &[u8]) -> Result<(), Stopped> {
    output.put(name)?;
    output.put(bytes)?;
    output.put(b"\n")?;
    output.finish()
}

/// Prints the line with this key and occurrence, or the answer that refuses it. Both texts are lent alike, since it may be a part of either.
pub fn show_found<'a>(
    output: &mut Output<Stdout>,
    original: &'a [u8],
    copy: &'a [u8],
    key: &[u8],
    occurrence: u64,
) -> Result<(), Stopped> {
    let located = transcripts::locate(original, copy, key, occurrence);
    let Answer::Done(_) = located.answer else {
        put_answer(output, located.answer)?;
        return output.finish();
    };
    let bytes = transcripts::part(original, copy, located.place);
    match located.place.mark {
        Mark::Original => show_line(output, b"original: ", bytes),
        Mark::Copy => show_line(output, b"copy: ", bytes),
    }
}
