// The reading desk on bytes: two lent texts, the original's transcript and the copy's. A line is told by where it stands in one of them.
ghost use Rattle.std.specs.Prelude.{◌≡◌};
ghost use Rattle.transcripts.specs.Finding.{marked};
ghost use Rattle.board.specs.Desk.{found_by, listed_by};

use super::telling;
use transcripts::Mark;

// Which text a mark names, as a value.
fn mark_number(mark: Mark) -> u64
    ensures { result ≡ marked mark 0 1 }
{
    match mark {
        Mark::Original => 0,
        Mark::Copy => 1,
    }
}

// Looks for the line with this key and occurrence, from 1: in the original, then in the copy. 0, and behind the value 0 which text it is
// in, 0 the original and 1 the copy, and where it begins and ends; 3 for an empty key or occurrence 0, and 17 where it is in neither, both
// with the empty front of the original.
pub fn board_find(
    original: &[u8],
    copy: &[u8],
    key: &[u8],
    occurrence: u64,
    answer: &mut [u8],
) -> u64
    ensures { record { number = result; answer = answer.new }
        ≡ found_by original.now copy.now key.now occurrence answer.old }
{
    if answer.len() < telling::FIGURES_LENGTH {
        return 12;
    }
    let found = transcripts::locate(original, copy, key, occurrence);
    let number = console::number_of(found.answer);
    let place = found.place;
    telling::put_figures(
        answer,
        number,
        [
            0,
            mark_number(place.mark),
            place.begins as u64,
            place.ends as u64,
            0,
            0,
        ],
    );
    number
}

// Lists the lines of the original whose counterpart in the copy differs or is missing: their numbers, from 1, at the front of `list`, the
// rest of it untouched. 0 and how many; or 12 and the places needed, nothing listed, where `list` has fewer.
pub fn board_list(original: &[u8], copy: &[u8], list: &mut [u64], answer: &mut [u8]) -> u64
    ensures { record { number = result; list = list.new; answer = answer.new }
        ≡ listed_by original.now copy.now list.old answer.old }
{
    if answer.len() < telling::FIGURES_LENGTH {
        return 12;
    }
    let told = transcripts::list(original, copy, list);
    telling::tell(answer, told)
}
