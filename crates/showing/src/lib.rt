// What is shown of requests and of pages, put at the front of a lent buffer; whoever reads and writes files is a program.
#![tactic(auto)]

mod pages;
mod requests;

ghost use Rattle.std.specs.Prelude.{◌≡◌};
ghost use Rattle.transcripts.specs.Listing.{answered};
ghost use Rattle.showing.specs.Showing.{shown_in};

pub use pages::{LONGEST_NAME, LONGEST_PAGE, Sheet, show_page};
pub use requests::show_request;
use rules::Answer;

// Puts bytes at the front of `out` where they fit: 0 and how many, or 12 and how many are needed.
pub fn hand_over(bytes: &[u8], out: &mut [u8]) -> Answer
    ensures { answered result out.new ≡ shown_in bytes.now out.old }
{
    let n = bytes.len();
    if out.len() < n {
        return Answer::TooShort(n as u64);
    }
    out[..n].copy_from_slice(bytes);
    Answer::Done(n as u64)
}
