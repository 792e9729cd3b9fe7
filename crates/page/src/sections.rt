// The parts of a page that have as many lines as there are things to show.
ghost use Rattle.std.specs.Prelude.{◌≡◌, ◌+◌, ◌≤◌, ◌++◌, length, take};
ghost use Rattle.limits.specs.Limits.{most_tracks, most_numbers};
ghost use Rattle.chains.specs.Links.{read};
ghost use Rattle.tracks.specs.Tracks.{holders};
ghost use Rattle.page.specs.Page.{bytes, used_in, record_lines, chain_lines, held_lines, number_lines};

use super::{keys, lines};
use arrayvec::ArrayVec;
use chains::SLOTS;
use limits::MOST_PROGRAMS;
use records::{Numbers, Program};
use tracks::Tracks;

// How many records are used.
pub(crate) fn count_used(programs: &[Program; MOST_PROGRAMS]) -> usize
    ensures { result ≡ length (used_in programs.now) }
{
    programs.iter().filter(|r| r.used).count()
}

// The used records, upward.
pub(crate) fn put_records<const N: usize>(
    out: &mut ArrayVec<u8, N>,
    programs: &[Program; MOST_PROGRAMS],
)
    requires { length out.old.items + length (bytes (record_lines programs.now)) ≤ N }
    ensures { out.new.items ≡ out.old.items ++ bytes (record_lines programs.now) }
{
    for (i, r) in programs.iter().enumerate() {
        if r.used {
            lines::put_record(out, (i + 1) as u8, r);
        }
    }
}

// The chains of the states that are shown.
pub(crate) fn put_chains<const N: usize>(out: &mut ArrayVec<u8, N>, links: [u8; SLOTS])
    requires { length out.old.items + length (bytes (chain_lines (read links))) ≤ N }
    ensures { out.new.items ≡ out.old.items ++ bytes (chain_lines (read links)) }
{
    for state in keys::CHAINED {
        let chain = chains::chain_of(links, state as usize);
        lines::put_chain(out, state, &chain.ids[..chain.len]);
    }
}

// The longest runs of one holder, upward.
pub(crate) fn put_runs<const N: usize>(out: &mut ArrayVec<u8, N>, tracks: Tracks)
    requires count_le_most_tracks { tracks.count ≤ most_tracks }
    requires tracks_in_bounds { length out.old.items + length (bytes (held_lines (holders tracks))) ≤ N }
    ensures { out.new.items ≡ out.old.items ++ bytes (held_lines (holders tracks)) }
{
    let count = tracks.count as usize;
    let places = tracks.places();
    let mut first: usize = 0;
    while first < count {
        let run = tracks::run_in(&places, count, first);
        lines::put_run(out, run);
        first = run.last + 1;
    }
}

// The allocated numbers, upward.
pub(crate) fn put_resources<const N: usize>(out: &mut ArrayVec<u8, N>, numbers: &Numbers)
    requires count_le_most_numbers { numbers.now.count ≤ most_numbers }
    requires resources_in_bounds { length out.old.items
        + length (bytes (number_lines numbers.now.count (take numbers.now.count numbers.now.resources))) ≤ N }
    ensures { out.new.items
        ≡ out.old.items ++ bytes (number_lines numbers.now.count (take numbers.now.count numbers.now.resources)) }
{
    let resources = &numbers.resources[..numbers.count as usize];
    for (i, x) in resources.iter().enumerate() {
        lines::put_resource(out, i + 1, x);
    }
}
