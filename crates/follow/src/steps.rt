// A step: requests keyed in from one page, and the next page held against what the tables then write.
ghost use Rattle.std.specs.Prelude.{IfOk};
ghost use Rattle.follow.specs.Inner.{GoesOn};

use super::arguments::Source;
use super::pages::ROOM;
use super::screen::Screen;
use super::{pages, requests};
use streams::{Argument, Stopped};
use tables::Tables;

// Shows whether a page follows, held against what the tables write. The next step goes on from the page given, never from these tables.
#[inline(never)]
fn judge(
    screen: &mut Screen,
    name: Argument,
    tables: Tables,
    page: &[u8],
) -> Result<Tables, Stopped>
    ensures { IfOk result (GoesOn page.now) }
{
    let outcome = comparing::show_verdict(tables, name.as_slice(), page, &mut screen.shown);
    screen.put_shown(outcome.answer)?;
    Ok(outcome.tables)
}

/// Takes the step from a page's tables on, with the files of its requests and its next page, and answers the tables of that.
pub fn take_step(
    screen: &mut Screen,
    requests: Source,
    next: Source,
    first: &Option<Tables>,
    room: &mut [u8; ROOM],
) -> Result<Option<Tables>, Stopped> {
    let keyed = requests::key_in(screen, requests, first, room)?;
    let Some(page) = pages::show(screen, next, room)? else {
        return Ok(None);
    };
    if first.is_none() {
        return Ok(Some(page.tables));
    }
    let Some(tables) = keyed else {
        screen.put_of(next, b": without its requests\n")?;
        return Ok(Some(page.tables));
    };
    let name = next.name(&screen.rt());
    Ok(Some(judge(screen, name, tables, page.bytes)?))
}
