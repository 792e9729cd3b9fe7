// A page, read whole and shown.
ghost use Rattle.std.specs.Prelude.{◌<◌, length, IfOk, IfSome};
ghost use Rattle.follow.specs.Inner.{Reads, Shows};

use super::arguments::{Source, Unread};
use super::screen::Screen;
use showing::LONGEST_PAGE;
use streams::{Argument, Stopped};
use tables::Tables;

/// The room for a page has a byte more than the longest: a file that fills it is longer. Requests come into it block by block.
pub const ROOM: usize = LONGEST_PAGE + 1;

/// A page, and the tables that it writes.
#[derive(Drop)]
pub struct Page<'a> {
    pub tables: Tables,
    pub bytes: &'a [u8],
}

// Reads a file to the front of the room.
fn read_file(rt: &HostRuntime, source: Source, room: &mut [u8]) -> Result<usize, Unread>
    ensures { IfOk result (λ n. n < length room.new) }
{
    let mut file = source.open(rt)?;
    Ok(streams::read_whole(rt, &mut file, room)?)
}

// Shows the text of a page, and answers its tables, if it is one. It stands by itself on the stack: what it takes there is not taken where
// a file cannot be read.
#[inline(never)]
fn show_text(screen: &mut Screen, name: Argument, page: &[u8]) -> Result<Option<Tables>, Stopped>
    ensures { IfOk result (Reads page.now) }
{
    let sheet = showing::show_page(name.as_slice(), page, &mut screen.shown);
    screen.put_shown(sheet.shown)?;
    if console::number_of(sheet.read.answer) != 0 {
        return Ok(None);
    }
    Ok(Some(sheet.read.tables))
}

/// Reads and shows a page, or says why it cannot be read.
pub fn show<'a>(
    screen: &mut Screen,
    source: Source,
    room: &'a mut [u8],
) -> Result<Option<Page<'a>>, Stopped>
    ensures { IfOk result (λ o. IfSome o (Shows room.old)) }
{
    let rt = screen.rt();
    match read_file(&rt, source, room) {
        Ok(n) => {
            let bytes = &room[..n];
            let Some(tables) = show_text(screen, source.name(&rt), bytes)? else {
                return Ok(None);
            };
            Ok(Some(Page { tables, bytes }))
        }
        Err(why) => {
            screen.put_unread(source, &why)?;
            Ok(None)
        }
    }
}
