// A file of requests, keyed in line by line. It may be of any length: it comes in blocks.
ghost use Rattle.std.specs.Prelude.{◌<◌, ◌≤◌, length, IfOk};
ghost use Rattle.blocks.specs.Blocks.{most};
ghost use Rattle.follow.specs.Inner.{KeysIn, Through, Holds};

use super::arguments::Source;
use super::pages::ROOM;
use super::screen::Screen;
use std::fs::File;
use std::io::{IsTerminal, Write};
use streams::Stopped;
use tables::Tables;

// After so many lines it is said how far a file is keyed in.
const MANY: u64 = 1000000;

/// How far a file is keyed in: the tables, the number of the next line, and how many bytes of it are held at the block's front.
#[derive(Clone, Copy)]
pub struct Keying {
    pub tables: Tables,
    pub count: u64,
    pub held: usize,
}

/// The same behind the lines that end in a block, and where the line begins that does not.
#[derive(Drop)]
pub struct Passed {
    pub keying: Keying,
    pub place: usize,
}

// Says at a terminal how far a file is keyed in.
fn tell_progress(rt: &HostRuntime, source: Source, count: u64) {
    let mut terminal = rt.stderr();
    if count % MANY != 0 || !terminal.is_terminal() {
        return;
    }
    let _ = eprint!(rt; "follow: ");
    let _ = terminal.write_all(source.name(rt).as_slice());
    let _ = eprintln!(rt; ": {count} lines");
}

// Keys in a line and takes what is shown for it. No file has so many lines that their number would begin anew. The progress is told where
// the output stops, too.
fn key_line(
    screen: &mut Screen,
    source: Source,
    keying: Keying,
    line: &[u8],
) -> Result<Keying, Stopped>
    ensures { IfOk result (KeysIn keying.tables line.now) }
{
    let outcome = showing::show_request(keying.tables, keying.count, line, &mut screen.shown);
    let put = screen.put_shown(outcome.answer);
    tell_progress(&screen.rt(), source, keying.count);
    put?;
    Ok(Keying {
        tables: outcome.tables,
        count: keying.count.wrapping_add(1),
        held: 0,
    })
}

// Keys in the lines that end in the block.
fn key_block(
    screen: &mut Screen,
    source: Source,
    begun: Keying,
    block: &[u8],
) -> Result<Passed, Stopped>
    ensures { IfOk result (Through begun.tables block.now) }
{
    let mut keying = begun;
    let mut from = 0;
    let mut end = console::line_end(block, from);
    while end < block.len() {
        keying = key_line(screen, source, keying, &block[from..end])?;
        from = end + 1;
        end = console::line_end(block, from);
    }
    Ok(Passed {
        keying,
        place: from,
    })
}

// Keys in the lines that end in the first `end` bytes of the block. What is left of these goes to the front.
fn pass_block(
    screen: &mut Screen,
    source: Source,
    begun: Keying,
    end: usize,
    block: &mut [u8],
) -> Result<Keying, Stopped>
    requires { end ≤ length block.old }
    ensures { IfOk result Holds }
{
    let passed = key_block(screen, source, begun, &block[..end])?;
    let mut keying = passed.keying;
    keying.held = blocks::carry(block, passed.place, end);
    Ok(keying)
}

// Keys in the lines of an open file, which is read into the block; a last line without byte 10 too, where there is one. Answers the tables
// behind them, if the file could be read to its end. A proved loop has to end, and nothing says that the file does: it reads as often as no
// run does.
fn key_file(
    screen: &mut Screen,
    source: Source,
    file: &mut File,
    tables: Tables,
    block: &mut [u8],
) -> Result<Option<Tables>, Stopped>
    requires { most < length block.old }
{
    let mut keying = Keying {
        tables,
        count: 1,
        held: 0,
    };
    for _ in 0..u64::MAX {
        let have = keying.held;
        match streams::read_some(&screen.rt(), file, &mut block[have..]) {
            Ok(0) => {
                if have > 0 {
                    keying = key_line(screen, source, keying, &block[..have])?;
                }
                return Ok(Some(keying.tables));
            }
            Ok(n) => keying = pass_block(screen, source, keying, have + n, block)?,
            Err(error) => {
                screen.put_unread(source, &error.into())?;
                return Ok(None);
            }
        }
    }
    Ok(None)
}

/// Keys in a file, from the tables of the page before it, and answers the tables behind its last line; or says why it could not be keyed in
/// whole.
#[inline(never)]
pub fn key_in(
    screen: &mut Screen,
    source: Source,
    first: &Option<Tables>,
    room: &mut [u8; ROOM],
) -> Result<Option<Tables>, Stopped> {
    let Some(tables) = *first else {
        screen.put_of(source, b": not keyed in, without a first page\n")?;
        return Ok(None);
    };
    match source.open(&screen.rt()) {
        Ok(mut file) => key_file(screen, source, &mut file, tables, room),
        Err(why) => {
            screen.put_unread(source, &why)?;
            Ok(None)
        }
    }
}
