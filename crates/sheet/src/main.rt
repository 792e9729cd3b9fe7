// The program `sheet`: reads lines from standard input and prints what each comes to, from the smallest tables on. The work on bytes is
// done by `blocks` and `console`; here is only the order of the reads and writes.
#![tactic(auto)]

ghost use Rattle.std.specs.Prelude.{◌<◌, ◌≤◌, length, IfOk};
ghost use Rattle.limits.specs.Limits.{page_room};
ghost use Rattle.blocks.specs.Blocks.{most};
ghost use Rattle.sheet.specs.Inner.{Through};

use limits::USUAL_YEAR;
use std::io::Stdout;
use streams::{Outlet, Stopped};
use tables::Tables;

// The bytes of a block, and those of the output.
const SPACE: usize = 65536;

// The tables after the lines that end in a block, and where the line begins that does not.
#[derive(Drop)]
struct Reached {
    tables: Tables,
    place: usize,
}

// Prints for the lines that end in the block: turn after turn, until one prints nothing.
fn print_turns(
    output: &mut Outlet<Stdout>,
    tables: Tables,
    block: &[u8],
    out: &mut [u8],
) -> Result<Reached, Stopped>
    requires { page_room ≤ length out.old }
    ensures { IfOk result (Through tables block.now) }
{
    let mut reached = Reached { tables, place: 0 };
    loop {
        let turn = blocks::print_block(reached.tables, block, reached.place, out);
        reached = Reached {
            tables: turn.tables,
            place: turn.place,
        };
        let used = turn.used;
        if used == 0 {
            return Ok(reached);
        }
        output.write(&out[..used])?;
    }
}

// Prints for a last line without byte 10, where there is one.
fn print_last(
    output: &mut Outlet<Stdout>,
    tables: Tables,
    line: &[u8],
    out: &mut [u8],
) -> Result<(), Stopped> {
    if line.is_empty() {
        return Ok(());
    }
    let printed = console::print_line(tables, line, out);
    let n = console::bytes_printed(printed.answer);
    output.write(&out[..n])
}

// Reads some of the input, or says why it stopped. A read that fails is not the end of the input.
fn read_input(rt: &HostRuntime, block: &mut [u8]) -> Result<usize, Stopped>
    ensures { IfOk result (λ n. n ≤ length block.new) }
{
    match streams::read_some(rt, &mut rt.stdin(), block) {
        Ok(n) => Ok(n),
        Err(error) => {
            streams::say_why(rt, &"sheet: input stopped", &error);
            Err(Stopped)
        }
    }
}

// Prints for all of the input, which is read into the block. A proved loop has to end, and nothing says that the input does: it reads as
// often as no run does.
fn print_all(rt: &HostRuntime, block: &mut [u8], out: &mut [u8]) -> Result<(), Stopped>
    requires most_in_bounds { most < length block.old }
    requires page_room_in_bounds { page_room ≤ length out.old }
{
    let mut output = Outlet::new(rt, "sheet", rt.stdout());
    let mut tables = Tables::fresh(1, 0, 0, USUAL_YEAR as u64).tables;
    let mut have = 0;
    for _ in 0..u64::MAX {
        let n = read_input(rt, &mut block[have..])?;
        if n == 0 {
            return print_last(&mut output, tables, &block[..have], out);
        }
        let end = have + n;
        let reached = print_turns(&mut output, tables, &block[..end], out)?;
        tables = reached.tables;
        have = blocks::carry(block, reached.place, end);
    }
    Ok(())
}

fn main(rt: HostRuntime) {
    let mut block = [0; SPACE];
    let mut out = [0; SPACE];
    // What stopped it was said.
    let _ = print_all(&rt, &mut block, &mut out);
}
