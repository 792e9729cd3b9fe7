// Runs that no console script reaches: a clock near the day's end and near its ceiling, tables that are not sound, a buffer that is too
// short. Each is made by setting a field of the tables, and then keyed in like any other.
#![tactic(auto)]

ghost use Rattle.std.specs.Prelude.{◌≡◌, ◌==◌, not, count_by};

use limits::{PAGE_ROOM, USUAL_YEAR};
use rules::Answer;
use std::io::Write;
use tables::Tables;

// Writes bytes to standard output. Of a write that fails nothing is said; what is printed is held against what is stored.
fn write(rt: &HostRuntime, bytes: &[u8]) {
    let _ = rt.stdout().write_all(bytes);
}

// Prints a line and what it comes to.
fn show_line(rt: &HostRuntime, tables: Tables, line: &str) -> Tables {
    let mut out = [0; PAGE_ROOM];
    let _ = println!(rt; "> {line}");
    let printed = console::print_line(tables, line.as_bytes(), &mut out);
    let n = console::bytes_printed(printed.answer);
    write(rt, &out[..n]);
    printed.tables
}

// Keys in line after line, and prints each and what it comes to.
fn show(rt: &HostRuntime, tables: Tables, lines: &[&str]) -> Tables {
    let mut tables = tables;
    for line in lines {
        tables = show_line(rt, tables, line);
    }
    tables
}

// The same tables at another time.
fn at_clock(mut tables: Tables, ticks: u64) -> Tables {
    tables.ledger.clock.ticks = ticks;
    tables
}

// The same tables with another head of the scheduled chain.
fn with_head(mut tables: Tables, p: u8) -> Tables {
    tables.links[1] = p;
    tables
}

// Two programs, one of them scheduled.
fn two_programs(rt: &HostRuntime) -> Tables {
    let made = Tables::fresh(4, 1, 1, USUAL_YEAR as u64);
    show(rt, made.tables, &["LOAD,A,10", "LOAD,B,10", "RU,A"])
}

// Bench 8: the last hundredth of the first day, and the tick behind it.
fn day_end(rt: &HostRuntime) {
    let t = at_clock(two_programs(rt), 8639999);
    show(rt, t, &["EXEC,11", "TICK", "EXEC,11"]);
}

// The last ticks of a year's last day, with timers due at them.
fn year_end(rt: &HostRuntime) {
    let t = at_clock(two_programs(rt), 3153599997);
    let timed = show(
        rt,
        t,
        &["EXEC,12,A,1,1,2", "EXEC,12,B,1,0,3", "EXEC,11", "EXEC,6"],
    );
    show(
        rt,
        timed,
        &["TICK", "TICK", "PAGE", "EXEC,11", "TICK", "PAGE", "EXEC,11"],
    );
}

// The clock's ceiling: a timer may be due beyond it, and no tick goes past it.
fn ceiling(rt: &HostRuntime) {
    let t = at_clock(two_programs(rt), 999999999999);
    show(
        rt,
        t,
        &["EXEC,12,B,4,4095,4095", "TICK", "TICK", "EXEC,11", "PAGE"],
    );
}

// The ceiling and many ticks at once: refused as a whole, or made up to the last one.
fn ceiling_at_once(rt: &HostRuntime) {
    let t = at_clock(two_programs(rt), 999999999990);
    let timed = show(rt, t, &["EXEC,12,A,1,3,1", "EXEC,12,B,1,0,4", "EXEC,6"]);
    show(
        rt,
        timed,
        &["TICK,11", "TICK,0", "PAGE", "TICK,10", "PAGE", "TICK,1"],
    );
}

// Tables that are not sound: 14 comes before all else.
fn unsound(rt: &HostRuntime) {
    let t = with_head(two_programs(rt), 2);
    let u = show(rt, t, &["RU,B", "TICK,5", "no line", "FRESH,1,0,0", "PAGE"]);
    show(rt, with_head(u, 1), &["PAGE"]);
}

// How many bytes of a buffer are not as they were lent.
fn touched(buf: &[u8]) -> usize
    ensures { result ≡ count_by (λ x. not (x == 7)) buf.now }
{
    buf.iter().filter(|x| **x != 7).count()
}

// Bench 11: PAGE with a buffer of so many bytes.
fn page_into(rt: &HostRuntime, tables: Tables, buf: &mut [u8]) {
    let r = console::key_line(tables, b"PAGE", buf);
    let _ = match r.answer {
        Answer::Done(n) => print!(rt; "done, bytes {n}"),
        Answer::TooShort(n) => print!(rt; "too short, bytes needed {n}"),
        _ => print!(rt; "refused"),
    };
    let n = touched(buf);
    let _ = println!(rt; ", bytes touched {n}");
}

fn short_buffer(rt: &HostRuntime) {
    let t = two_programs(rt);
    page_into(rt, t, &mut [7; 209]);
    page_into(rt, t, &mut [7; 208]);
    page_into(rt, t, &mut [7; 300]);
    page_into(rt, t, &mut [7; 0]);
}

fn main(rt: HostRuntime) {
    day_end(&rt);
    year_end(&rt);
    ceiling(&rt);
    ceiling_at_once(&rt);
    unsound(&rt);
    short_buffer(&rt);
}
