// No contract can say what a file gives or takes: here stand a reader and a writer that are interrupted, that give and take a byte at a
// time, and that fail in mid-stream.
ghost use Rattle.std.specs.Prelude.{◌≤◌};

use super::*;
use std::io;
use std::io::{ErrorKind, Read, Write};
use std::test::Fail;

// Gives `left` bytes, one at a time, each the number of those that are left behind it. Every other call is interrupted or finds nothing
// ready. With `fails` it fails in place of its end.
#[derive(Drop)]
struct Dripping {
    left: u8,
    turn: u8,
    fails: bool,
}

impl Read for Dripping {
    fn read(&mut self, buf: &mut [u8]) -> io::Result<usize> {
        self.turn = self.turn.wrapping_add(1);
        match self.turn % 4 {
            1 => return Err(io::Error::from(ErrorKind::Interrupted)),
            3 => return Err(io::Error::from(ErrorKind::WouldBlock)),
            _ => {}
        }
        if buf.is_empty() {
            return Ok(0);
        }
        let Some(left) = self.left.checked_sub(1) else {
            if self.fails {
                return Err(io::Error::from_raw_os_error(5));
            }
            return Ok(0);
        };
        self.left = left;
        buf[0] = left;
        Ok(1)
    }
}

// What a writer does when it is full.
#[derive(Clone, Copy, PartialEq, Eq)]
enum Full {
    Fails,
    TakesNone,
}

// Takes a byte at a time, `room` of them, and adds them up. Every other call is interrupted or finds the other end not ready.
#[derive(Drop)]
struct Narrow {
    room: u8,
    turn: u8,
    full: Full,
    sum: u64,
    writes_when_full: u64,
}

impl Narrow {
    fn new(room: u8, full: Full) -> Narrow {
        Narrow {
            room,
            turn: 0,
            full,
            sum: 0,
            writes_when_full: 0,
        }
    }
}

impl Write for Narrow {
    fn write(&mut self, buf: &[u8]) -> io::Result<usize> {
        self.turn = self.turn.wrapping_add(1);
        match self.turn % 4 {
            1 => return Err(io::Error::from(ErrorKind::Interrupted)),
            3 => return Err(io::Error::from(ErrorKind::WouldBlock)),
            _ => {}
        }
        if buf.is_empty() {
            return Ok(0);
        }
        let Some(room) = self.room.checked_sub(1) else {
            self.writes_when_full = self.writes_when_full.wrapping_add(1);
            if self.full == Full::Fails {
                return Err(io::Error::from_raw_os_error(28));
            }
            return Ok(0);
        };
        self.room = room;
        self.sum = self.sum.wrapping_add(buf[0] as u64);
        Ok(1)
    }

    fn flush(&mut self) -> io::Result<()> {
        Ok(())
    }
}

fn drip(left: u8, fails: bool) -> Dripping {
    Dripping {
        left,
        turn: 0,
        fails,
    }
}

#[test]
fn an_input_is_read_whole(rt: HostRuntime) {
    let mut room = [9; 6];
    let read = read_whole(&rt, &mut drip(5, false), &mut room);
    assert!(rt; matches!(read, Ok(5)));
    assert!(rt; room == [4, 3, 2, 1, 0, 9]);
}

#[test]
fn an_input_that_fills_the_room_is_too_long(rt: HostRuntime) {
    let mut room = [9; 5];
    let read = read_whole(&rt, &mut drip(5, true), &mut room);
    assert!(rt; matches!(read, Err(ReadError::TooLong)));
}

#[test]
fn a_read_that_fails_is_not_the_end(rt: HostRuntime) {
    let mut room = [9; 6];
    let mut from = drip(2, true);
    let read = read_whole(&rt, &mut from, &mut room);
    assert!(rt; matches!(read, Err(ReadError::Failed(error)) if error.raw_os_error() == Some(5)));
    assert!(rt; room == [1, 0, 9, 9, 9, 9]);
}

#[test]
fn all_is_written(rt: HostRuntime) {
    let mut to = Narrow::new(9, Full::Fails);
    assert!(rt; write_whole(&rt, &mut to, &[1, 2, 4, 8]).is_ok());
    assert!(rt; to.sum == 15);
    assert!(rt; to.room == 5);
}

#[test]
fn a_front_is_written_where_a_write_fails(rt: HostRuntime) {
    let mut to = Narrow::new(3, Full::Fails);
    let written = write_whole(&rt, &mut to, &[1, 2, 4, 8]);
    assert!(rt;
        matches!(written, Err(WriteError::Failed(error)) if error.raw_os_error() == Some(28))
    );
    assert!(rt; to.sum == 7);
}

#[test]
fn a_front_is_written_where_no_byte_is_taken(rt: HostRuntime) {
    let mut to = Narrow::new(2, Full::TakesNone);
    let written = write_whole(&rt, &mut to, &[1, 2, 4, 8]);
    assert!(rt; matches!(written, Err(WriteError::NoByte)));
    assert!(rt; to.sum == 3);
}

#[test]
fn pieces_are_gathered(rt: HostRuntime) {
    let mut output = Output::new(Outlet::new(&rt, "test", Narrow::new(9, Full::Fails)));
    assert!(rt; output.put(&[1, 2]).is_ok());
    assert!(rt; output.put_number(40).is_ok());
    assert!(rt; output.outlet.to.turn == 0);
    assert!(rt; output.finish().is_ok());
    assert!(rt; output.outlet.to.sum == 103);
    assert!(rt; output.finish().is_ok());
    assert!(rt; output.outlet.to.room == 5);
}

#[test]
fn nothing_is_written_after_a_write_that_failed(rt: HostRuntime) {
    let mut output = Output::new(Outlet::new(&rt, "test", Narrow::new(3, Full::Fails)));
    assert!(rt; output.put(&[1; SPACE]).is_ok());
    assert!(rt; output.outlet.to.turn == 0);
    assert!(rt; output.put(&[2]).is_err());
    assert!(rt; output.put(&[4]).is_err());
    assert!(rt; output.finish().is_err());
    assert!(rt; output.outlet.to.sum == 3);
    assert!(rt; output.outlet.to.writes_when_full == 1);
}

#[test]
fn what_waits_is_given_up(rt: HostRuntime) {
    let mut output = Output::new(Outlet::new(&rt, "test", Narrow::new(9, Full::Fails)));
    assert!(rt; output.put(&[1, 2]).is_ok());
    assert!(rt; output.stop() == Stopped);
    assert!(rt; output.put(&[4]).is_err());
    assert!(rt; output.finish().is_err());
    assert!(rt; output.outlet.to.turn == 0);
}

#[test]
fn a_piece_that_is_longer_than_the_buffer_goes_out(rt: HostRuntime) {
    let mut output = Output::new(Outlet::new(&rt, "test", Narrow::new(3, Full::TakesNone)));
    assert!(rt; output.put(&[5]).is_ok());
    assert!(rt; output.put(&[1; SPACE + 1]).is_err());
    assert!(rt; output.outlet.to.sum == 7);
    assert!(rt; output.outlet.to.writes_when_full == 1);
}

#[test]
fn the_number_of_an_error_is_left_out(rt: HostRuntime) {
    assert!(rt;
        without_number("No such file or directory (os error 2)") == "No such file or directory"
    );
    assert!(rt; without_number("gave up") == "gave up");
}

#[test]
fn an_error_is_said(rt: HostRuntime) {
    say_why(&rt, &"test", &io::Error::from_raw_os_error(2));
}

#[test]
fn a_name_is_shown_on_one_line(rt: HostRuntime) {
    let name = b"a\n\x7f\x1f~ \xe9";
    for (b, &s) in name.iter().zip(b"a???~ \xe9") {
        assert!(rt; shown(*b) == s);
    }
    assert!(rt; Argument::take(&rt, 0).is_some());
    assert!(rt; Argument::take(&rt, count_arguments(&rt)).is_none());
}
