// The station's clock: ticks of 10 ms since the start of a year. A timer's due is a plain number of ticks, since it may pass the
// clock's ceiling.
#![tactic(auto)]

ghost use Rattle.std.specs.Prelude.{◌≡◌, ◌≤◌};
ghost use Rattle.clock.specs.Clock.{unit, time_of, parts_of};
ghost use Rattle.clock.specs.Inner.{before, Dated};

#[derive(Clone, Copy)]
pub struct Clock {
    pub ticks: u64,
    pub year: u16,
}

// The time, as EXEC 11 gives it.
#[derive(Clone, Copy)]
pub struct Time {
    pub year: u64,
    pub day: u64,
    pub hour: u64,
    pub minute: u64,
    pub second: u64,
    pub hundredth: u64,
}

// A year, and a day of it.
#[derive(Clone, Copy)]
struct Date {
    year: u64,
    day: u64,
}

// The days of the years from 0 on that come before year y: 365 in each, and one more in every fourth, but of the hundreds only in every
// fourth.
fn days_before(y: u64) -> u64
    requires { y ≤ 10000000000 }
    ensures { result ≡ before y }
{
    365 * y + (y + 3) / 4 - (y + 99) / 100 + (y + 399) / 400
}

// The date when so many days have gone by since the start of year 0. Four hundred years have 146,097 days; the year that this tells is the
// right one, or the next.
fn date_of(days: u64) -> Date
    requires { days ≤ 3000000000000 }
    ensures { Dated days result.year result.day }
{
    let year = (400 * days + 396) / 146097;
    let begins = days_before(year);
    if days < begins {
        return Date {
            year: year - 1,
            day: days - days_before(year - 1) + 1,
        };
    }
    Date {
        year,
        day: days - begins + 1,
    }
}

impl Clock {
    // The clock's highest reading.
    pub const CEILING: u64 = 1000000000000;
    // How far ahead of the clock a due may lie, and the longest interval.
    pub const FARTHEST: u64 = 1474200000;
    // Ticks of a hundredth, a second, a minute and an hour, the resolutions 1 to 4; and of a day.
    pub const HUNDREDTH: u64 = 1;

    pub const SECOND: u64 = 100;

    pub const MINUTE: u64 = 6000;

    pub const HOUR: u64 = 360000;

    pub const DAY: u64 = 8640000;

    // So many ticks since the start of a year.
    pub fn from_ticks(ticks: u64, year: u16) -> Clock
        ensures { result ≡ record { ticks = ticks; year = year } }
    {
        Clock { ticks, year }
    }

    // The ticks of a unit, by its resolution.
    pub fn unit(resolution: u64) -> u64
        ensures { result ≡ unit resolution }
    {
        match resolution {
            1 => Clock::HUNDREDTH,
            2 => Clock::SECOND,
            3 => Clock::MINUTE,
            _ => Clock::HOUR,
        }
    }

    // The parts of the time.
    pub fn time(self) -> Time
        ensures { parts_of result ≡ time_of self.year self.ticks }
    {
        let t = self.ticks;
        let date = date_of(days_before(u64::from(self.year)) + t / Clock::DAY);
        Time {
            year: date.year,
            day: date.day,
            hour: t / Clock::HOUR % 24,
            minute: t / Clock::MINUTE % 60,
            second: t / Clock::SECOND % 60,
            hundredth: t % 100,
        }
    }
}
