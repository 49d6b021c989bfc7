// Dates by the Gregorian rule, and times of day.
ghost use Rattle.std.specs.Prelude.{◌≡◌, ◌≤◌};
ghost use Rattle.errors.specs.Calendar.{is_leap, is_month, days_of, days_in, is_date, is_time};

use super::{Date, Time};

// The days of January to December in a common year.
static DAYS: [u8; 12] = [31, 28, 31, 30, 31, 30, 31, 31, 30, 31, 30, 31];

fn is_leap(year: u16) -> bool
    ensures { result ≡ is_leap year }
{
    year % 4 == 0 && year % 100 != 0 || year % 400 == 0
}

fn is_month(month: u8) -> bool
    ensures { result ≡ is_month month }
{
    (1..=12).contains(&month)
}

// The days of a month in a common year.
fn days_of(month: u8) -> u8
    requires { (1 ≤ month) × (month ≤ 12) }
    ensures { result ≡ days_of month }
{
    DAYS[month as usize - 1]
}

// The days of a month in a year.
#[tactic(auto, unfolding(crate::specs::Calendar::days_in))]
fn days_in(year: u16, month: u8) -> u8
    requires { (1 ≤ month) × (month ≤ 12) }
    ensures { result ≡ days_in year month }
{
    if month == 2 && is_leap(year) {
        29
    } else {
        days_of(month)
    }
}

impl Date {
    // Whether the month has that day in that year.
    #[tactic(auto, unfolding(crate::specs::Calendar::is_date))]
    pub(crate) fn is_valid(&self) -> bool
        ensures { result ≡ is_date self.now.year self.now.month self.now.day }
    {
        is_month(self.month) && (1..=days_in(self.year, self.month)).contains(&self.day)
    }
}

impl Time {
    pub(crate) fn is_valid(&self) -> bool
        ensures { result ≡ is_time self.now.hour self.now.minute self.now.second }
    {
        self.hour <= 23 && self.minute <= 59 && self.second <= 59
    }
}
