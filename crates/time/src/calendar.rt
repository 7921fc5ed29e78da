// The civil calendar: leap years, and the days before a date, counted from 0001-01-01.
ghost use Rattle.std.specs.Prelude.{◌≡◌, ◌≤◌, ◌<◌};
ghost use Rattle.time.specs.Calendar.{is_leap, month_days, days_before_year, days_before_month, days_before};
ghost use Rattle.time.specs.Limits.{Dated};
ghost use Rattle.time.specs.Tables.{MonthTable};

// The days of a common year before each month, by the month's number; there is no month 0.
const BEFORE: [u64; 13] = [0, 0, 31, 59, 90, 120, 151, 181, 212, 243, 273, 304, 334];

// Whether a year is a leap year.
pub fn is_leap(y: u64) -> bool
    ensures { result ≡ is_leap y }
{
    y % 4 == 0 && y % 100 != 0 || y % 400 == 0
}

// How many days a month has.
pub fn month_days(y: u64, m: u64) -> u64
    ensures { result ≡ month_days y m }
{
    match m {
        2 if is_leap(y) => 29,
        2 => 28,
        4 | 6 | 9 | 11 => 30,
        _ => 31,
    }
}

// The days from 0001-01-01 to the first day of a year.
fn days_before_year(y: u64) -> u64
    requires { (1 ≤ y) × (y ≤ 9999) }
    ensures { result ≡ days_before_year y }
{
    let k = y - 1;
    365 * k + k / 4 - k / 100 + k / 400
}

// The days of a year before a month's first: from March on, the leap day too.
fn days_before_month(before: &[u64; 13], y: u64, m: u64) -> u64
    requires { MonthTable before.now m }
    ensures { result ≡ days_before_month y m }
{
    before[m as usize] + u64::from(2 < m && is_leap(y))
}

// The days from 0001-01-01 to a date within the limits.
pub fn days_before(y: u64, m: u64, d: u64) -> u64
    requires { Dated y m d }
    ensures { (result ≡ days_before y m d) × (result < 3_652_059) }
{
    days_before_year(y) + days_before_month(&BEFORE, y, m) + (d - 1)
}
