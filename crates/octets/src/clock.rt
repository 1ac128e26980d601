// Dates and clocks as numbers.
ghost use Rattle.std.specs.Prelude.{◌≡◌};
ghost use Rattle.octets.specs.Dates.{leap, days_in, real_date, real_clock};

fn is_leap(year: u64) -> bool
    ensures { result ≡ leap year }
{
    (year % 4 == 0 && year % 100 != 0) || year % 400 == 0
}

// The days of a month, if there is such a month.
fn days_in(year: u64, month: u64) -> Option<u64>
    ensures { result ≡ days_in year month }
{
    match month {
        1 | 3 | 5 | 7 | 8 | 10 | 12 => Some(31),
        4 | 6 | 9 | 11 => Some(30),
        2 if is_leap(year) => Some(29),
        2 => Some(28),
        _ => None,
    }
}

/// Whether a number is a real date, YYYYMMDD, from 1990 to 2099.
pub fn is_date(date: u64) -> bool
    ensures { result ≡ real_date date }
{
    let year = date / 10_000;
    let month = date / 100 % 100;
    let day = date % 100;
    (1990..=2099).contains(&year)
        && days_in(year, month).is_some_and(|last| (1..=last).contains(&day))
}

/// Whether a number is a time of day, HHMMSS, from 000000 to 235959.
pub fn is_clock(clock: u64) -> bool
    ensures { result ≡ real_clock clock }
{
    clock / 10_000 < 24 && clock / 100 % 100 < 60 && clock % 100 < 60
}
