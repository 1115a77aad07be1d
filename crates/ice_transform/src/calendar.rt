//! Years and months of day numbers.

ghost use Rattle.std.specs.Prelude.{◌≡◌, pos, ◌+ℤ◌, ◌*ℤ◌};
ghost use Rattle.ice_transform.specs.Years.{year_of, month_of};

use jiff_core::civil::Date;

fn years_of(date: Date) -> i64
    ensures { (result +ℤ pos 1970) ≡ date.year }
{
    date.year as i64 - 1970
}

fn months_of(date: Date) -> i64
    ensures { (result +ℤ pos 23641) ≡ ((date.year *ℤ pos 12) +ℤ pos date.month) }
{
    (date.year as i64 - 1970) * 12 + date.month as i64 - 1
}

/// Years from 1970 to the day's.
pub fn year_of_day(day: i64) -> Option<i64>
    ensures { result ≡ year_of day }
{
    match Date::from_unix_epoch_day(day) {
        Ok(date) => Some(years_of(date)),
        Err(_) => None,
    }
}

/// Months from January 1970 to the day's.
pub fn month_of_day(day: i64) -> Option<i64>
    ensures { result ≡ month_of day }
{
    match Date::from_unix_epoch_day(day) {
        Ok(date) => Some(months_of(date)),
        Err(_) => None,
    }
}
