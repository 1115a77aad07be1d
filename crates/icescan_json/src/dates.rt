//! Dates and times as texts.

ghost use Rattle.std.specs.Prelude.{◌≡◌, ◌<◌, ◌++◌, ◌≤◌, pos, ◌≤ℤ◌, ◌<ℤ◌, ◌+ℤ◌, ◌*ℤ◌, neg_ℤ, ◌∷◌};
ghost use Rattle.json.specs.Print.{escape, quoted};
ghost use Rattle.icescan_print.specs.Written.{Sent};
ghost use Rattle.icescan_json.specs.Dates.{cycle_of, date_of, date_text, day_in_cycle, text_of_date, month_day_text};
ghost use Rattle.icescan_json.specs.Dates.{two_digits, four_digits};
ghost use Rattle.icescan_json.specs.Dates.{year_text, year_digits, year_sign, seconds_text, micros_text, time_text};
ghost use Rattle.icescan_json.specs.Dates.{timestamp_text};
ghost use Rattle.icescan_json.specs.Dates.{day_of_micros, time_of_micros};
ghost use Rattle.icescan_json.specs.Dates.{CalendarDate, near_year, near_month, near_day};

use icescan_forms::{put_escaped, put_quoted};
use icescan_print::{Page, Sink, SinkFault};
use itoa::Buffer;
use jiff_core::civil::Date;

/// How many days 400 years have, after which the calendar repeats.
const CYCLE_DAYS: i64 = 146_097;

pub const MICROSECONDS_PER_DAY: i64 = 86_400_000_000;

/// How many days before 1970-01-01 the first day lies that `jiff_core` has.
const DAYS_BEFORE: u32 = 4_371_587;

/// A date, of any year.
#[derive(Clone, Copy, Debug)]
struct AnyDate {
    year: i64,
    month: u8,
    day: u8,
}

/// The date of a day number.
#[tactic(auto, unfolding(crate::specs::Dates::date_of))]
fn date_of(day: i64) -> AnyDate
    ensures date { record { year = result.year; month = result.month; day = result.day } ≡ date_of day }
    ensures month { result.month < 100 }
    ensures day { result.day < 100 }
{
    let near = near_date(day_in_cycle(day));
    AnyDate {
        year: year_in(near.year, cycle_of(day)),
        month: near.month,
        day: near.day,
    }
}

/// How many times the calendar repeats before a day.
fn cycle_of(day: i64) -> i64
    ensures value { result ≡ cycle_of day }
    ensures low { neg_ℤ (pos 100_000_000_000_000) ≤ℤ result }
    ensures high { result ≤ℤ pos 100_000_000_000_000 }
{
    day.div_euclid(CYCLE_DAYS)
}

/// The day that stands at the same place in the 400 years from 1970 on.
fn day_in_cycle(day: i64) -> i64
    ensures value { result ≡ day_in_cycle day }
    ensures low { pos 0 ≤ℤ result }
    ensures high { result <ℤ pos 146_097 }
{
    day.rem_euclid(CYCLE_DAYS)
}

/// The year that stands at the place of one of the years from 1970 on, so many times 400 years later.
fn year_in(near: i16, cycle: i64) -> i64
    requires low { neg_ℤ (pos 100_000_000_000_000) ≤ℤ cycle }
    requires high { cycle ≤ℤ pos 100_000_000_000_000 }
    ensures { result ≡ near +ℤ (cycle *ℤ pos 400) }
{
    near as i64 + cycle * 400
}

/// The date of one of the days of the 400 years from 1970 on.
fn near_date(day: i64) -> Date
    requires low { pos 0 ≤ℤ day }
    requires high { day <ℤ pos 146_097 }
    ensures year { result.year ≡ near_year day }
    ensures month { result.month ≡ near_month day }
    ensures day { result.day ≡ near_day day }
{
    Date::from_days_since_min(day as u32 + DAYS_BEFORE)
}

fn two_digits(n: u8) -> [u8; 2]
    requires { n < 100 }
    ensures { result ≡ two_digits n }
{
    [b'0' + n / 10, b'0' + n % 10]
}

fn four_digits(n: u16) -> [u8; 4]
    requires { n < 10_000 }
    ensures { result ≡ four_digits n }
{
    let [a, b] = two_digits((n / 100) as u8);
    let [c, d] = two_digits((n % 100) as u8);
    [a, b, c, d]
}

/// Sends a year without its sign: four digits or more.
fn put_year_digits<S: Sink>(page: &mut Page, sink: &mut S, n: u64) -> Result<(), SinkFault>
    ensures { Sent S.taken S.may_fail sink.old page.old result sink.new page.new (escape (year_digits n)) }
{
    if n < 10_000 {
        return put_escaped(page, sink, &four_digits(n as u16));
    }
    let mut buffer = Buffer::new();
    put_escaped(page, sink, buffer.format(n).as_bytes())
}

/// What stands before the digits of a year.
fn year_sign(year: i64) -> &'static [u8]
    ensures { result.now ≡ year_sign year }
{
    if year < 0 {
        b"-"
    } else if year < 10_000 {
        b""
    } else {
        b"+"
    }
}

/// Sends a year: four digits from 0000 to 9999, else a sign and four digits or more.
fn put_year<S: Sink>(page: &mut Page, sink: &mut S, year: i64) -> Result<(), SinkFault>
    ensures { Sent S.taken S.may_fail sink.old page.old result sink.new page.new (escape (year_text year)) }
{
    put_escaped(page, sink, year_sign(year))?;
    put_year_digits(page, sink, year.unsigned_abs())
}

fn month_day_text(date: &AnyDate) -> [u8; 6]
    requires month { date.now.month < 100 }
    requires day { date.now.day < 100 }
    ensures { result ≡ month_day_text
        (record { year = date.now.year; month = date.now.month; day = date.now.day }) }
{
    let [a, b] = two_digits(date.month);
    let [c, d] = two_digits(date.day);
    [b'-', a, b, b'-', c, d]
}

/// Sends a date in quotes, with what follows it there.
fn put_dated<S: Sink>(
    page: &mut Page,
    sink: &mut S,
    day: i64,
    clock: &[u8],
    zone: &[u8],
) -> Result<(), SinkFault>
    ensures { Sent S.taken S.may_fail sink.old page.old result sink.new page.new
        (quoted (date_text day ++ (clock.now ++ zone.now))) }
{
    let date = date_of(day);
    page.put(sink, b"\"")?;
    put_year(page, sink, date.year)?;
    put_escaped(page, sink, &month_day_text(&date))?;
    put_escaped(page, sink, clock)?;
    put_escaped(page, sink, zone)?;
    page.put(sink, b"\"")
}

/// Sends the date of a day number in quotes.
pub fn put_date<S: Sink>(page: &mut Page, sink: &mut S, day: i64) -> Result<(), SinkFault>
    ensures { Sent S.taken S.may_fail sink.old page.old result sink.new page.new (quoted (date_text day)) }
{
    put_dated(page, sink, day, b"", b"")
}

/// Two digits of each of three numbers.
fn six_digits(first: u8, second: u8, third: u8) -> [u8; 6]
    requires first { first < 100 }
    requires second { second < 100 }
    requires third { third < 100 }
    ensures { result ≡ two_digits first ++ (two_digits second ++ two_digits third) }
{
    let [a, b] = two_digits(first);
    let [c, d] = two_digits(second);
    let [e, f] = two_digits(third);
    [a, b, c, d, e, f]
}

fn seconds_text(n: u32) -> [u8; 8]
    requires { n < 86_400 }
    ensures { result ≡ seconds_text n }
{
    let [a, b, c, d, e, f] = six_digits((n / 3_600) as u8, (n / 60 % 60) as u8, (n % 60) as u8);
    [a, b, b':', c, d, b':', e, f]
}

fn micros_text(n: u32) -> [u8; 6]
    requires { n < 1_000_000 }
    ensures { result ≡ micros_text n }
{
    six_digits((n / 10_000) as u8, (n / 100 % 100) as u8, (n % 100) as u8)
}

/// The text of a time of the day, in microseconds.
#[tactic(auto, unfolding(crate::specs::Dates::time_text))]
fn time_text(n: u64) -> [u8; 15]
    requires { n < 86_400_000_000 }
    ensures { result ≡ time_text n }
{
    let [a, b, c, d, e, f, g, h] = seconds_text((n / 1_000_000) as u32);
    let [i, j, k, l, m, o] = micros_text((n % 1_000_000) as u32);
    [a, b, c, d, e, f, g, h, b'.', i, j, k, l, m, o]
}

/// The same behind a `T`.
fn clock_text(n: u64) -> [u8; 16]
    requires { n < 86_400_000_000 }
    ensures { result ≡ 84 ∷ time_text n }
{
    let [a, b, c, d, e, f, g, h, i, j, k, l, m, o, p] = time_text(n);
    [b'T', a, b, c, d, e, f, g, h, i, j, k, l, m, o, p]
}

/// Sends a time of the day, in microseconds, in quotes.
pub fn put_time<S: Sink>(page: &mut Page, sink: &mut S, n: u64) -> Result<(), SinkFault>
    requires { n < 86_400_000_000 }
    ensures { Sent S.taken S.may_fail sink.old page.old result sink.new page.new (quoted (time_text n)) }
{
    put_quoted(page, sink, &time_text(n))
}

/// The day in which a moment lies.
fn day_of_micros(n: i64) -> i64
    ensures { result ≡ day_of_micros n }
{
    n.div_euclid(MICROSECONDS_PER_DAY)
}

/// What is over of it, in microseconds.
fn time_of_micros(n: i64) -> u64
    ensures value { result ≡ time_of_micros n }
    ensures within { result < 86_400_000_000 }
{
    n.rem_euclid(MICROSECONDS_PER_DAY).unsigned_abs()
}

/// Sends a moment, in microseconds from 1970-01-01 00:00 on, in quotes, with its zone.
pub fn put_timestamp<S: Sink>(
    page: &mut Page,
    sink: &mut S,
    n: i64,
    zone: &[u8],
) -> Result<(), SinkFault>
    ensures { Sent S.taken S.may_fail sink.old page.old result sink.new page.new
        (quoted (timestamp_text n ++ zone.now)) }
{
    let clock = clock_text(time_of_micros(n));
    put_dated(page, sink, day_of_micros(n), &clock, zone)
}
