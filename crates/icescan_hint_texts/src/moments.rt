//! Dates and times, between their numbers and their texts.

use jiff_core::civil::{Date, Time};
use std::alloc::{AllocError, Global};

/// How many microseconds a second and a day have.
const SECOND: i64 = 1_000_000;

const DAY: i64 = 86_400_000_000;

/// The text of the day so many days after 1970-01-01, in the years from 0 to 9999.
pub fn day_text(alloc: Global, day: i64) -> Result<Option<String>, AllocError> {
    match Date::from_unix_epoch_day(day) {
        Ok(date) if date.year >= 0 => {
            let year = date.year;
            let month = date.month;
            let day = date.day;
            Ok(Some(format!(in alloc; "{year:04}-{month:02}-{day:02}")?))
        }
        _ => Ok(None),
    }
}

/// The text of the time so many microseconds after midnight.
pub fn time_text(alloc: Global, micros: i64) -> Result<Option<String>, AllocError> {
    if micros < 0 || micros >= DAY {
        return Ok(None);
    }
    let second = micros / SECOND;
    let hour = second / 3_600;
    let minute = second / 60 % 60;
    let second = second % 60;
    let part = micros % SECOND;
    let text = format!(in alloc; "{hour:02}:{minute:02}:{second:02}")?;
    if part == 0 {
        return Ok(Some(text));
    }
    let fraction = format!(in alloc; "{part:06}")?;
    let fraction = fraction.as_str().trim_end_matches('0');
    Ok(Some(format!(in alloc; "{text}.{fraction}")?))
}

/// The text of the moment so many microseconds after 1970-01-01 00:00, in the years from 0 to 9999.
pub fn moment_text(alloc: Global, micros: i64) -> Result<Option<String>, AllocError> {
    let day = day_text(alloc, micros.div_euclid(DAY))?;
    let time = time_text(alloc, micros.rem_euclid(DAY))?;
    match (day, time) {
        (Some(day), Some(time)) => Ok(Some(format!(in alloc; "{day}T{time}")?)),
        _ => Ok(None),
    }
}

/// The number of a text of digits alone, none where it has others.
fn number_in(text: &str) -> Option<i16> {
    if text.chars().all(|c| c.is_ascii_digit()) {
        text.parse().ok()
    } else {
        None
    }
}

/// The same of a number below 128.
fn small_in(text: &str) -> Option<i8> {
    if text.chars().all(|c| c.is_ascii_digit()) {
        text.parse().ok()
    } else {
        None
    }
}

/// The days of a text as 2024-03-08.
fn date_in(text: &str) -> Option<i64> {
    let (year, rest) = text.split_once('-')?;
    let (month, day) = rest.split_once('-')?;
    let date = Date::new(number_in(year)?, small_in(month)?, small_in(day)?).ok()?;
    Some(date.to_unix_epoch_day() as i64)
}

/// The microseconds of the digits after the point of a second.
fn fraction_in(text: &str) -> Option<i64> {
    let mut micros = 0i64;
    let mut unit = SECOND;
    for c in text.chars() {
        unit = unit / 10;
        let digit = c.to_digit(10)? as i64;
        micros = micros.saturating_add(unit.saturating_mul(digit));
    }
    Some(micros)
}

/// The microseconds of a text as 13:45, 13:45:10 or 13:45:10.25.
fn clock_in(text: &str) -> Option<i64> {
    let (hour, rest) = text.split_once(':')?;
    let (minute, rest) = rest.split_once(':').unwrap_or((rest, "0"));
    let (second, fraction) = rest.split_once('.').unwrap_or((rest, ""));
    let time = Time::new(small_in(hour)?, small_in(minute)?, small_in(second)?, 0).ok()?;
    let micros = time.to_second() as i64 * SECOND;
    micros.checked_add(fraction_in(fraction)?)
}

/// The same where `Z`, +01:30 or -01:30 may stand after it: the microseconds from midnight in UTC on.
fn clock_of_zone(text: &str) -> Option<i64> {
    if let Some((clock, east)) = text.split_once('+') {
        clock_in(clock)?.checked_sub(clock_in(east)?)
    } else if let Some((clock, west)) = text.split_once('-') {
        clock_in(clock)?.checked_add(clock_in(west)?)
    } else {
        clock_in(text.strip_suffix('Z').unwrap_or(text))
    }
}

/// The microseconds that a text stands for: a date with a time and a zone; a date with a time, or a date alone, of UTC.
pub fn micros_in(text: &str) -> Option<i64> {
    let text = text.trim();
    let (date, clock) = text
        .split_once(|c: char| c == 'T' || c == ' ')
        .unwrap_or((text, "00:00"));
    date_in(date)?
        .checked_mul(DAY)?
        .checked_add(clock_of_zone(clock)?)
}

/// The day that a text stands for.
pub fn day_in(text: &str) -> Option<i64> {
    Some(micros_in(text)?.div_euclid(DAY))
}

/// The microseconds from midnight on that a text stands for.
pub fn time_in(text: &str) -> Option<i64> {
    clock_in(text.trim())
}
