//! Dates and times, read from left to right.
ghost use Rattle.std.specs.Prelude.{◌≡◌, ◌≤◌, ◌<◌, ◌^◌, MatchOption, IfSome, Some, None, length, true};
ghost use Rattle.literal_order.specs.Dates;
ghost use Rattle.literal_order.specs.Digits;

use crate::digits::{are_zeros, fraction_of, number};
use crate::literal_value::{Instant, LiteralReading, LiteralValue, ProfileRefusal};
use jiff::civil::Date;

/// The number of days from 1 January of the year 0 to 1 January 1970.
const DAYS_TO_1970: i32 = 719_528;

/// A day of a form that is well-formed.
#[derive(Debug, Clone, Copy)]
pub enum Day {
    /// Counted from 1 January of the year 0.
    Number(u32),
    /// The year isn't 0001 to 9999.
    YearOutOfRange,
}

/// A time of the day, or its end.
#[derive(Debug, Clone, Copy)]
pub struct Time {
    /// Whole seconds from the day's start, at most 86,400.
    pub seconds: u32,
    /// `None` where the fraction has more than nine digits.
    pub nanoseconds: Option<u32>,
}

/// The offset from UTC.
#[derive(Debug, Clone, Copy)]
pub enum Offset {
    Absent,
    /// Minutes ahead of UTC.
    East(u32),
    /// Minutes behind UTC.
    West(u32),
}

/// A mark and two digits: their number, and what follows them.
fn read_field(mark: u8, text: &[u8]) -> Option<(u8, &[u8])>
    ensures { MatchOption result (Dates.field mark text.now ≡ None)
        (λ read. Dates.field mark text.now ≡ Some (read.0, read.1.now)) }
{
    match text {
        [first, tens, units, rest @ ..]
            if *first == mark && tens.is_ascii_digit() && units.is_ascii_digit() => {
            Some((10 * (*tens - b'0') + (*units - b'0'), rest))
        }
        _ => None,
    }
}

/// The digits that a text begins with, and what follows them.
#[tactic(auto, using(crate::proofs::DigitLemmas::are_digits_leading))]
fn split_digits(text: &[u8]) -> (&[u8], &[u8])
    ensures digits { result.0.now ≡ Dates.leading_digits text.now }
    ensures rest { result.1.now ≡ Dates.after_digits text.now }
    ensures are_digits { Digits.are_digits result.0.now ≡ true }
{
    for (index, byte) in text.iter().enumerate() {
        if !byte.is_ascii_digit() {
            return text.split_at(index);
        }
    }
    text.split_at(text.len())
}

/// The number of a day, counted from 1 January of the year 0, if the calendar has the day.
fn day_number(year: u16, month: u8, day: u8) -> Option<u32>
    requires year_from { 1 ≤ year }
    requires year_to { year ≤ 9999 }
    requires month_in { month ≤ 99 }
    requires day_in { day ≤ 99 }
    ensures value { result ≡ Dates.day_number_of year month day }
    ensures after_first { IfSome result (λ n. 1 ≤ n) }
{
    match Date::new(year as i16, month as i8, day as i8) {
        Ok(date) => Some((date.to_plain().to_unix_epoch_day() + DAYS_TO_1970) as u32),
        Err(_) => None,
    }
}

/// A day of the calendar, or any day of a month in a year out of range.
fn civil_day(year: Option<u16>, month: u8, day: u8) -> Option<Day>
    requires year_in { IfSome year (λ y. (1 ≤ y) × (y ≤ 9999)) }
    requires month_in { month ≤ 99 }
    requires day_in { day ≤ 99 }
    ensures value { result ≡ Dates.civil_day year month day }
    ensures after_first { IfSome result Dates.IsAfterFirst }
{
    match year {
        Some(year) => day_number(year, month, day).map(Day::Number),
        None if (1..=12).contains(&month) && (1..=31).contains(&day) => Some(Day::YearOutOfRange),
        None => None,
    }
}

/// What follows a leading `-`, if there is one.
fn split_minus(text: &[u8]) -> (bool, &[u8])
    ensures negative { result.0 ≡ Digits.is_negative text.now }
    ensures rest { result.1.now ≡ Dates.after_minus text.now }
{
    match text {
        [b'-', rest @ ..] => (true, rest),
        _ => (false, text),
    }
}

/// Whether digits are four, or more with no zero in front.
fn is_year_form(digits: &[u8]) -> bool
    ensures { result ≡ Dates.is_year_form digits.now }
{
    match digits {
        [_, _, _, _] => true,
        [first, _, _, _, _, ..] => *first != b'0',
        _ => false,
    }
}

/// The year, if it is 0001 to 9999.
fn year_number(negative: bool, digits: &[u8]) -> Option<u16>
    requires { Digits.are_digits digits.now ≡ true }
    ensures value { result ≡ Dates.year_number negative digits.now }
    ensures year_in { IfSome result (λ y. (1 ≤ y) × (y ≤ 9999)) }
{
    if negative || digits.len() != 4 {
        return None;
    }
    match number(digits) as u16 {
        0 => None,
        year => Some(year),
    }
}

/// A year, and what follows it.
#[tactic(auto, unfolding(crate::specs::Dates::year))]
fn read_year(text: &[u8]) -> Option<(Option<u16>, &[u8])>
    ensures read { MatchOption result (Dates.year text.now ≡ None)
        (λ read. Dates.year text.now ≡ Some (read.0, read.1.now)) }
    ensures year_in { IfSome result (λ read. IfSome read.0 (λ y. (1 ≤ y) × (y ≤ 9999))) }
{
    let (negative, unsigned) = split_minus(text);
    let (digits, rest) = split_digits(unsigned);
    if !is_year_form(digits) {
        return None;
    }
    Some((year_number(negative, digits), rest))
}

/// The date that a text begins with, and what follows it.
#[tactic(auto, unfolding(crate::specs::Dates::date))]
fn read_date(text: &[u8]) -> Option<(Day, &[u8])>
    ensures read { MatchOption result (Dates.date text.now ≡ None)
        (λ read. Dates.date text.now ≡ Some (read.0, read.1.now)) }
    ensures after_first { IfSome result (λ read. Dates.IsAfterFirst read.0) }
{
    let (year, rest) = read_year(text)?;
    let (month, rest) = read_field(b'-', rest)?;
    let (day, rest) = read_field(b'-', rest)?;
    Some((civil_day(year, month, day)?, rest))
}

/// The digits after a point, or none where no point stands, and what follows.
#[tactic(auto, unfolding(crate::specs::Dates::fraction))]
fn read_fraction(text: &[u8]) -> Option<(&[u8], &[u8])>
    ensures read { MatchOption result (Dates.fraction text.now ≡ None)
        (λ read. Dates.fraction text.now ≡ Some (read.0.now, read.1.now)) }
    ensures are_digits { IfSome result (λ read. Digits.are_digits read.0.now ≡ true) }
{
    match text {
        [b'.', rest @ ..] => {
            let (digits, rest) = split_digits(rest);
            if digits.is_empty() {
                None
            } else {
                Some((digits, rest))
            }
        }
        _ => Some((&text[..0], text)),
    }
}

/// The nanoseconds that at most nine digits after a point stand for.
fn nanoseconds(digits: &[u8]) -> Option<u32>
    requires { Digits.are_digits digits.now ≡ true }
    ensures { result ≡ Dates.nanoseconds digits.now }
{
    if digits.len() <= 9 {
        Some(fraction_of(9, digits) as u32)
    } else {
        None
    }
}

/// The time with these parts, if there is one.
fn time_of(hour: u8, minute: u8, second: u8, digits: &[u8]) -> Option<Time>
    requires { Digits.are_digits digits.now ≡ true }
    ensures { result ≡ Dates.time_of hour minute second digits.now }
{
    let in_day = hour <= 23 && minute <= 59 && second <= 59;
    let end_of_day = hour == 24 && minute == 0 && second == 0 && are_zeros(digits);
    if !in_day && !end_of_day {
        return None;
    }
    Some(Time {
        seconds: 3600 * u32::from(hour) + 60 * u32::from(minute) + u32::from(second),
        nanoseconds: nanoseconds(digits),
    })
}

/// The time that a text begins with, and what follows it.
#[tactic(auto, unfolding(crate::specs::Dates::time))]
fn read_time(text: &[u8]) -> Option<(Time, &[u8])>
    ensures { MatchOption result (Dates.time text.now ≡ None)
        (λ read. Dates.time text.now ≡ Some (read.0, read.1.now)) }
{
    let (hour, rest) = read_field(b'T', text)?;
    let (minute, rest) = read_field(b':', rest)?;
    let (second, rest) = read_field(b':', rest)?;
    let (digits, rest) = read_fraction(rest)?;
    Some((time_of(hour, minute, second, digits)?, rest))
}

/// The minutes of an offset with this sign that makes up the whole text.
#[tactic(auto, unfolding(crate::specs::Dates::zone))]
fn read_zone(sign: u8, text: &[u8]) -> Option<u32>
    ensures value { result ≡ Dates.zone sign text.now }
    ensures limit { IfSome result (λ minutes. minutes ≤ 840) }
{
    let (hours, rest) = read_field(sign, text)?;
    let (minutes, rest) = read_field(b':', rest)?;
    let is_offset = hours <= 13 && minutes <= 59 || hours == 14 && minutes == 0;
    if rest.is_empty() && is_offset {
        Some(60 * u32::from(hours) + u32::from(minutes))
    } else {
        None
    }
}

/// The offset that makes up the whole text.
#[tactic(auto, unfolding(crate::specs::Dates::offset))]
fn read_offset(text: &[u8]) -> Option<Offset>
    ensures value { result ≡ Dates.offset text.now }
    ensures limit { IfSome result Dates.IsWithinLimit }
{
    if text.is_empty() {
        return Some(Offset::Absent);
    }
    if text == b"Z".as_slice() {
        return Some(Offset::East(0));
    }
    match read_zone(b'+', text) {
        Some(minutes) => Some(Offset::East(minutes)),
        None => read_zone(b'-', text).map(Offset::West),
    }
}

/// The seconds of a local time at this offset, at offset 0.
fn at_zero(offset: Offset, seconds: u64) -> u64
    requires from { 86_400 ≤ seconds }
    requires to { seconds < 2 ^ 63 }
    requires limit { Dates.IsWithinLimit offset }
    ensures { result ≡ Dates.at_zero offset seconds }
{
    match offset {
        Offset::Absent => seconds,
        Offset::East(minutes) => seconds - 60 * u64::from(minutes),
        Offset::West(minutes) => seconds + 60 * u64::from(minutes),
    }
}

/// The moment so many seconds after the start of a day.
fn instant(day: u32, seconds: u32, nanoseconds: u32, offset: Offset) -> Instant
    requires day_in { 1 ≤ day }
    requires limit { Dates.IsWithinLimit offset }
    ensures { result ≡ Dates.instant day seconds nanoseconds offset }
{
    Instant {
        seconds: at_zero(offset, 86_400 * u64::from(day) + u64::from(seconds)),
        nanoseconds,
        has_offset: match offset {
            Offset::Absent => false,
            Offset::East(_) | Offset::West(_) => true,
        },
    }
}

fn date_time_value(day: Day, time: Time, offset: Offset) -> LiteralReading<'static>
    requires after_first { Dates.IsAfterFirst day }
    requires limit { Dates.IsWithinLimit offset }
    ensures { result ≡ Dates.date_time_value day time.nanoseconds time.seconds offset }
{
    match (time.nanoseconds, day) {
        (None, _) => LiteralReading::Refused(ProfileRefusal::TooManyDigits),
        (Some(_), Day::YearOutOfRange) => LiteralReading::Refused(ProfileRefusal::YearOutOfRange),
        (Some(nanoseconds), Day::Number(day)) => LiteralReading::Value(LiteralValue::DateTime(
            instant(day, time.seconds, nanoseconds, offset),
        )),
    }
}

/// What a well-formed dateTime stands for.
fn read_date_time(text: &[u8]) -> Option<LiteralReading<'static>>
    ensures { result ≡ Dates.date_time_form text.now }
{
    let (day, rest) = read_date(text)?;
    let (time, rest) = read_time(rest)?;
    let offset = read_offset(rest)?;
    Some(date_time_value(day, time, offset))
}

/// The value of a dateTime's lexical form (XSD 1.1 Part 2, section 3.3.7).
#[tactic(auto, unfolding(crate::specs::Dates::date_time_reading))]
pub fn date_time_reading(text: &[u8]) -> LiteralReading<'static>
    ensures { result ≡ Dates.date_time_reading text.now }
{
    match read_date_time(text) {
        Some(reading) => reading,
        None => LiteralReading::IllTyped,
    }
}

fn date_value(day: Day, offset: Offset) -> LiteralReading<'static>
    requires after_first { Dates.IsAfterFirst day }
    requires limit { Dates.IsWithinLimit offset }
    ensures { result ≡ Dates.date_value day offset }
{
    match day {
        Day::YearOutOfRange => LiteralReading::Refused(ProfileRefusal::YearOutOfRange),
        Day::Number(day) => LiteralReading::Value(LiteralValue::Date(instant(day, 0, 0, offset))),
    }
}

/// What a well-formed date stands for.
fn read_whole_date(text: &[u8]) -> Option<LiteralReading<'static>>
    ensures { result ≡ Dates.date_form text.now }
{
    let (day, rest) = read_date(text)?;
    let offset = read_offset(rest)?;
    Some(date_value(day, offset))
}

/// The value of a date's lexical form (XSD 1.1 Part 2, section 3.3.9).
#[tactic(auto, unfolding(crate::specs::Dates::date_reading))]
pub fn date_reading(text: &[u8]) -> LiteralReading<'static>
    ensures { result ≡ Dates.date_reading text.now }
{
    match read_whole_date(text) {
        Some(reading) => reading,
        None => LiteralReading::IllTyped,
    }
}
