//! Dates in other forms than `2024-02-29`, as `29.02.2024` and `Feb 29 2024`, and the formats that read
//! them.

use std::fmt::{self, Write};

/// The first letters of the months.
const MONTHS: [&str; 12] = [
    "jan", "feb", "mar", "apr", "may", "jun", "jul", "aug", "sep", "oct", "nov", "dec",
];

/// How many bytes a date has, with a time, at most.
const MOST: usize = 40;

/// A word of a date.
#[derive(Clone, Copy, Debug, PartialEq, Eq)]
enum Part {
    /// Four digits.
    Year,
    /// One digit or two, and their number.
    Number(u8),
    /// The first letters of a month.
    ShortName,
    LongName,
}

/// The forms of dates, by their parts.
#[derive(Clone, Copy, Debug, PartialEq, Eq)]
pub enum DateForm {
    /// As `29/02/2024`, with the year in two digits or in four.
    DayFirst,
    /// As `02/29/2024`.
    MonthFirst,
    /// As `29-Feb-2024`.
    DayAndName,
    /// As `Feb 29 2024`.
    NameFirst,
    /// As `2024.02.29`.
    YearFirst,
}

fn is_month(word: &[u8]) -> bool {
    let Some(start) = word.get(..3) else {
        return false;
    };
    word.len() <= 9
        && word.iter().all(|byte| byte.is_ascii_alphabetic())
        && MONTHS
            .iter()
            .any(|name| start.eq_ignore_ascii_case(name.as_bytes()))
}

fn part_of(word: &[u8]) -> Option<Part> {
    if is_month(word) {
        return Some(if word.len() == 3 {
            Part::ShortName
        } else {
            Part::LongName
        });
    }
    match word {
        [a] if a.is_ascii_digit() => Some(Part::Number(*a - b'0')),
        [a, b] if a.is_ascii_digit() && b.is_ascii_digit() => {
            Some(Part::Number((*a - b'0') * 10 + (*b - b'0')))
        }
        [_, _, _, _] if word.iter().all(|byte| byte.is_ascii_digit()) => Some(Part::Year),
        _ => None,
    }
}

/// The form of a date of these parts.
fn form_of(parts: &[Part; 3]) -> Option<DateForm> {
    match parts {
        [
            Part::Number(_),
            Part::Number(day),
            Part::Year | Part::Number(_),
        ] if *day > 12 => { Some(DateForm::MonthFirst) }
        [
            Part::Number(_),
            Part::Number(_),
            Part::Year | Part::Number(_),
        ] => { Some(DateForm::DayFirst) }
        [
            Part::Number(_),
            Part::ShortName | Part::LongName,
            Part::Year | Part::Number(_),
        ] => { Some(DateForm::DayAndName) }
        [
            Part::ShortName | Part::LongName,
            Part::Number(_),
            Part::Year,
        ] => { Some(DateForm::NameFirst) }
        [Part::Year, Part::Number(_), Part::Number(_)] => Some(DateForm::YearFirst),
        _ => None,
    }
}

/// The date of a text, and what stands behind it: nothing, or a time after a blank.
fn divided(text: &str) -> (&str, &str) {
    let Some((before, _)) = text.split_once(':') else {
        return (text, "");
    };
    match before.rfind(' ') {
        Some(blank) => text.split_at_checked(blank).unwrap_or((text, "")),
        None => (text, ""),
    }
}

fn is_separator(byte: u8) -> bool {
    !byte.is_ascii_alphanumeric()
}

/// The three parts of a date; none where there are more or fewer, or a word is none.
fn parts_of(date: &str) -> Option<[Part; 3]> {
    let (mut first, mut second, mut third) = (None, None, None);
    for word in date.as_bytes().split(|byte| is_separator(*byte)) {
        if word.is_empty() {
            continue;
        }
        let part = part_of(word)?;
        match (first, second, third) {
            (None, _, _) => first = Some(part),
            (_, None, _) => second = Some(part),
            (_, _, None) => third = Some(part),
            _ => return None,
        }
    }
    Some([first?, second?, third?])
}

/// Whether a date is written as types are read: `2024-02-29` or `2024/02/29`.
fn is_usual(form: DateForm, date: &str) -> bool {
    form == DateForm::YearFirst && (date.contains('-') || date.contains('/'))
}

/// The form of a text that is a date in another form than `2024-02-29`, with a time or without.
pub fn date_form(text: &str) -> Option<DateForm> {
    if text.len() > MOST || !text.is_ascii() || text.contains('\'') {
        return None;
    }
    let (date, time) = divided(text);
    if time.bytes().any(|byte| byte.is_ascii_alphabetic()) {
        return None;
    }
    let form = form_of(&parts_of(date)?)?;
    if is_usual(form, date) {
        None
    } else {
        Some(form)
    }
}

/// What a format has for a part of a date of that form.
fn item_of(part: Part, form: DateForm, place: usize) -> &'static str {
    match (part, form, place) {
        (Part::Year, _, _) => "YYYY",
        (Part::ShortName, _, _) => "Mon",
        (Part::LongName, _, _) => "Month",
        (Part::Number(_), DateForm::DayFirst, 0) => "DD",
        (Part::Number(_), DateForm::DayFirst, 1) => "MM",
        (Part::Number(_), DateForm::MonthFirst, 0) => "MM",
        (Part::Number(_), DateForm::MonthFirst, 1) => "DD",
        (Part::Number(_), DateForm::DayAndName, 0) => "DD",
        (Part::Number(_), DateForm::NameFirst, _) => "DD",
        (Part::Number(_), DateForm::YearFirst, 1) => "MM",
        (Part::Number(_), DateForm::YearFirst, _) => "DD",
        (Part::Number(_), _, _) => "YY",
    }
}

/// The call that reads what is written so, of which a text of that form is one.
#[derive(Clone, Copy)]
pub struct DateReading<'a> {
    pub written: &'a str,
    pub text: &'a str,
    pub form: DateForm,
}

impl DateReading<'_> {
    /// Writes the format of the date.
    fn write_date<W: fmt::Write>(&self, date: &str, f: &mut fmt::Formatter<W>) -> fmt::Result {
        let Some(parts) = parts_of(date) else {
            return Ok(());
        };
        let (mut place, mut is_within) = (0usize, false);
        for byte in date.bytes() {
            if is_separator(byte) {
                f.write_char(char::from(byte))?;
                is_within = false;
                continue;
            }
            if is_within {
                continue;
            }
            is_within = true;
            if let Some(part) = parts.get(place) {
                f.write_str(item_of(*part, self.form, place))?;
            }
            place = place.saturating_add(1);
        }
        Ok(())
    }
}

/// `to_date(day, 'DD.MM.YYYY')`
impl fmt::Display for DateReading<'_> {
    fn fmt<W: fmt::Write>(&self, f: &mut fmt::Formatter<W>) -> fmt::Result {
        let (date, time) = divided(self.text);
        let function = if time.is_empty() {
            "to_date"
        } else {
            "to_timestamp"
        };
        write!(f, "{function}({}, '", self.written)?;
        self.write_date(date, f)?;
        match time.bytes().filter(|byte| *byte == b':').count() {
            0 => {}
            1 => f.write_str(" HH24:MI")?,
            _ => f.write_str(" HH24:MI:SS")?,
        }
        f.write_str("')")
    }
}
