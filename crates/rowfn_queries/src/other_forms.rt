//! Columns of text whose fields are dates or numbers in other forms than types are read from, as
//! `29.02.2024` and `1,234.50`, and what is asked of them.

ghost use Rattle.std.specs.Prelude.{◌≡◌, ◌<◌, ◌*◌, length};

use crate::inference::is_numeric;
use crate::mixed::{MixedColumn, Shape, TextField, is_word};
use crate::query::Words;
use rowfn_csv::other_dates::{DateForm, DateReading, date_form};
use rowfn_csv::other_numbers::{NumberForm, NumberReading, number_form};
use std::alloc::{AllocError, Global};
use std::str;
use vortex_logical::cells::read_cell;
use vortex_logical::kind::Kind;

/// How a name is written.
fn written_name(alloc: Global, name: &str) -> Result<String, AllocError> {
    if is_word(name) {
        String::from_str(alloc, name)
    } else {
        Ok(format!(in alloc; "{name:?}")?)
    }
}

/// What reads the column of that name as numbers, of which a field has that form.
pub(crate) fn number_reading(
    alloc: Global,
    name: &str,
    form: NumberForm,
) -> Result<String, AllocError> {
    let written = written_name(alloc, name)?;
    let reading = NumberReading {
        written: written.as_str(),
        form,
    };
    Ok(format!(in alloc; "{reading}")?)
}

/// What reads the column of that name as dates or timestamps, of which a field has that form.
fn date_reading(
    alloc: Global,
    name: &str,
    text: &str,
    form: DateForm,
) -> Result<String, AllocError> {
    let written = written_name(alloc, name)?;
    let reading = DateReading {
        written: written.as_str(),
        text,
        form,
    };
    Ok(format!(in alloc; "{reading}")?)
}

/// The column whose field in that row makes it text, which is read so.
fn column_of(
    alloc: Global,
    name: &str,
    shape: Shape,
    row: usize,
    text: &str,
    reading: String,
) -> Result<MixedColumn, AllocError> {
    Ok(MixedColumn {
        name: String::from_str(alloc, name)?,
        field: Some(TextField {
            shape,
            row,
            text: String::from_str(alloc, text)?,
            is_quoted_null: false,
            is_usual_null: true,
            reading: Some(reading),
        }),
        is_meant: false,
        is_compared: false,
    })
}

/// The column at that place, if each of its fields is a date in another form than `2024-02-29`.
pub(crate) fn dated_column(
    alloc: Global,
    name: &str,
    fields: &[Option<&[u8]>],
    width: usize,
    numbers: &[usize],
    column: usize,
) -> Result<Option<MixedColumn>, AllocError>
    requires column { column < width }
    requires even { length fields.now ≡ width * length numbers.now }
{
    let (mut first, mut form) = (None, None);
    for row in 0..numbers.len() {
        let Some(field) = fields[row * width + column] else {
            continue;
        };
        let Ok(text) = str::from_utf8(field) else {
            return Ok(None);
        };
        let Some(found) = date_form(text) else {
            return Ok(None);
        };
        if first.is_none() || found == DateForm::MonthFirst {
            form = Some(found);
        }
        if first.is_none() {
            first = Some((row, text));
        }
    }
    let (Some((row, text)), Some(form)) = (first, form) else {
        return Ok(None);
    };
    let reading = date_reading(alloc, name, text, form)?;
    let number = numbers.get(row).copied().unwrap_or(0);
    Ok(Some(column_of(alloc, name, Shape::Date, number, text, reading)?))
}

/// The column at that place, if each of its fields is a number, those in another form than `1234.5`
/// have forms that go together, and points are read alike in all.
pub(crate) fn numbered_column(
    alloc: Global,
    name: &str,
    fields: &[Option<&[u8]>],
    width: usize,
    numbers: &[usize],
    column: usize,
) -> Result<Option<MixedColumn>, AllocError>
    requires column { column < width }
    requires even { length fields.now ≡ width * length numbers.now }
{
    let mut first: Option<(usize, &str, NumberForm)> = None;
    let mut has_point = false;
    for row in 0..numbers.len() {
        let Some(field) = fields[row * width + column] else {
            continue;
        };
        if is_numeric(Some(field)) {
            has_point = has_point || field.contains(&b'.');
            continue;
        }
        let Ok(text) = str::from_utf8(field) else {
            return Ok(None);
        };
        let Some(form) = number_form(text) else {
            return Ok(None);
        };
        let (row, text, before) = first.unwrap_or((row, text, form));
        let Some(form) = before.with(form) else {
            return Ok(None);
        };
        first = Some((row, text, form));
    }
    let Some((row, text, form)) = first else {
        return Ok(None);
    };
    if has_point && form.groups_by_points() {
        return Ok(None);
    }
    let reading = number_reading(alloc, name, form)?;
    let number = numbers.get(row).copied().unwrap_or(0);
    Ok(Some(column_of(alloc, name, Shape::Number, number, text, reading)?))
}

/// Whether a text has a date in single quotes, and no call that reads one by a format.
fn has_date(text: &str) -> bool {
    let bytes = text.as_bytes();
    let reads = |name: &[u8]| bytes.windows(7).any(|part| part.eq_ignore_ascii_case(name));
    let has_quoted = bytes.windows(11).any(|part| match part {
        [b'\'', date @ ..] => read_cell(Kind::Date, date).is_some(),
        _ => false,
    });
    has_quoted && !reads(b"to_date") && !reads(b"to_time")
}

/// Whether what is asked has a date in a text that compares as one.
pub(crate) fn compares_dates(words: &Words<'_>) -> bool {
    words.answers.is_some_and(has_date) || words.condition.is_some_and(has_date)
}

/// A text without the comparison at its end; none if it ends with none.
fn before_comparison(text: &str) -> Option<&str> {
    let text = text.trim_end();
    for sign in ["<=", ">=", "<>", "!=", "=", "<", ">"] {
        if let Some(before) = text.strip_suffix(sign) {
            return Some(before.trim_end());
        }
    }
    let (before, word) = text.rsplit_once(' ')?;
    if word.eq_ignore_ascii_case("between") {
        Some(before.trim_end())
    } else {
        None
    }
}

/// A text without the comparison at its beginning; none if it begins with none.
fn behind_comparison(text: &str) -> Option<&str> {
    let text = text.trim_start();
    for sign in ["<=", ">=", "<>", "!=", "=", "<", ">"] {
        if let Some(behind) = text.strip_prefix(sign) {
            return Some(behind.trim_start());
        }
    }
    None
}

fn is_name_byte(byte: u8) -> bool {
    byte.is_ascii_alphanumeric() || byte == b'_' || byte == b'.' || byte >= 128
}

/// Whether a text ends with the name, written like that.
fn ends_with_name(text: &str, written: &str) -> bool {
    match text.strip_suffix(written) {
        Some(before) => !before.bytes().next_back().is_some_and(is_name_byte),
        None => false,
    }
}

/// Whether a text begins with the name, written like that, and no bracket of a call behind it.
fn begins_with_name(text: &str, written: &str) -> bool {
    match text.strip_prefix(written) {
        Some(behind) => {
            let next = behind.trim_start().bytes().next();
            next != Some(b'(') && !behind.bytes().next().is_some_and(is_name_byte)
        }
        None => false,
    }
}

/// Whether what stands in quotes between these bytes of a text is compared with the column, whose name
/// is written like that.
fn is_compared_at(text: &str, start: usize, end: usize, written: &str) -> bool {
    let before = text.get(..start.saturating_sub(1)).unwrap_or("");
    let behind = text.get(end.saturating_add(1)..).unwrap_or("");
    before_comparison(before).is_some_and(|it| ends_with_name(it, written))
        || behind_comparison(behind).is_some_and(|it| begins_with_name(it, written))
}

/// Whether a text compares the column, whose name is written like that, with a date in single quotes.
fn compares_with_date(text: &str, written: &str) -> bool {
    let (mut start, mut is_quoted) = (0usize, false);
    for part in text.split('\'') {
        let end = start.saturating_add(part.len());
        let is_date = is_quoted && read_cell(Kind::Date, part.as_bytes()).is_some();
        if is_date && is_compared_at(text, start, end, written) {
            return true;
        }
        start = end.saturating_add(1);
        is_quoted = !is_quoted;
    }
    false
}

/// Whether what is asked compares the column of that name with a date in a text.
pub(crate) fn is_compared(
    alloc: Global,
    words: &Words<'_>,
    name: &str,
) -> Result<bool, AllocError> {
    let written = written_name(alloc, name)?;
    let compares = |text: &str| compares_with_date(text, written.as_str());
    Ok(words.answers.is_some_and(compares) || words.condition.is_some_and(compares))
}
