//! Columns that have numbers, dates or timestamps in the first rows, and are text by another field.
ghost use Rattle.std.specs.Prelude.{◌≡◌, ◌<◌, ◌*◌, length};

use crate::inference::is_numeric;
use crate::other_forms::{
    compares_dates, dated_column, is_compared, number_reading, numbered_column,
};
use crate::query::Words;
use rowfn_csv::Format;
use rowfn_csv::other_numbers::number_form;
use std::alloc::{AllocError, Global};
use std::{fmt, str};
use vortex_columns::{DType, StructFields};
use vortex_logical::cells::read_cell;
use vortex_logical::kind::Kind;

/// How many bytes of a field are reported, at most.
const REPORTED: usize = 40;

/// Texts that other programs write for null.
const NULLS: [&str; 15] = [
    "NA", "N/A", "n/a", "na", "NULL", "null", "None", "none", "NaN", "nan", "-", "--", "?", ".",
    "#N/A",
];

/// What the other fields of a column are.
#[derive(Clone, Copy, Debug, PartialEq, Eq)]
pub enum Shape {
    /// Numbers of any form, which are floats.
    Number,
    Date,
    Timestamp,
}

/// The name of its type.
impl fmt::Display for Shape {
    fn fmt<W: fmt::Write>(&self, f: &mut fmt::Formatter<W>) -> fmt::Result {
        f.write_str(match self {
            Shape::Number => "f64",
            Shape::Date => "date",
            Shape::Timestamp => "timestamp",
        })
    }
}

/// A field of a column whose other fields are values of a kind.
#[derive(Drop)]
pub struct TextField {
    /// What the other fields are.
    pub shape: Shape,
    /// Its row, counted from 1.
    pub row: usize,
    /// Its first bytes.
    pub text: String,
    /// Whether it is a text for null, which is none in its quotes.
    pub is_quoted_null: bool,
    /// Whether null is the empty field alone, as it is where no text for it is given.
    pub is_usual_null: bool,
    /// What reads the column, if it has another form, as `29.02.2024` and `1,234.50`.
    pub reading: Option<String>,
}

/// A column that is text by its first rows, and may not be meant to be.
#[derive(Drop)]
pub struct MixedColumn {
    pub name: String,
    /// The first field that is none of a kind of which others are. None where each field is null.
    pub field: Option<TextField>,
    /// Whether it is probably not meant to be text: that field is what other programs write for null,
    /// or most are of the kind, without quoted texts for null; or all are null, and rows may follow.
    pub is_meant: bool,
    /// Whether it is of dates in another form, and is compared with a date in quotes.
    pub is_compared: bool,
}

/// Whether a text is what other programs write for null.
fn is_null_text(text: &str) -> bool {
    NULLS.iter().any(|null| *null == text)
}

impl TextField {
    fn try_clone(&self, alloc: Global) -> Result<TextField, AllocError> {
        Ok(TextField {
            shape: self.shape,
            row: self.row,
            text: String::from_str(alloc, self.text.as_str())?,
            is_quoted_null: self.is_quoted_null,
            is_usual_null: self.is_usual_null,
            reading: match &self.reading {
                Some(reading) => Some(String::from_str(alloc, reading.as_str())?),
                None => None,
            },
        })
    }
}

impl MixedColumn {
    pub(crate) fn try_clone(&self, alloc: Global) -> Result<MixedColumn, AllocError> {
        Ok(MixedColumn {
            name: String::from_str(alloc, self.name.as_str())?,
            field: match &self.field {
                Some(field) => Some(field.try_clone(alloc)?),
                None => None,
            },
            is_meant: self.is_meant,
            is_compared: self.is_compared,
        })
    }
}

fn has_digit(text: &str) -> bool {
    text.bytes().any(|byte| byte.is_ascii_digit())
}

/// Whether a field is one where the column is declared, as `02134` and `+1` are numbers.
fn is_declarable(shape: Shape, text: &str) -> bool {
    match shape {
        Shape::Number => read_cell(Kind::F64, text.as_bytes()).is_some(),
        Shape::Date | Shape::Timestamp => false,
    }
}

/// Whether a name is written without quotes.
pub fn is_word(name: &str) -> bool {
    let mut bytes = name.as_bytes().iter();
    bytes.all(|byte| byte.is_ascii_alphanumeric() || *byte == b'_')
}

impl TextField {
    /// Writes the field, and how it is read as null.
    fn write_text<W: fmt::Write>(&self, f: &mut fmt::Formatter<W>) -> fmt::Result {
        let text = self.text.as_str();
        if self.is_quoted_null {
            return write!(f, "the quoted {text:?} (--null-quoted, or ");
        }
        write!(f, "{text:?} (")?;
        if !is_null_text(text) && has_digit(text) {
            return Ok(());
        }
        f.write_str(if self.is_usual_null {
            "--null \"\" "
        } else {
            "one more "
        })?;
        write!(f, "--null {text:?}, or ")
    }

    /// Writes how the column of that name is read otherwise.
    fn write_advice<W: fmt::Write>(&self, name: &str, f: &mut fmt::Formatter<W>) -> fmt::Result {
        if let Some(reading) = &self.reading {
            return write!(f, "{reading})");
        }
        let kind = self.shape;
        match (is_declarable(kind, self.text.as_str()), is_word(name)) {
            (true, true) => write!(f, "--columns '{name} {kind}')"),
            (true, false) => write!(f, "--columns '{name:?} {kind}')"),
            (false, true) => write!(f, "try_cast({name} as {kind}))"),
            (false, false) => write!(f, "try_cast({name:?} as {kind}))"),
        }
    }
}

/// Which field makes the column text, and how it is read otherwise; or that each field is null.
impl fmt::Display for MixedColumn {
    fn fmt<W: fmt::Write>(&self, f: &mut fmt::Formatter<W>) -> fmt::Result {
        let name = self.name.as_str();
        match &self.field {
            Some(field) => {
                let row = field.row;
                write!(f, "column {name} is text by row {row}: ")?;
                field.write_text(f)?;
                field.write_advice(name, f)
            }
            None if is_word(name) => {
                write!(
                    f,
                    "column {name} is text, null in all of the first rows (--columns '{name} i64?')"
                )
            }
            None => {
                write!(
                    f,
                    "column {name} is text, null in all of the first rows (--columns '{name:?} i64?')"
                )
            }
        }
    }
}

fn is_of(shape: Shape, text: &[u8]) -> bool {
    match shape {
        Shape::Number => is_numeric(Some(text)),
        Shape::Date => read_cell(Kind::Date, text).is_some(),
        Shape::Timestamp => read_cell(Kind::Timestamp, text).is_some(),
    }
}

/// The first field of a column that is none of a kind.
#[derive(Clone, Copy)]
struct OtherField<'b> {
    /// Its row, counted from 0.
    row: usize,
    text: &'b [u8],
    /// Whether more fields than not are of the kind, without quoted texts for null.
    is_mostly: bool,
}

/// The first field of a column that is none of the kind; none where no field is one.
fn first_text<'b>(
    format: &Format<'_>,
    shape: Shape,
    fields: &[Option<&'b [u8]>],
    width: usize,
    row_count: usize,
    column: usize,
) -> Option<OtherField<'b>>
    requires column { column < width }
    requires even { length fields.now ≡ width * row_count }
{
    let mut first = None;
    let (mut values, mut others) = (0u64, 0u64);
    for row in 0..row_count {
        let Some(text) = fields[row * width + column] else {
            continue;
        };
        if is_of(shape, text) {
            values = values.saturating_add(1);
            continue;
        }
        if !format.is_null_text(text) {
            others = others.saturating_add(1);
        }
        if first.is_none() {
            first = Some((row, text));
        }
    }
    let (row, text) = first?;
    let is_mostly = values > others;
    if values == 0 {
        return None;
    }
    Some(OtherField {
        row,
        text,
        is_mostly,
    })
}

/// That of the first kind of which some field of the column is.
fn mixed_field<'b>(
    format: &Format<'_>,
    fields: &[Option<&'b [u8]>],
    width: usize,
    row_count: usize,
    column: usize,
) -> Option<(Shape, OtherField<'b>)>
    requires column { column < width }
    requires even { length fields.now ≡ width * row_count }
{
    for shape in [Shape::Number, Shape::Date, Shape::Timestamp] {
        if let Some(found) = first_text(format, shape, fields, width, row_count, column) {
            return Some((shape, found));
        }
    }
    None
}

/// The first bytes of a field.
fn reported(text: &str) -> &str {
    for (place, _) in text.char_indices() {
        if place >= REPORTED {
            return text.get(..place).unwrap_or(text);
        }
    }
    text
}

/// Whether the column of that name is of texts.
fn is_text(types: &StructFields, name: &str) -> bool {
    match types.find(name) {
        Some((_, dtype)) => matches!(dtype, DType::Utf8(_)),
        None => false,
    }
}

/// Whether each field of a column is null, of one row or more.
fn is_all_null(fields: &[Option<&[u8]>], width: usize, row_count: usize, column: usize) -> bool
    requires column { column < width }
    requires even { length fields.now ≡ width * row_count }
{
    for row in 0..row_count {
        if fields[row * width + column].is_some() {
            return false;
        }
    }
    row_count > 0
}

/// Why the column at that place is text, if it may not be meant to be: of rows with those numbers.
fn mixed_column(
    alloc: Global,
    format: &Format<'_>,
    name: &str,
    fields: &[Option<&[u8]>],
    width: usize,
    numbers: &[usize],
    is_full: bool,
    column: usize,
) -> Result<Option<MixedColumn>, AllocError>
    requires column { column < width }
    requires even { length fields.now ≡ width * length numbers.now }
{
    if is_all_null(fields, width, numbers.len(), column) {
        let name = String::from_str(alloc, name)?;
        return Ok(Some(MixedColumn {
            name,
            field: None,
            is_meant: is_full,
            is_compared: false,
        }));
    }
    let found = mixed_field(format, fields, width, numbers.len(), column);
    let Some((shape, found)) = found else {
        return Ok(None);
    };
    let Ok(text) = str::from_utf8(found.text) else {
        return Ok(None);
    };
    let reading = match (shape, number_form(text)) {
        (Shape::Number, Some(form)) => Some(number_reading(alloc, name, form)?),
        _ => None,
    };
    let text = reported(text);
    Ok(Some(MixedColumn {
        name: String::from_str(alloc, name)?,
        field: Some(TextField {
            shape,
            row: numbers.get(found.row).copied().unwrap_or(0),
            text: String::from_str(alloc, text)?,
            is_quoted_null: format.is_null_text(found.text),
            is_usual_null: format.null.is_empty() && format.more_nulls.is_empty(),
            reading,
        }),
        is_meant: found.is_mostly || is_null_text(text),
        is_compared: false,
    }))
}

/// The column at that place, if its fields are dates or numbers in another form.
fn other_column(
    alloc: Global,
    words: &Words<'_>,
    name: &str,
    fields: &[Option<&[u8]>],
    width: usize,
    numbers: &[usize],
    column: usize,
) -> Result<Option<MixedColumn>, AllocError>
    requires column { column < width }
    requires even { length fields.now ≡ width * length numbers.now }
{
    if let Some(mut found) = dated_column(alloc, name, fields, width, numbers, column)? {
        found.is_meant = compares_dates(words);
        found.is_compared = is_compared(alloc, words, name)?;
        return Ok(Some(found));
    }
    numbered_column(alloc, name, fields, width, numbers, column)
}

/// The columns of those names that are text, and may not be meant to be: of rows with those numbers.
pub(crate) fn mixed_columns(
    alloc: Global,
    format: &Format<'_>,
    names: &[String],
    types: &StructFields,
    fields: &[Option<&[u8]>],
    numbers: &[usize],
    is_full: bool,
    words: &Words<'_>,
) -> Result<Vec<MixedColumn>, AllocError>
    requires { length fields.now ≡ length names.now * length numbers.now }
{
    let mut columns = Vec::new(alloc);
    for column in 0..names.len() {
        let (name, width) = (names[column].as_str(), names.len());
        if !is_text(types, name) {
            continue;
        }
        if let Some(found) = mixed_column(
            alloc, format, name, fields, width, numbers, is_full, column,
        )? {
            columns.push(found)?;
        } else if let Some(found) = other_column(
            alloc, words, name, fields, width, numbers, column,
        )? {
            columns.push(found)?;
        }
    }
    Ok(columns)
}
