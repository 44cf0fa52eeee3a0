//! The type that the fields of a column have, with the kind of its values.
ghost use Rattle.std.specs.Prelude.{◌≡◌, ◌<◌, ◌*◌, ◌&&◌, ◌||◌, [], IfOk, map, length, option_map};
ghost use Rattle.std.specs.List.{list_any};
ghost use Rattle.vortex_types.specs.LogicalTypes.{integer_type};
ghost use Rattle.vortex_types.specs.TypeOf.{type_of, allows_null};
ghost use Rattle.vortex_logical.specs.declared.kind.Kind.TheVariants.{F64};
ghost use Rattle.vortex_logical.specs.Cells.{stored_of_text};
ghost use Rattle.rowfn_queries.specs.ColumnTypes.{type_in, kinded};
ghost use Rattle.rowfn_queries.specs.Inference.{holds, inferred, column_fields};
ghost use Rattle.rowfn_queries.specs.Inference.{begins_number, is_decimal, is_number};
ghost use Rattle.rowfn_queries.specs.Inference.{is_fractional, begins_digit, begins_decimal};
ghost use Rattle.rowfn_queries.specs.Inference.{begins_signed, is_finite, is_float, is_numeric};
ghost use Rattle.rowfn_queries.specs.Inference.{is_of_kind, first_type, inferred_types};
ghost use Rattle.rowfn_queries.specs.Seen.{seen, seen_with, type_seen};

use crate::column_type::ColumnType;
use std::alloc::{AllocError, Global};
use std::str;
use vortex_cells::cells::cell_fits;
use vortex_columns::{DType, Nullability, PType};
use vortex_logical::cells::read_cell;
use vortex_logical::kind::Kind;

/// The integer that stands for the infinite float of 64 bits; those beyond it stand for a NaN.
const INFINITE_KEY: u64 = 9218868437227405312;

/// Whether a field is null or says a value of the type.
fn holds(dtype: &DType, field: Option<&[u8]>) -> bool
    ensures { result ≡ holds (type_of dtype.now) (option_map (λ f. f.now) field.entry) }
{
    match field {
        None => true,
        Some(bytes) => match str::from_utf8(bytes) {
            Ok(text) => cell_fits(dtype, Some(text)),
            Err(_) => false,
        },
    }
}

/// Whether a text begins with a digit that is not 0.
pub(crate) fn begins_number(digits: &[u8]) -> bool
    ensures { result ≡ begins_number digits.now }
{
    match digits.first() {
        Some(first) => first.is_ascii_digit() && *first != b'0',
        None => false,
    }
}

/// Whether digits, with a minus sign before them or without, are the decimal text of their number:
/// `02134`, `-0` and `00` are not.
fn is_decimal(text: &[u8]) -> bool
    ensures { result ≡ is_decimal text.now }
{
    match text.first() {
        Some(b'-') => begins_number(&text[1..]),
        Some(_) => text == b"0".as_slice() || begins_number(text),
        None => false,
    }
}

/// Whether a field is null or the decimal text of a number that `i64` holds.
fn is_number(field: Option<&[u8]>) -> bool
    ensures { result ≡ is_number (option_map (λ f. f.now) field.entry) }
{
    match field {
        None => true,
        Some(text) => {
            let integer = DType::Primitive(PType::I64, Nullability::NonNullable);
            is_decimal(text) && holds(&integer, Some(text))
        }
    }
}

fn is_fractional(byte: u8) -> bool
    ensures { result ≡ is_fractional byte }
{
    byte == b'.' || byte == b'E' || byte == b'e'
}

/// Whether a number has a point or an exponent.
fn has_fraction(text: &[u8]) -> bool
    ensures { result ≡ list_any is_fractional text.now }
{
    text.iter().any(|byte| is_fractional(*byte))
}

fn begins_digit(text: &[u8]) -> bool
    ensures { result ≡ begins_digit text.now }
{
    match text.first() {
        Some(first) => first.is_ascii_digit(),
        None => false,
    }
}

/// Whether a text begins with a point, or with a digit, and no digit follows a first 0: `00.5` does
/// not, nor does `+0.5`.
fn begins_decimal(text: &[u8]) -> bool
    ensures { result ≡ begins_decimal text.now }
{
    match text.first() {
        Some(b'0') => !begins_digit(&text[1..]),
        Some(first) => *first == b'.' || first.is_ascii_digit(),
        None => false,
    }
}

/// The same after a minus sign, or without.
fn begins_signed(text: &[u8]) -> bool
    ensures { result ≡ begins_signed text.now }
{
    match text.first() {
        Some(b'-') => begins_decimal(&text[1..]),
        _ => begins_decimal(text),
    }
}

/// Whether a text is a float that is neither infinite nor a NaN.
fn is_finite(text: &[u8]) -> bool
    ensures { result ≡ is_finite (stored_of_text F64 text.now) }
{
    match read_cell(Kind::F64, text) {
        Some(key) => key.unsigned_abs() < INFINITE_KEY,
        None => false,
    }
}

/// Whether a field is null, or a float that is finite, with a point or an exponent: `1e400` and `nan`
/// are not.
fn is_float(field: Option<&[u8]>) -> bool
    ensures { result ≡ is_float (option_map (λ f. f.now) field.entry) }
{
    match field {
        None => true,
        Some(text) => begins_signed(text) && has_fraction(text) && is_finite(text),
    }
}

/// The same, or the decimal text of a number that `i64` holds.
pub(crate) fn is_numeric(field: Option<&[u8]>) -> bool
    ensures { result ≡ is_numeric (option_map (λ f. f.now) field.entry) }
{
    is_number(field) || is_float(field)
}

/// Whether what held of fields before holds of one more, which is a whole number or not.
fn and_numeric(before: bool, is_number: bool, field: Option<&[u8]>) -> bool
    ensures { result ≡ (before && (is_number || is_float (option_map (λ f. f.now) field.entry))) }
{
    before && (is_number || is_float(field))
}

/// Whether a field is null or a text of the kind.
fn is_of_kind(kind: Kind, field: Option<&[u8]>) -> bool
    ensures { result ≡ is_of_kind kind (option_map (λ f. f.now) field.entry) }
{
    match field {
        None => true,
        Some(text) => read_cell(kind, text).is_some(),
    }
}

/// Whether what held of fields before holds of one more.
fn and_of_kind(before: bool, kind: Kind, field: Option<&[u8]>) -> bool
    ensures { result ≡ (before && is_of_kind kind (option_map (λ f. f.now) field.entry)) }
{
    before && is_of_kind(kind, field)
}

/// What is known of the fields of a column.
#[derive(Clone, Copy)]
struct Seen {
    /// Each field that is not null fits `bool`.
    is_bool: bool,
    /// Each field that is not null is the decimal text of a number that `i64` holds.
    is_integer: bool,
    /// Each field that is not null is a number that is an `f64`.
    is_real: bool,
    is_date: bool,
    is_timestamp: bool,
    has_null: bool,
    has_value: bool,
}

impl Seen {
    /// What is known of no fields.
    fn none() -> Seen
        ensures { result ≡ seen [] }
    {
        Seen {
            is_bool: true,
            is_integer: true,
            is_real: true,
            is_date: true,
            is_timestamp: true,
            has_null: false,
            has_value: false,
        }
    }

    /// What is known with one field more.
    fn with(self, field: Option<&[u8]>) -> Seen
        ensures { result ≡ seen_with self (option_map (λ f. f.now) field.entry) }
    {
        let number = is_number(field);
        Seen {
            is_bool: self.is_bool && holds(&DType::Bool(Nullability::NonNullable), field),
            is_integer: self.is_integer && number,
            is_real: and_numeric(self.is_real, number, field),
            is_date: and_of_kind(self.is_date, Kind::Date, field),
            is_timestamp: and_of_kind(self.is_timestamp, Kind::Timestamp, field),
            has_null: self.has_null || field.is_none(),
            has_value: self.has_value || field.is_some(),
        }
    }

    /// The type that stores such fields, of which some is not null, and the kind of their values.
    fn first_type(self, nullability: Nullability) -> ColumnType
        ensures { type_in result ≡ first_type self.is_bool self.is_integer self.is_real self.is_date
            self.is_timestamp (allows_null nullability) }
    {
        if self.is_bool {
            ColumnType::plain(DType::Bool(nullability))
        } else if self.is_integer {
            ColumnType::plain(DType::Primitive(PType::I64, nullability))
        } else if self.is_real {
            stored(Kind::F64, PType::I64, nullability)
        } else if self.is_date {
            stored(Kind::Date, PType::I32, nullability)
        } else if self.is_timestamp {
            stored(Kind::Timestamp, PType::I64, nullability)
        } else {
            ColumnType::plain(DType::Utf8(nullability))
        }
    }

    /// The type of such fields.
    fn column(self) -> ColumnType
        ensures { type_in result ≡ type_seen self }
    {
        let nullability = if self.has_null {
            Nullability::Nullable
        } else {
            Nullability::NonNullable
        };
        if self.has_value {
            self.first_type(nullability)
        } else {
            ColumnType::plain(DType::Utf8(nullability))
        }
    }
}

/// Integers of a type whose values are of a kind.
fn stored(kind: Kind, ptype: PType, nullability: Nullability) -> ColumnType
    ensures { type_in result ≡ kinded kind (integer_type ptype (allows_null nullability)) }
{
    ColumnType {
        dtype: DType::Primitive(ptype, nullability),
        kind,
    }
}

/// The type of a column, of rows of so many fields.
fn infer_column(
    fields: &[Option<&[u8]>],
    width: usize,
    row_count: usize,
    column: usize,
) -> ColumnType
    requires column { column < width }
    requires even { length fields.now ≡ width * row_count }
    ensures { type_in result ≡ inferred
        (column_fields (map (option_map (λ f. f.now)) fields.now) width row_count column) }
{
    let mut seen = Seen::none();
    for row in 0..row_count {
        seen = seen.with(fields[row * width + column]);
    }
    seen.column()
}

/// The types of columns, with the kinds of their values, by their fields, which stand row by row, one
/// for each column. By those that are not null a column is `bool` where each says a truth value, `i64`
/// where each is the decimal text of its number (`02134`, `-0` and `+1` are not), `f64` where each is
/// a number (`nan`, `inf` and `1e400` are not), a date or a timestamp where each is one, else `utf8`,
/// and `utf8` where there is none. It has null where a field is null.
pub fn infer(
    alloc: Global,
    fields: &[Option<&[u8]>],
    width: usize,
    row_count: usize,
) -> Result<Vec<ColumnType>, AllocError>
    requires { length fields.now ≡ width * row_count }
    ensures { IfOk result (λ types. map (λ t. type_in t) types.items
        ≡ inferred_types (map (option_map (λ f. f.now)) fields.now) width row_count) }
{
    let mut types = Vec::new(alloc);
    for column in 0..width {
        types.push(infer_column(fields, width, row_count, column))?;
    }
    Ok(types)
}
