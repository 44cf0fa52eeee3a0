//! What the fields of a batch make of the columns that an expression declares.
ghost use Rattle.std.specs.Prelude.{◌≡◌, ◌<◌, ◌*◌, ◌↔◌, IsTrue, None, map, length, MatchOption};
ghost use Rattle.std.specs.Prelude.{List, false, true, get_or, ℕ, ◌+◌, ◌≤◌};
ghost use Rattle.vortex_columns.specs.ColumnView.{ColumnView};
ghost use Rattle.vortex_errors.specs.Answers.{AnswersUnlessMemory};
ghost use Rattle.vortex_types.specs.LogicalTypes.{field_count};
ghost use Rattle.vortex_types.specs.TypeOf.{struct_fields};
ghost use Rattle.rowfn_batches.specs.Fields.{field_in};
ghost use Rattle.rowfn_batches.specs.Batches.{column_at, AllFit, IsFirstMisfit};
ghost use Rattle.rowfn_batches.specs.Batches.{AreColumns, fits_in, IsMisfit, IsLeftmost};
ghost use Rattle.rowfn_batches.specs.Batches.{AreEven, RefusesBatch, ReadsColumns, fits_column};
ghost use Rattle.std.specs.Prelude.{slice_get};
ghost use Rattle.vortex_expressions.specs.Calls.{kind_at};

use std::alloc::{AllocFailed, Global};
use thiserror::Error;
use vortex_columns::{Column, StructFields, VortexError, VortexResult};
use vortex_logical::kind::Kind;
use vortex_logical_cells::{column_of_kind, field_fits_kind};

/// Why the fields of a batch make no columns. Records and columns are counted from 0.
#[derive(Debug, Drop, Error)]
pub enum FieldsError {
    /// That field is no value of its column; all before it are, row by row and in a row from
    /// left to right.
    #[error("the field of row {row} and column {column} does not fit")]
    Misfit { row: usize, column: usize },
    /// Each field is a value of its column, but a text of that column is longer than 4,294,967,295
    /// bytes, or its texts take more buffers than a column has; or no cells have that type.
    #[error("the texts of column {column} are too long for a column")]
    TextsTooLong { column: usize },
    /// There are not as many fields as the rows have.
    #[error("the fields are not those of whole rows")]
    Uneven,
    /// E9: memory ran out.
    #[error("out of memory")]
    OutOfMemory,
}

/// What is called here refuses only where memory is refused.
impl From<VortexError> for FieldsError {
    ghost use Rattle.rowfn_batches.specs.declared.columns.FieldsError.TheVariants.{OutOfMemory};
    ghost use Rattle.std.specs.Prelude.{◌≡◌};

    ghost from_gives = { λ _ e. e ≡ OutOfMemory };

    fn from(_error: VortexError) -> FieldsError {
        FieldsError::OutOfMemory
    }
}

impl<T: Drop> From<AllocFailed<T>> for FieldsError {
    ghost use Rattle.rowfn_batches.specs.declared.columns.FieldsError.TheVariants.{OutOfMemory};
    ghost use Rattle.std.specs.Prelude.{◌≡◌};

    ghost from_gives = { λ _ e. e ≡ OutOfMemory };

    fn from(_error: AllocFailed<T>) -> FieldsError {
        FieldsError::OutOfMemory
    }
}

/// The kind that is listed at a place.
fn listed_kind(kinds: &[Kind], place: usize) -> Option<&Kind>
    ensures { MatchOption result (slice_get kinds.now place ≡ None)
        (λ k. slice_get kinds.now place ≡ Some k.now) }
{
    kinds.get(place)
}

/// The kind of the column at a place; those after the list are plain.
pub(crate) fn kind_at(kinds: &[Kind], place: usize) -> Kind
    ensures { result ≡ kind_at kinds.now place }
{
    match listed_kind(kinds, place) {
        Some(kind) => *kind,
        None => Kind::Plain,
    }
}

/// Whether a field is a value of a column.
fn fits_column(declared: &StructFields, kinds: &[Kind], column: usize, field: Option<&[u8]>) -> bool
    requires { column < field_count (struct_fields declared.now) }
    ensures { result
        ≡ fits_column (struct_fields declared.now) kinds.now column (field_in field.entry) }
{
    field_fits_kind(kind_at(kinds, column), declared.dtype(column), field)
}

/// The column of a column's fields; nothing where one is no value of it, or the texts are too long.
/// E9 where an allocation fails.
fn read_column(
    alloc: Global,
    declared: &StructFields,
    kinds: &[Kind],
    fields: &[Option<&[u8]>],
    row_count: usize,
    column: usize,
) -> VortexResult<Option<Column>>
    requires column { column < field_count (struct_fields declared.now) }
    requires even { AreEven (struct_fields declared.now) kinds.now
        (map field_in fields.now) row_count }
    ensures { AnswersUnlessMemory result (λ c. c
        ≡ column_at (struct_fields declared.now) kinds.now
        (map field_in fields.now) row_count column) }
{
    let width = declared.len();
    column_of_kind(
        alloc,
        kind_at(kinds, column),
        declared.dtype(column),
        fields,
        width,
        row_count,
        column,
    )
}

/// The first field that does not fit its column, row by row and in a row from left to right.
fn first_misfit(declared: &StructFields, kinds: &[Kind], fields: &[Option<&[u8]>]) -> Option<usize>
    requires { 0 < field_count (struct_fields declared.now) }
    ensures { MatchOption result
        (AllFit (struct_fields declared.now) kinds.now (map field_in fields.now))
        (IsFirstMisfit (struct_fields declared.now) kinds.now (map field_in fields.now)) }
{
    for (place, field) in fields.iter().enumerate() {
        if !fits_column(declared, kinds, place % declared.len(), *field) {
            return Some(place);
        }
    }
    None
}

/// Whether the field of that row and column fits.
fn fits_in(
    declared: &StructFields,
    kinds: &[Kind],
    fields: &[Option<&[u8]>],
    row: usize,
    column: usize,
) -> bool
    requires column { column < field_count (struct_fields declared.now) }
    requires place { row * field_count (struct_fields declared.now) + column < length fields.now }
    ensures { result ≡ fits_in (struct_fields declared.now) kinds.now
        (map field_in fields.now) row column }
{
    let place = row * declared.len() + column;
    fits_column(declared, kinds, column, fields[place])
}

/// Where a column stands in a row of the input.
fn place_of(places: &[usize], column: usize) -> usize
    ensures { result ≡ get_or places.now column 0 }
{
    places.get(column).copied().unwrap_or(0)
}

/// Of two columns the second one where its field does not fit, and it stands before the first in
/// the input; else the first.
fn nearer(
    declared: &StructFields,
    kinds: &[Kind],
    places: &[usize],
    fields: &[Option<&[u8]>],
    row: usize,
    columns: (usize, usize),
) -> usize
    requires column { columns.1 < field_count (struct_fields declared.now) }
    requires place { row * field_count (struct_fields declared.now) + columns.1
        < length fields.now }
    ensures second { get_or places.now columns.1 0 < get_or places.now columns.0 0
        → fits_in (struct_fields declared.now) kinds.now
        (map field_in fields.now) row columns.1 ≡ false
        → result ≡ columns.1 }
    ensures before { get_or places.now columns.0 0 ≤ get_or places.now columns.1 0
        → result ≡ columns.0 }
    ensures fits { fits_in (struct_fields declared.now) kinds.now
        (map field_in fields.now) row columns.1
        ≡ true → result ≡ columns.0 }
{
    let (first, second) = columns;
    if place_of(places, first) <= place_of(places, second) {
        return first;
    }
    if fits_in(declared, kinds, fields, row, second) {
        return first;
    }
    second
}

/// Of the fields of a row that do not fit, the column of the leftmost: each column has its place in
/// the input. `column` is the first in the order of declaration whose field does not fit.
pub(crate) fn leftmost_misfit(
    declared: &StructFields,
    kinds: &[Kind],
    places: &[usize],
    fields: &[Option<&[u8]>],
    row: usize,
    column: usize,
) -> usize
    requires misfit { IsMisfit (struct_fields declared.now) kinds.now
        (map field_in fields.now) row column }
    requires even { (n : ℕ) × AreEven (struct_fields declared.now) kinds.now
        (map field_in fields.now) n }
    ensures { IsLeftmost (struct_fields declared.now) kinds.now
        (map field_in fields.now) places.now row
        result }
{
    let width = declared.len();
    let mut leftmost = column;
    for other in column + 1..width {
        leftmost = nearer(declared, kinds, places, fields, row, (leftmost, other));
    }
    leftmost
}

/// Why the fields of that column make none.
fn refusal(
    declared: &StructFields,
    kinds: &[Kind],
    fields: &[Option<&[u8]>],
    row_count: usize,
    column: usize,
) -> FieldsError
    requires column { column < field_count (struct_fields declared.now) }
    requires even { AreEven (struct_fields declared.now) kinds.now
        (map field_in fields.now) row_count }
    requires said { column_at (struct_fields declared.now) kinds.now
        (map field_in fields.now) row_count
        column ≡ None }
    requires before { (cs : List ColumnView) × AreColumns (struct_fields declared.now) kinds.now
        (map field_in fields.now) row_count column cs }
    ensures { RefusesBatch (struct_fields declared.now) kinds.now
        (map field_in fields.now) row_count result }
{
    match first_misfit(declared, kinds, fields) {
        Some(place) => FieldsError::Misfit {
            row: place / declared.len(),
            column: place % declared.len(),
        },
        None => FieldsError::TextsTooLong { column },
    }
}

/// Whether so many fields are those of whole rows.
fn is_even(width: usize, row_count: usize, count: usize) -> bool
    ensures { IsTrue result ↔ (count ≡ width * row_count) }
{
    match width.checked_mul(row_count) {
        Some(wanted) => wanted == count,
        None => false,
    }
}

/// The columns of a batch, in the order in which they are declared, whose values have these kinds by
/// place; further columns are plain. The fields are row by row, one for each column; `None` is a null
/// field.
///
/// A field of a plain column is the cell of a script as it is, but that a text's has no quotes, and
/// `null` spelled out is no null: a text of four letters in a text's column, and in any other a
/// misfit. Bytes that are not UTF-8 fit no column. A field of a kind is a text of the kind, and its
/// column has the integers that stand for them. Which field is named, and when none is,
/// `FieldsError` says.
pub fn read_columns(
    alloc: Global,
    declared: &StructFields,
    kinds: &[Kind],
    fields: &[Option<&[u8]>],
    row_count: usize,
) -> Result<Vec<Column>, FieldsError>
    ensures { ReadsColumns (struct_fields declared.now) kinds.now
        (map field_in fields.now) row_count
        result }
{
    if !is_even(declared.len(), row_count, fields.len()) {
        return Err(FieldsError::Uneven);
    }
    let mut columns = Vec::new(alloc);
    for place in 0..declared.len() {
        match read_column(alloc, declared, kinds, fields, row_count, place)? {
            Some(column) => columns.push(column)?,
            None => return Err(refusal(declared, kinds, fields, row_count, place)),
        }
    }
    Ok(columns)
}
