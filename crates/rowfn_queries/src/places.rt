//! Where columns stand in the rows of an input.
ghost use Rattle.std.specs.Prelude.{◌≡◌, IfOk, map};
ghost use Rattle.std.specs.List.{range_with_len};
ghost use Rattle.vortex_types.specs.FieldNames.{field_name};
ghost use Rattle.vortex_types.specs.LogicalTypes.{field_count};
ghost use Rattle.vortex_types.specs.TypeOf.{struct_fields};
ghost use Rattle.rowfn_queries.specs.Places.{place_of_digits, numbered_place, declared_place, turn};
ghost use Rattle.rowfn_queries.specs.Places.{place_without_header, place_of, places_of};
ghost use Rattle.rowfn_queries.specs.DeclaredColumns.{declared_by};

use crate::declared::Declared;
use crate::inference::begins_number;
use std::alloc::{AllocError, Global};
use vortex_cells::digits::read_integer_in;
use vortex_columns::StructFields;

/// The last place that a column may have, counted from 1.
pub const MOST_COLUMNS: i128 = 1_000_000;

/// The place that digits say, counted from 1, as one that is counted from 0; none where that is none.
pub(crate) fn place_of_digits(digits: &[u8]) -> Option<usize>
    ensures { result ≡ place_of_digits digits.now }
{
    let number = read_integer_in(digits)?;
    if number < 1 || number > MOST_COLUMNS {
        return None;
    }
    Some((number - 1) as usize)
}

/// The place of the column `c1`, `c2`, .., counted from 0; none where the name is no such.
pub(crate) fn numbered_place(name: &str) -> Option<usize>
    ensures { result ≡ numbered_place name.now }
{
    let bytes = name.as_bytes();
    match bytes.first() {
        Some(b'c') if begins_number(&bytes[1..]) => place_of_digits(&bytes[1..]),
        _ => None,
    }
}

/// The place that a declared column has by its declaration.
fn declared_place(declared: &Declared, name: &str) -> Option<usize>
    ensures { result ≡ declared_place (declared_by declared.now) name.now }
{
    let (column, _) = declared.columns.find(name)?;
    declared.places.get(column).copied().unwrap_or(None)
}

/// The number of a declared column, counted from 0.
fn turn(declared: &Declared, name: &str) -> Option<usize>
    ensures { result ≡ turn (declared_by declared.now) name.now }
{
    let (column, _) = declared.columns.find(name)?;
    Some(column)
}

/// The place of a column of an input without a header.
fn place_without_header(declared: &Declared, name: &str) -> Option<usize>
    ensures { result ≡ place_without_header (declared_by declared.now) name.now }
{
    if let Some(place) = declared_place(declared, name) {
        return Some(place);
    }
    if let Some(place) = numbered_place(name) {
        return Some(place);
    }
    turn(declared, name)
}

/// The place of a column; none where the header says it.
pub(crate) fn place_of(declared: &Declared, header: bool, name: &str) -> Option<usize>
    ensures { result ≡ place_of (declared_by declared.now) header name.now }
{
    if header {
        declared_place(declared, name)
    } else {
        place_without_header(declared, name)
    }
}

/// The place of each column; none where the header says it.
pub(crate) fn places_of(
    alloc: Global,
    declared: &Declared,
    header: bool,
    columns: &StructFields,
) -> Result<Vec<Option<usize>>, AllocError>
    ensures { IfOk result (λ places. places.items
        ≡ places_of (declared_by declared.now) header (struct_fields columns.now)) }
{
    let mut places = Vec::new(alloc);
    for k in 0..columns.len() {
        places.push(place_of(declared, header, columns.name(k)))?;
    }
    Ok(places)
}
