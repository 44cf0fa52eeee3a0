//! Where the declared columns stand in the input.
ghost use Rattle.std.specs.Prelude.{◌≡◌, ◌↔◌, Some, None, IsTrue, IfOk, IfErr, MatchOption};
ghost use Rattle.std.specs.Prelude.{MatchResult, length, ◌<◌, map, option_map};
ghost use Rattle.std.specs.List.{range_with_len};
ghost use Rattle.csv.specs.Records.{fields_of, field_at};
ghost use Rattle.vortex_types.specs.LogicalTypes.{field_count};
ghost use Rattle.vortex_types.specs.TypeOf.{struct_fields};
ghost use Rattle.rowfn_batches.specs.Layouts.{LacksFrom, IsFirstFrom, StandsOnce, StandAt};
ghost use Rattle.rowfn_batches.specs.Layouts.{RefusesName, RefusesHeader, given_place, StandsWhere};
ghost use Rattle.rowfn_batches.specs.Layouts.{RefusesPlace, RefusesColumn, declared_place};
ghost use Rattle.rowfn_batches.specs.Layouts.{width_by};
ghost use Rattle.rowfn_batches.specs.Spellings.{spelled_at, spelled_columns, spelled_where};

use crate::errors::StreamError;
use rowfn_csv::{ByteRecord, Spelled};
use std::alloc::{AllocError, Global};
use vortex_columns::StructFields;

/// Where the declared columns stand in each record of the input, and how many fields it has; nothing
/// without a header, as the first record shows it then.
#[derive(Drop)]
pub struct Layout {
    pub places: Vec<usize>,
    pub width: Option<usize>,
    /// The columns at their places, where truth values are read in any spelling; else nothing.
    pub spelled: Option<Vec<Spelled>>,
}

impl Layout {
    /// How many fields each record has where the first one has so many: that many, but no fewer than
    /// reach to each column.
    pub fn width_by(&self, found: usize) -> usize
        ensures { result ≡ width_by self.now.places.items found }
    {
        width_by(&self.places, found)
    }
}

/// So many fields, but no less than reach to each of those places.
fn width_by(places: &[usize], found: usize) -> usize
    ensures { result ≡ width_by places.now found }
{
    let mut width = found;
    for place in places {
        width = width.max(place.saturating_add(1));
    }
    width
}

/// Whether that field is the name.
fn is_named(header: &ByteRecord, index: usize, name: &str) -> bool
    ensures { IsTrue result ↔ field_at (fields_of header.now) index ≡ Some name.now }
{
    match header.get(index) {
        Some(field) => field == name.as_bytes(),
        None => false,
    }
}

/// The first field from that place on that is the name.
pub(crate) fn find_from(header: &ByteRecord, name: &str, start: usize) -> Option<usize>
    ensures { MatchOption result (LacksFrom (fields_of header.now) name.now start)
        (λ place. IsFirstFrom (fields_of header.now) name.now start place) }
{
    for i in start..header.len() {
        if is_named(header, i, name) {
            return Some(i);
        }
    }
    None
}

/// Where a name stands in a header. Refused where it is missing or stands twice.
fn place_of(alloc: Global, header: &ByteRecord, name: &str) -> Result<usize, StreamError>
    ensures { MatchResult result (StandsOnce (fields_of header.now) name.now)
        (RefusesName (fields_of header.now) name.now) }
{
    // A header has no more fields than a number counts, so there is a place behind each.
    let _count = header.len();
    let Some(place) = find_from(header, name, 0) else {
        return Err(StreamError::ColumnMissing(String::from_str(alloc, name)?));
    };
    match find_from(header, name, place + 1) {
        Some(_) => Err(StreamError::ColumnTwice(String::from_str(alloc, name)?)),
        None => Ok(place),
    }
}

/// The place that is given for a column.
fn given_place(said: &[Option<usize>], column: usize) -> Option<usize>
    ensures { result ≡ given_place said.now column }
{
    said.get(column).copied().unwrap_or(None)
}

/// The place that is said of a column, where the header has it. Refused where it has not.
fn reached(
    alloc: Global,
    header: &ByteRecord,
    place: usize,
    name: &str,
) -> Result<usize, StreamError>
    ensures { MatchResult result
        (λ found. (found ≡ place) × (place < length (fields_of header.now)))
        (RefusesPlace (fields_of header.now) place name.now) }
{
    if place < header.len() {
        return Ok(place);
    }
    Err(StreamError::PlaceMissing {
        name: String::from_str(alloc, name)?,
        place,
        found: header.len(),
    })
}

/// Where a column stands in a header: at the place that is said of it, else where its name does.
/// Refused where the header has no such place, and where the name is missing or stands twice.
fn column_place(
    alloc: Global,
    header: &ByteRecord,
    said: Option<usize>,
    name: &str,
) -> Result<usize, StreamError>
    ensures { MatchResult result
        (StandsWhere (fields_of header.now) said name.now)
        (RefusesColumn (fields_of header.now) said name.now) }
{
    match said {
        Some(place) => reached(alloc, header, place, name),
        None => place_of(alloc, header, name),
    }
}

/// Where each declared column stands in a header. Refused where one does not, with the name of the
/// first that does not.
fn places_of(
    alloc: Global,
    declared: &StructFields,
    said: &[Option<usize>],
    header: &ByteRecord,
) -> Result<Vec<usize>, StreamError>
    ensures { MatchResult result
        (λ places. StandAt (fields_of header.now) (struct_fields declared.now) said.now
        places.items)
        (RefusesHeader (fields_of header.now) (struct_fields declared.now) said.now) }
{
    let mut places = Vec::new(alloc);
    for k in 0..declared.len() {
        let place = column_place(alloc, header, given_place(said, k), declared.name(k))?;
        places.push(place)?;
    }
    Ok(places)
}

/// The layout by a header, and by the places that are said of columns. Refused where a declared
/// column does not stand there, or twice, with the name of the first that does not.
pub fn named_layout(
    alloc: Global,
    declared: &StructFields,
    said: &[Option<usize>],
    header: &ByteRecord,
) -> Result<Layout, StreamError>
    ensures places { IfOk result
        (λ layout. StandAt (fields_of header.now) (struct_fields declared.now) said.now
        layout.places.items) }
    ensures width { IfOk result (λ layout. layout.width ≡ Some (length (fields_of header.now))) }
    ensures refused { IfErr result
        (RefusesHeader (fields_of header.now) (struct_fields declared.now) said.now) }
{
    let places = places_of(alloc, declared, said, header)?;
    Ok(Layout {
        places,
        width: Some(header.len()),
        spelled: None,
    })
}

/// The layout of an input without a header: the declared columns in their order, but for those of
/// which a place is said.
pub fn declared_layout(
    alloc: Global,
    declared: &StructFields,
    said: &[Option<usize>],
) -> Result<Layout, AllocError>
    ensures places { IfOk result
        (λ layout. layout.places.items ≡ map (declared_place said.now)
        (range_with_len 0 (field_count (struct_fields declared.now)))) }
    ensures width { IfOk result (λ layout. layout.width ≡ None) }
{
    let mut places = Vec::new(alloc);
    for i in 0..declared.len() {
        places.push(given_place(said, i).unwrap_or(i))?;
    }
    Ok(Layout {
        places,
        width: None,
        spelled: None,
    })
}

/// A declared column at its place, and whether it is of truth values.
fn spelled_at(declared: &StructFields, places: &[usize], column: usize) -> Spelled
    requires { column < field_count (struct_fields declared.now) }
    ensures { result ≡ spelled_at (struct_fields declared.now) places.now column }
{
    Spelled {
        place: places.get(column).copied().unwrap_or(0),
        is_truth: declared.dtype(column).is_boolean(),
    }
}

/// The declared columns at their places, and which are of truth values.
fn spelled_columns(
    alloc: Global,
    declared: &StructFields,
    places: &[usize],
) -> Result<Vec<Spelled>, AllocError>
    ensures { IfOk result
        (λ columns. columns.items ≡ spelled_columns (struct_fields declared.now) places.now) }
{
    let mut columns = Vec::new(alloc);
    for column in 0..declared.len() {
        columns.push(spelled_at(declared, places, column))?;
    }
    Ok(columns)
}

/// The layout with its columns, where their truth values are read in any spelling.
pub fn with_spelling(
    alloc: Global,
    declared: &StructFields,
    any_truths: bool,
    layout: Layout,
) -> Result<Layout, AllocError>
    ensures { IfOk result (λ found. (found.places ≡ layout.places) × (found.width ≡ layout.width)
        × (option_map (λ columns. columns.items) found.spelled
        ≡ spelled_where any_truths (struct_fields declared.now) layout.places.items)) }
{
    let Layout { places, width, .. } = layout;
    let spelled = if any_truths {
        Some(spelled_columns(alloc, declared, &places)?)
    } else {
        None
    };
    Ok(Layout {
        places,
        width,
        spelled,
    })
}
