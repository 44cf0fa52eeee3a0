//! The types that columns take from the first rows of an input.
ghost use Rattle.std.specs.Prelude.{◌≡◌, ◌*◌, IfOk, IfErr, map, length, option_map};
ghost use Rattle.std.specs.Prelude.{string_bytes};
ghost use Rattle.vortex_errors.specs.Answers.{AnswersUnlessMemory};
ghost use Rattle.rowfn_queries.specs.Columns.{gathered_in, none, typed_columns};
ghost use Rattle.rowfn_queries.specs.Inference.{inferred_types};
ghost use Rattle.rowfn_queries.specs.Reading.{lettered, fields_seen, AreInferred};
ghost use Rattle.rowfn_queries.specs.Refusals.{IsOfInput};

use crate::again::Again;
use crate::columns::Gathered;
use crate::error::QueryError;
use crate::inference::infer;
use crate::mixed::{MixedColumn, mixed_columns};
use crate::query::Words;
use crate::rows::{Rows, read_named, read_numbered, read_rows};
use crate::scopes::typed_columns;
use rowfn_csv::{Batch, Format, RecordError, Records, truth_spelled};
use std::alloc::{AllocError, Global};
use std::io::{self, Read};
use vortex_columns::{StructFields, VortexResult};

/// What the beginning of an input shows.
#[derive(Drop)]
pub(crate) struct Sample {
    /// The names that the header has, each once, or `c1`, `c2`, .. without a header.
    pub(crate) names: Vec<String>,
    /// The wanted ones, with the types of their fields.
    pub(crate) columns: Gathered,
    /// Those of them that have numbers, and are text.
    pub(crate) mixed: Vec<MixedColumn>,
    /// How reading failed, where it did.
    pub(crate) failed: Option<io::Error>,
}

/// No columns, whose types no fields gave.
fn no_columns(alloc: Global) -> Gathered
    ensures none { gathered_in result ≡ none }
    ensures inferred { AreInferred (gathered_in result) }
{
    Gathered::none(alloc)
}

impl Sample {
    pub(crate) fn none(alloc: Global) -> Sample
        ensures none { gathered_in result.columns ≡ none }
        ensures inferred { AreInferred (gathered_in result.columns) }
    {
        Sample {
            names: Vec::new(alloc),
            columns: no_columns(alloc),
            mixed: Vec::new(alloc),
            failed: None,
        }
    }
}

/// A field that spells a truth value in letters, as `true` or `false`; `1` and `0` are numbers here.
fn lettered(field: &[u8]) -> &[u8]
    ensures { result.now ≡ lettered field.now }
{
    if field == b"1".as_slice() || field == b"0".as_slice() {
        field
    } else {
        truth_spelled(field)
    }
}

/// A field, which is `true` or `false` where it spells a truth value in letters.
fn lettered_field(field: Option<&[u8]>) -> Option<&[u8]>
    ensures { option_map (λ f. f.now) result
        ≡ option_map lettered (option_map (λ f. f.now) field.entry) }
{
    match field {
        Some(bytes) => Some(lettered(bytes)),
        None => None,
    }
}

/// The fields, of which those that spell a truth value in letters are `true` and `false`.
fn all_lettered<'b>(
    alloc: Global,
    fields: &[Option<&'b [u8]>],
) -> Result<Vec<Option<&'b [u8]>>, AllocError>
    ensures { IfOk result (λ found. map (option_map (λ f. f.now)) found.items
        ≡ map (option_map lettered) (map (option_map (λ f. f.now)) fields.now)) }
{
    let mut found = Vec::new(alloc);
    for field in fields {
        found.push(lettered_field(*field))?;
    }
    Ok(found)
}

/// The fields of a batch; truth values in letters as `true` and `false`, where they are read in any
/// spelling.
fn fields_of(
    alloc: Global,
    batch: &Batch,
    any_truths: bool,
) -> Result<Vec<Option<&[u8]>>, AllocError>
    ensures { IfOk result (λ found. map (option_map (λ f. f.now)) found.items
        ≡ fields_seen any_truths batch.now.fields) }
{
    let fields = batch.fields(alloc)?;
    if any_truths {
        return all_lettered(alloc, &fields);
    }
    Ok(fields)
}

/// The columns of a header of those names, with the types and kinds of their fields, of which each row has one
/// for each; none where it has not.
fn columns_of(
    alloc: Global,
    names: &[String],
    batch: &Batch,
    any_truths: bool,
) -> VortexResult<Gathered>
    ensures types { AnswersUnlessMemory result (λ columns.
        length batch.now.fields ≡ length names.now * length batch.now.spans
        → gathered_in columns ≡ typed_columns (map string_bytes names.now)
        (inferred_types (fields_seen any_truths batch.now.fields) (length names.now)
        (length batch.now.spans))) }
    ensures inferred { IfOk result (λ columns. AreInferred (gathered_in columns)) }
{
    let fields = fields_of(alloc, batch, any_truths)?;
    let (width, row_count) = (names.len(), batch.len());
    // each row has a field for each place
    if width.checked_mul(row_count) != Some(fields.len()) {
        return Ok(no_columns(alloc));
    }
    let types = infer(alloc, &fields, width, row_count)?;
    typed_columns(alloc, names, &types)
}

/// The columns of rows that are text, by one field, and have numbers, or dates or numbers in another
/// form.
fn mixed_of(
    alloc: Global,
    format: &Format<'_>,
    rows: &Rows,
    types: &StructFields,
    words: &Words<'_>,
) -> Result<Vec<MixedColumn>, AllocError> {
    let fields = rows.batch.fields(alloc)?;
    let (names, numbers) = (rows.names.as_slice(), rows.numbers.as_slice());
    if names.len().checked_mul(numbers.len()) != Some(fields.len()) {
        return Ok(Vec::new(alloc));
    }
    mixed_columns(
        alloc,
        format,
        names,
        types,
        &fields,
        numbers,
        rows.is_full,
        words,
    )
}

/// Reads the header, where there is one, and the first rows: without bad ones, where they are left
/// out. Fails where the header cannot be read, and where memory runs out; a read that fails in the
/// rows ends them, and is kept.
pub(crate) fn read_sample<R: Read>(
    alloc: Global,
    words: &Words<'_>,
    format: Format<'_>,
    max_field: usize,
    wanted: &[String],
    reader: &mut Again<R>,
) -> Result<Sample, QueryError>
    ensures inferred { IfOk result (λ sample. AreInferred (gathered_in sample.columns)) }
    ensures refused { IfErr result IsOfInput }
{
    let mut sample = Sample::none(alloc);
    let mut records = Records::new(alloc, format, max_field, reader);
    let mut rows = if words.header {
        read_named(alloc, &mut records, max_field, wanted, &mut sample.names)?
    } else {
        read_numbered(alloc, &mut records, wanted, &mut sample.names)?
    };
    match read_rows(&mut records, &mut rows, format.fits, words.skips) {
        Ok(()) => {}
        Err(RecordError::Io(error)) => sample.failed = Some(error),
        Err(RecordError::OutOfMemory) => return Err(QueryError::OutOfMemory),
    }
    sample.columns = columns_of(alloc, &rows.names, &rows.batch, format.any_truths)?;
    sample.mixed = mixed_of(alloc, &format, &rows, &sample.columns.fields, words)?;
    Ok(sample)
}
