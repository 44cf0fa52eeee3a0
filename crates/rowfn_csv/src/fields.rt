//! The fields of a record as a batch takes them.
ghost use Rattle.std.specs.Prelude.{◌≡◌, ◌≢◌, ◌++◌, ◌∷◌, [], Bool, List};
ghost use Rattle.std.specs.Prelude.{map, OnOk, IfOk};
ghost use Rattle.std.specs.Prelude.{option_map, false};
ghost use Rattle.std.specs.Option.{option_map_or};
ghost use Rattle.csv.specs.Records.{fields_of};
ghost use Rattle.rowfn_csv.specs.Records.{Field, SaysFields, quoted_at, is_filled, has_surplus};
ghost use Rattle.rowfn_csv.specs.Formats.{is_null_field};
ghost use Rattle.rowfn_csv.specs.Records.{without_line_end, field_spelled};
ghost use Rattle.rowfn_csv.specs.KeptLines.{bytes_between};
ghost use Rattle.rowfn_csv.specs.Scanning.{Knows};

use crate::batch::Batch;
use crate::format::Format;
use crate::raw::Quotes;
use crate::records::Span;
use crate::tee::Tee;
use crate::truths::{Chosen, Spelled, respelled};
use csv::ByteRecord;
use std::alloc::AllocError;
use std::io::Read;

/// Whether the field of a record at that index is null: a text for null, in no quotes or where quotes
/// make no difference. The record has that span of what is kept.
#[inline(always)]
fn is_null<R: Read>(
    field: &[u8],
    kept: &Tee<R>,
    span: Span,
    format: &Format<'_>,
    quotes: &mut Quotes,
    index: usize,
) -> Result<bool, AllocError>
    requires { Knows format.now.delimiter (bytes_between kept.now span.start span.end) quotes.old }
    ensures knows { Knows format.now.delimiter (bytes_between kept.now span.start span.end)
        quotes.new }
    ensures null { (closed : Bool) → (said : List Field) → format.now.delimiter ≢ 34
        → SaysFields format.now.delimiter closed
        (without_line_end (bytes_between kept.now span.start span.end)) said
        → IfOk result (λ is_null. is_null
        ≡ is_null_field format.now field.now (quoted_at said index)) }
{
    // nearly no field needs its line
    if !format.is_null_text(field) {
        return Ok(false);
    }
    if format.quoted_nulls {
        return Ok(true);
    }
    let line = kept.between(span.start, span.end);
    Ok(!quotes.is_quoted(line, format.delimiter, index)?)
}

/// Whether there is a field, and it is not empty.
fn is_filled(field: Option<&[u8]>) -> bool
    ensures { result ≡ option_map_or is_filled (option_map (λ f. f.now) field.entry) false }
{
    match field {
        Some(field) => !field.is_empty(),
        None => false,
    }
}

/// Whether a field of a record past that many is not empty.
pub fn has_surplus(fields: &ByteRecord, width: usize) -> bool
    ensures { result ≡ has_surplus (fields_of fields.now) width }
{
    for index in width..fields.len() {
        if is_filled(fields.get(index)) {
            return true;
        }
    }
    false
}

/// Adds the field of a record in a column to the batch; null or an empty text where the record has
/// none, as the format says. The record has that span of what is kept.
#[inline(always)]
fn add_field<R: Read>(
    fields: &ByteRecord,
    kept: &Tee<R>,
    span: Span,
    format: &Format<'_>,
    quotes: &mut Quotes,
    batch: &mut Batch,
    column: Spelled,
) -> Result<(), AllocError>
    requires { Knows format.now.delimiter (bytes_between kept.now span.start span.end) quotes.old }
    ensures knows { Knows format.now.delimiter (bytes_between kept.now span.start span.end)
        quotes.new }
    ensures field { (closed : Bool) → (said : List Field) → format.now.delimiter ≢ 34
        → SaysFields format.now.delimiter closed
        (without_line_end (bytes_between kept.now span.start span.end)) said
        → OnOk result (batch.new.fields ≡ batch.old.fields
        ++ (field_spelled format.now (fields_of fields.now) said column ∷ [])) }
    ensures spans { batch.new.spans ≡ batch.old.spans }
{
    let Some(field) = fields.get(column.place) else {
        return batch.push_field(&[], format.fits);
    };
    let is_null = is_null(field, kept, span, format, quotes, column.place)?;
    batch.push_field(respelled(field, column.is_truth), is_null)
}

/// Adds the fields of a record in those columns to the batch; null or an empty text where the
/// record has none, as the format says. The record has that span of what is kept. Fails only where
/// an allocation fails.
#[inline(always)]
pub fn add_fields<C: Chosen, R: Read>(
    fields: &ByteRecord,
    kept: &Tee<R>,
    span: Span,
    format: &Format<'_>,
    quotes: &mut Quotes,
    batch: &mut Batch,
    columns: &[C],
) -> Result<(), AllocError>
    requires { Knows format.now.delimiter (bytes_between kept.now span.start span.end) quotes.old }
    ensures fields { (closed : Bool) → (said : List Field) → format.now.delimiter ≢ 34
        → SaysFields format.now.delimiter closed
        (without_line_end (bytes_between kept.now span.start span.end)) said
        → OnOk result (batch.new.fields ≡ batch.old.fields
        ++ map (λ c. field_spelled format.now (fields_of fields.now) said (C.spelled c))
        columns.now) }
    ensures spans { batch.new.spans ≡ batch.old.spans }
{
    for column in columns {
        add_field(fields, kept, span, format, quotes, batch, column.spelled())?;
    }
    Ok(())
}
