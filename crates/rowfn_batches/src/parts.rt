//! Rows of a batch that are put into another.
ghost use Rattle.std.specs.Prelude.{◌≡◌, ◌≤◌, ◌+◌, ◌*◌, ◌-◌, ◌^◌, ◌++◌, ◌∷◌, [], OnOk, map, take, drop};
ghost use Rattle.std.specs.Prelude.{length, min};
ghost use Rattle.rowfn_batches.specs.Fields.{field_in};
ghost use Rattle.rowfn_batches.specs.Parts.{next_row, next_count};

use rowfn_csv::{Batch, Span};
use std::alloc::AllocError;

/// Adds a field to a batch.
fn push(batch: &mut Batch, field: Option<&[u8]>) -> Result<(), AllocError>
    ensures fields { OnOk result (batch.new.fields
        ≡ batch.old.fields ++ (field_in field.entry ∷ [])) }
    ensures spans { OnOk result (batch.new.spans ≡ batch.old.spans) }
{
    match field {
        Some(bytes) => batch.push_field(bytes, false),
        None => batch.push_field(&[], true),
    }
}

/// Adds fields to a batch.
fn add_fields(batch: &mut Batch, fields: &[Option<&[u8]>]) -> Result<(), AllocError>
    ensures fields { OnOk result (batch.new.fields
        ≡ batch.old.fields ++ map field_in fields.now) }
    ensures spans { OnOk result (batch.new.spans ≡ batch.old.spans) }
{
    for field in fields {
        push(batch, *field)?;
    }
    Ok(())
}

/// Ends rows of a batch, where they lie.
fn add_spans(batch: &mut Batch, spans: &[Span]) -> Result<(), AllocError>
    ensures fields { OnOk result (batch.new.fields ≡ batch.old.fields) }
    ensures spans { OnOk result (batch.new.spans ≡ batch.old.spans ++ spans.now) }
{
    for span in spans {
        batch.end_row(*span)?;
    }
    Ok(())
}

/// Puts rows into a batch, and nothing else: their fields, and where they lie.
pub fn refill(batch: &mut Batch, fields: &[Option<&[u8]>], spans: &[Span]) -> Result<(), AllocError>
    ensures fields { OnOk result (batch.new.fields ≡ map field_in fields.now) }
    ensures spans { OnOk result (batch.new.spans ≡ spans.now) }
{
    batch.clear();
    add_fields(batch, fields)?;
    add_spans(batch, spans)
}

/// The fields of so many rows from one on, of rows of so many fields each.
pub fn fields_from<'f, 'b>(
    fields: &'f [Option<&'b [u8]>],
    width: usize,
    first: usize,
    count: usize,
) -> &'f [Option<&'b [u8]>]
    ensures { result.now ≡ take (count * width) (drop (first * width) fields.now) }
{
    let len = fields.len();
    let Some(start) = first.checked_mul(width) else {
        return &fields[len..];
    };
    if start >= len {
        return &fields[len..];
    }
    let rest = &fields[start..];
    let Some(wanted) = count.checked_mul(width) else {
        return rest;
    };
    if wanted < rest.len() {
        &rest[..wanted]
    } else {
        rest
    }
}

/// Which row of so many comes behind those that were tried from one on: the one behind them, or
/// behind the one of them that was refused.
pub fn next_row(len: usize, first: usize, tried: usize, refused: Option<usize>) -> usize
    ensures { result ≡ next_row len first tried refused }
{
    let next = match refused {
        Some(place) => first.saturating_add(place).saturating_add(1),
        None => first.saturating_add(tried),
    };
    next.min(len)
}

/// How many rows are tried next, where so many were: twice as many, and one behind a row that was
/// refused.
pub fn next_count(count: usize, refused: Option<usize>) -> usize
    ensures { result ≡ next_count count refused }
{
    match refused {
        Some(_) => 1,
        None => count.saturating_mul(2),
    }
}
