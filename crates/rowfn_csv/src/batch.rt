//! The fields of a batch of rows.
ghost use Rattle.std.specs.Prelude.{◌≡◌, ◌++◌, ◌∷◌, [], length, map, take, drop, option_map};
ghost use Rattle.std.specs.Prelude.{◌≤◌, ◌+◌, Some, OnOk, IfOk};
ghost use Rattle.rowfn_csv.specs.Batches.{field_said, part_said, AreParts, KeepsParts};

use crate::records::Span;
use std::alloc::{AllocError, Global};
use std::marker::Model;

/// Where a field's bytes lie among those of a batch; of null the end stands before the start.
#[derive(Clone, Copy)]
struct Part {
    start: usize,
    end: usize,
}

/// The fields of the declared columns of a batch, row by row, and where the rows lie in the input.
/// Its buffers serve from batch to batch.
#[derive(Drop)]
pub struct Batch {
    /// Every field's bytes, one behind the other, and room behind them.
    bytes: Vec<u8>,
    /// How many of them are those of fields.
    filled: usize,
    parts: Vec<Part>,
    spans: Vec<Span>,
}

impl Model for Batch {
    ghost use Rattle.rowfn_csv.specs.Batches.{BatchView, batch_of, IsBatch};

    ghost Value = { BatchView };

    ghost view = { batch_of };

    ghost invariant = { IsBatch };
}

/// Makes room for so many bytes behind the first ones, which stay.
#[cold]
#[inline(never)]
fn make_room(bytes: &mut Vec<u8>, filled: usize, count: usize) -> Result<(), AllocError>
    ensures room { OnOk result (filled + count ≤ length bytes.new.items) }
    ensures kept { filled ≤ length bytes.old.items
        → take filled bytes.new.items ≡ take filled bytes.old.items }
    ensures longer { length bytes.old.items ≤ length bytes.new.items }
{
    let wanted = filled.checked_add(count).ok_or(AllocError)?;
    let twice = bytes.len().saturating_mul(2);
    bytes.resize(wanted.max(twice), 0)
}

/// The same where there is none yet.
#[inline(always)]
fn have_room(bytes: &mut Vec<u8>, filled: usize, count: usize) -> Result<(), AllocError>
    requires { filled ≤ length bytes.old.items }
    ensures room { OnOk result (filled + count ≤ length bytes.new.items) }
    ensures kept { take filled bytes.new.items ≡ take filled bytes.old.items }
    ensures longer { length bytes.old.items ≤ length bytes.new.items }
{
    if count > bytes.len() - filled {
        return make_room(bytes, filled, count);
    }
    Ok(())
}

/// Writes a field's bytes from a place on.
#[inline(always)]
fn write_at(out: &mut [u8], at: usize, field: &[u8])
    requires { at + length field.now ≤ length out.old }
    ensures before { take at out.new ≡ take at out.old }
    ensures here { take (length field.now) (drop at out.new) ≡ field.now }
    ensures size { length out.new ≡ length out.old }
{
    out[at..at + field.len()].copy_from_slice(field);
}

/// Puts a field's bytes behind the first ones; answers where they lie.
#[inline(always)]
fn put_field(bytes: &mut Vec<u8>, filled: &mut usize, field: &[u8]) -> Result<Part, AllocError>
    requires { filled.old ≤ length bytes.old.items }
    ensures filled { filled.new ≤ length bytes.new.items }
    ensures kept { KeepsParts filled.old bytes.old.items filled.new bytes.new.items }
    ensures put { IfOk result (λ p. (part_said bytes.new.items p ≡ Some field.now)
        × (p.end ≤ filled.new)) }
{
    let start = *filled;
    have_room(bytes, start, field.len())?;
    write_at(bytes.as_mut_slice(), start, field);
    let end = start + field.len();
    *filled = end;
    Ok(Part { start, end })
}

/// Adds a field: its bytes, if it is not null, and its place.
#[inline(always)]
fn push_part(
    bytes: &mut Vec<u8>,
    filled: &mut usize,
    parts: &mut Vec<Part>,
    field: &[u8],
    is_null: bool,
) -> Result<(), AllocError>
    requires filled { filled.old ≤ length bytes.old.items }
    requires parts { AreParts filled.old parts.old.items }
    ensures filled { filled.new ≤ length bytes.new.items }
    ensures parts { AreParts filled.new parts.new.items }
    ensures pushed { OnOk result (map (part_said bytes.new.items) parts.new.items
        ≡ map (part_said bytes.old.items) parts.old.items
        ++ (field_said field.now is_null ∷ [])) }
{
    if is_null {
        parts.push(Part { start: 1, end: 0 })?;
        return Ok(());
    }
    let part = put_field(bytes, filled, field)?;
    parts.push(part)?;
    Ok(())
}

/// A field; nothing where it is null.
#[inline(always)]
fn field_at<'b>(bytes: &'b [u8], part: Part) -> Option<&'b [u8]>
    requires { part.end ≤ length bytes.now }
    ensures { option_map (λ f. f.now) result ≡ part_said bytes.now part }
{
    if part.start <= part.end {
        Some(&bytes[part.start..part.end])
    } else {
        None
    }
}

/// The fields that lie so, nothing for each null. Refused only for want of memory.
fn fields_in<'b>(
    alloc: Global,
    bytes: &'b [u8],
    parts: &[Part],
) -> Result<Vec<Option<&'b [u8]>>, AllocError>
    requires { AreParts (length bytes.now) parts.now }
    ensures { IfOk result (λ fields. map (option_map (λ f. f.now)) fields.items
        ≡ map (part_said bytes.now) parts.now) }
{
    let mut fields = Vec::with_capacity(alloc, parts.len())?;
    for part in parts {
        fields.push_reserved(field_at(bytes, *part));
    }
    Ok(fields)
}

impl Batch {
    /// A batch of no rows; takes no memory.
    pub fn new(alloc: Global) -> Batch
        ensures { (result.fields ≡ []) × (result.spans ≡ []) }
    {
        Batch {
            bytes: Vec::new(alloc),
            filled: 0,
            parts: Vec::new(alloc),
            spans: Vec::new(alloc),
        }
    }

    /// Clears the rows, and keeps the buffers.
    pub fn clear(&mut self)
        ensures { (self.new.fields ≡ []) × (self.new.spans ≡ []) }
    {
        self.filled = 0;
        self.parts.clear();
        self.spans.clear();
    }

    /// How many rows there are.
    pub fn len(&self) -> usize
        ensures { result ≡ length self.now.spans }
    {
        self.spans.len()
    }

    /// Where the rows lie in the input.
    pub fn spans(&self) -> &[Span]
        ensures { result.now ≡ self.now.spans }
    {
        self.spans.as_slice()
    }

    /// Adds a field to the row that comes next. Refused only for want of memory, and then the row
    /// is left unfinished.
    #[inline(always)]
    pub fn push_field(&mut self, field: &[u8], is_null: bool) -> Result<(), AllocError>
        ensures fields { OnOk result (self.new.fields ≡ self.old.fields
            ++ (field_said field.now is_null ∷ [])) }
        ensures spans { self.new.spans ≡ self.old.spans }
    {
        push_part(
            &mut self.bytes,
            &mut self.filled,
            &mut self.parts,
            field,
            is_null,
        )
    }

    /// Ends the row of the fields that were added since the last one. Refused only for want of
    /// memory.
    #[inline(always)]
    pub fn end_row(&mut self, span: Span) -> Result<(), AllocError>
        ensures spans { OnOk result (self.new.spans ≡ self.old.spans ++ (span ∷ [])) }
        ensures fields { self.new.fields ≡ self.old.fields }
    {
        self.spans.push(span)?;
        Ok(())
    }

    /// The fields, row by row, nothing for each null. Refused only for want of memory.
    pub fn fields(&self, alloc: Global) -> Result<Vec<Option<&[u8]>>, AllocError>
        ensures { IfOk result
            (λ fields. map (option_map (λ f. f.now)) fields.items ≡ self.now.fields) }
    {
        fields_in(alloc, &self.bytes, &self.parts)
    }
}
