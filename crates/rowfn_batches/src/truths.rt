//! Truth values as fields, and rows of them.
ghost use Rattle.std.specs.Prelude.{◌≡◌, ◌<◌, ◌++◌, ◌∷◌, [], OnOk, IfSome, length, true, not, codes};
ghost use Rattle.std.specs.Prelude.{if◌then◌else◌};
ghost use Rattle.vortex_types.specs.Values.{is_null, truth};
ghost use Rattle.vortex_columns.specs.ColumnView.{row, IsUnlessNull};
ghost use Rattle.rowfn_batches.specs.Outputs.{value_field};
ghost use Rattle.rowfn_batches.specs.Truths.{AreTruths};

use rowfn_csv::{Format, field_of};
use std::alloc::AllocError;
use std::marker::Model;
use vortex_columns::{BitBuffer, Column, ValidRows};

/// How truth values stand as fields.
#[derive(Clone, Copy)]
pub struct Truths<'t> {
    pub yes: &'t [u8],
    pub no: &'t [u8],
    /// Whether that is in no quotes.
    pub are_bare: bool,
}

/// How truth values stand as fields of a format.
pub fn truths_of<'t>(format: &Format<'t>) -> Truths<'t>
    ensures { AreTruths format.now result }
{
    let yes = field_of(b"true", b"\"true\"", format);
    let no = field_of(b"false", b"\"false\"", format);
    let are_bare = yes == b"true".as_slice() && no == b"false".as_slice();
    Truths { yes, no, are_bare }
}

/// Adds the field of true. A text whose length is known here is copied without a call.
#[inline(always)]
fn push_yes(bytes: &mut Vec<u8>, yes: &[u8], is_bare: bool) -> Result<(), AllocError>
    requires { is_bare ≡ true → yes.now ≡ codes "true" }
    ensures { OnOk result (bytes.new.items ≡ bytes.old.items ++ yes.now) }
{
    if is_bare {
        bytes.extend_from_slice(b"true")
    } else {
        bytes.extend_from_slice(yes)
    }
}

/// Adds the field of false, in the same way.
#[inline(always)]
fn push_no(bytes: &mut Vec<u8>, no: &[u8], is_bare: bool) -> Result<(), AllocError>
    requires { is_bare ≡ true → no.now ≡ codes "false" }
    ensures { OnOk result (bytes.new.items ≡ bytes.old.items ++ no.now) }
{
    if is_bare {
        bytes.extend_from_slice(b"false")
    } else {
        bytes.extend_from_slice(no)
    }
}

/// Adds a truth value as a field.
#[inline(always)]
fn push_truth(bytes: &mut Vec<u8>, truth: bool, truths: Truths<'_>) -> Result<(), AllocError>
    requires yes { truths.are_bare ≡ true → truths.yes.now ≡ codes "true" }
    requires no { truths.are_bare ≡ true → truths.no.now ≡ codes "false" }
    ensures { OnOk result (bytes.new.items
        ≡ bytes.old.items ++ (if truth then truths.entry.yes.now else truths.entry.no.now)) }
{
    if truth {
        push_yes(bytes, truths.yes, truths.are_bare)
    } else {
        push_no(bytes, truths.no, truths.are_bare)
    }
}

/// Ends a line.
#[inline(always)]
pub fn push_line_end(bytes: &mut Vec<u8>) -> Result<(), AllocError>
    ensures { OnOk result (bytes.new.items ≡ bytes.old.items ++ (10 ∷ [])) }
{
    bytes.push(b'\n')?;
    Ok(())
}

/// A column of truth values that is no constant, seen as that column: a bit for each row, and which
/// rows are not null.
#[derive(Drop)]
pub struct WrittenTruths<'c> {
    column: &'c Column,
    bits: &'c BitBuffer,
    valid: ValidRows<'c>,
}

impl<'c> Model for WrittenTruths<'c> {
    ghost use Rattle.vortex_columns.specs.ColumnView.{ColumnView, coded_column};
    ghost use Rattle.rowfn_batches.specs.Truths.{AreTruthRows};

    ghost Value = { ColumnView };

    ghost coded = { coded_column };

    ghost view = { λ a. a.column.now };

    ghost invariant = { λ a. AreTruthRows a.column.now a.bits.now a.valid };
}

impl<'c> WrittenTruths<'c> {
    /// A column by its bits, where it has any.
    #[inline(always)]
    pub fn of(column: &'c Column) -> Option<WrittenTruths<'c>>
        ensures { IfSome result (λ rows. rows ≡ column.now) }
    {
        let bits = column.bits()?;
        let valid = column.valid_rows();
        Some(WrittenTruths {
            column,
            bits,
            valid,
        })
    }

    /// Whether a row is not null.
    #[inline(always)]
    fn is_valid(&self, place: usize) -> bool
        requires { place < length self.now.rows }
        ensures { result ≡ not (is_null (row self.now.rows place)) }
    {
        match self.valid {
            ValidRows::Every => true,
            ValidRows::No => false,
            ValidRows::Listed(bits) => bits.value(place),
        }
    }

    /// The truth value of a row; any where it is null.
    #[inline(always)]
    fn value(&self, place: usize) -> bool
        requires { place < length self.now.rows }
        ensures { IsUnlessNull (row self.now.rows place) (truth result) }
    {
        self.bits.value(place)
    }
}

/// Adds a row of truth values as a field.
#[inline(always)]
pub fn push_truth_in(
    bytes: &mut Vec<u8>,
    rows: &WrittenTruths<'_>,
    place: usize,
    truths: Truths<'_>,
    format: &Format<'_>,
) -> Result<(), AllocError>
    requires place { place < length rows.now.rows }
    requires truths { AreTruths format.now truths }
    ensures { OnOk result (bytes.new.items ≡ bytes.old.items
        ++ value_field format.now (row rows.now.rows place)) }
{
    if !rows.is_valid(place) {
        return bytes.extend_from_slice(format.null);
    }
    push_truth(bytes, rows.value(place), truths)
}

/// Adds a truth value in no quotes as a line: bytes whose length is known here are copied at once.
#[inline(always)]
fn push_bare_line(bytes: &mut Vec<u8>, truth: bool) -> Result<(), AllocError>
    ensures { OnOk result (bytes.new.items ≡ bytes.old.items
        ++ ((if truth then codes "true" else codes "false") ++ (10 ∷ []))) }
{
    if truth {
        bytes.extend_from_slice(b"true\n")
    } else {
        bytes.extend_from_slice(b"false\n")
    }
}

/// Adds a row of truth values as a line.
#[inline(always)]
pub fn push_truth_line(
    bytes: &mut Vec<u8>,
    rows: &WrittenTruths<'_>,
    place: usize,
    truths: Truths<'_>,
    format: &Format<'_>,
) -> Result<(), AllocError>
    requires place { place < length rows.now.rows }
    requires truths { AreTruths format.now truths }
    ensures { OnOk result (bytes.new.items ≡ bytes.old.items
        ++ (value_field format.now (row rows.now.rows place)
        ++ (10 ∷ []))) }
{
    if !truths.are_bare {
        push_truth_in(bytes, rows, place, truths, format)?;
        return push_line_end(bytes);
    }
    if !rows.is_valid(place) {
        bytes.extend_from_slice(format.null)?;
        return push_line_end(bytes);
    }
    push_bare_line(bytes, rows.value(place))
}
