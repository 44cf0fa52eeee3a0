//! A column of texts or byte strings copied as offsets and data.
ghost use Rattle.std.specs.Prelude.{◌≡◌, ◌≤◌, ◌<◌, ◌+◌, ◌^◌, ℕ, pos, true, length, map, take, drop};
ghost use Rattle.std.specs.Prelude.{MatchOption, MatchResult, OnErr, OnOk, ⊤, slice_index_or};
ghost use Rattle.vortex_types.specs.LogicalTypes.{is_text_type};
ghost use Rattle.vortex_types.specs.TypeOf.{type_of};
ghost use Rattle.vortex_columns.specs.ColumnView.{is_bytes_like};
ghost use Rattle.vortex_columns.specs.Words.{cell_value};
ghost use Rattle.vortex_arrow.specs.Layouts.{offsets as by_offsets};
ghost use Rattle.vortex_arrow.specs.Values.{offset_at};
ghost use Rattle.vortex_arrow.specs.Written.{bytes_for, SameBehind, AreCopied, ArePacked};
ghost use Rattle.vortex_arrow.specs.Written.{value_bytes, joined, RefusesTexts};

use crate::bits_out::{bytes_for, write_at};
use crate::copying::write_validity;
use crate::error::CopyError;
use crate::offsets::IndexType;
use vortex_columns::{Cell, Column, DType};

/// The bytes of a text or a byte string; none of another value.
fn bytes_of<'a>(cell: Cell<'a>) -> &'a [u8]
    ensures { result.now ≡ value_bytes (cell_value cell.entry) }
{
    match cell {
        Cell::Text(text) => text.as_bytes(),
        Cell::Bytes(bytes) => bytes,
        _ => &[],
    }
}

/// How many bytes the texts or byte strings of a column have together; none where that passes a
/// usize. Takes no memory.
pub fn byte_count(column: &Column) -> Option<usize>
    ensures { MatchOption result (2 ^ 64 ≤ length (joined column.now.rows))
        (λ n. n ≡ length (joined column.now.rows)) }
{
    let mut count: usize = 0;
    for i in 0..column.len() {
        count = match count.checked_add(bytes_of(column.cell(i)).len()) {
            Some(more) => more,
            None => return None,
        };
    }
    Some(count)
}

/// Writes the bytes of each row, one behind another, and where each begins and ends.
fn write_byte_strings<O: IndexType>(column: &Column, offsets: &mut [O], bytes: &mut [u8])
    requires offsets { length column.now.rows < length offsets.old }
    requires room { length (joined column.now.rows) ≤ length bytes.old }
    requires most { length (joined column.now.rows) ≤ O.most }
    ensures packed { ArePacked column.now.rows (map O.number offsets.new) bytes.new }
    ensures bytes_behind { SameBehind (length (joined column.now.rows)) bytes.old bytes.new }
    ensures offsets_behind { SameBehind (length column.now.rows + 1) offsets.old offsets.new }
{
    offsets[0] = O::of_place(0);
    let mut end = 0;
    for i in 0..column.len() {
        let value = bytes_of(column.cell(i));
        write_at(bytes, end, value);
        end += value.len();
        offsets[i + 1] = O::of_place(end);
    }
}

/// Whether values of the type are texts or byte strings.
fn is_bytes_like(dtype: &DType) -> bool
    ensures { result ≡ is_bytes_like (type_of dtype.now) }
{
    match dtype {
        DType::Utf8(_) | DType::Binary(_) => true,
        _ => false,
    }
}

/// Copies a column of texts or of byte strings: which rows are not null, as bits from the first on,
/// an offset for each row and one more, and the bytes, of which `byte_count` tells how many there
/// are. They stand one behind another: the first offset is 0, each row's bytes end where those of
/// the next begin, and a row that is null has none. What lies behind them stays as it was, and all
/// where the copy is refused.
pub fn copy_texts<O: IndexType>(
    column: &Column,
    validity: &mut [u8],
    offsets: &mut [O],
    bytes: &mut [u8],
) -> Result<(), CopyError>
    ensures copied { OnOk result (AreCopied column.now.rows validity.new
        (by_offsets (is_text_type column.now.dtype) (map O.number offsets.new) bytes.new)) }
    ensures behind { OnOk result (SameBehind (bytes_for (length column.now.rows)) validity.old
        validity.new × SameBehind (length column.now.rows + 1) offsets.old offsets.new
        × SameBehind (length (joined column.now.rows)) bytes.old bytes.new) }
    ensures refused { MatchResult result (λ _. ⊤) (RefusesTexts column.now (length validity.old)
        (length offsets.old) (length bytes.old) O.most) }
    ensures kept { OnErr result ((validity.new ≡ validity.old) × (offsets.new ≡ offsets.old)
        × (bytes.new ≡ bytes.old)) }
{
    if !is_bytes_like(column.dtype()) {
        return Err(CopyError::OtherType);
    }
    if validity.len() < bytes_for(column.len()) {
        return Err(CopyError::ValidityTooShort);
    }
    if offsets.len() <= column.len() {
        return Err(CopyError::OffsetsTooShort);
    }
    let most = O::most();
    let count = match byte_count(column) {
        Some(count) => count,
        None => return Err(CopyError::TooLong),
    };
    if count > most {
        return Err(CopyError::TooLong);
    }
    if bytes.len() < count {
        return Err(CopyError::DataTooShort);
    }
    write_validity(column, validity);
    write_byte_strings(column, offsets, bytes);
    Ok(())
}
