//! A cell of an answer as the bytes of a field.
ghost use Rattle.std.specs.Prelude.{◌≡◌, ◌++◌, not, IfOk};
ghost use Rattle.vortex_types.specs.Values.{is_null};
ghost use Rattle.vortex_columns.specs.ColumnView.{row};
ghost use Rattle.rowfn_batches.specs.Printing.{field_text};

use itoa::Buffer;
use std::alloc::AllocError;
use vortex_columns::{Cell, Column};

/// Appends what a cell says as the bytes of a field, a text without quotes; false, and nothing,
/// where it is null, as it is behind the last row. Refused only for want of memory.
pub fn push_field(out: &mut Vec<u8>, column: &Column, place: usize) -> Result<bool, AllocError>
    ensures { IfOk result
        (λ some. (some ≡ not (is_null (row column.now.rows place)))
        × (out.new.items ≡ out.old.items ++ field_text (row column.now.rows place))) }
{
    if place >= column.len() {
        return Ok(false);
    }
    match column.cell(place) {
        Cell::Null => return Ok(false),
        Cell::Bool(true) => out.extend_from_slice(b"true")?,
        Cell::Bool(false) => out.extend_from_slice(b"false")?,
        Cell::Int(number) => {
            let mut buffer = Buffer::new();
            out.extend_from_slice(buffer.format(number).as_bytes())?;
        }
        Cell::Text(text) => out.extend_from_slice(text.as_bytes())?,
        _ => {}
    }
    Ok(true)
}
