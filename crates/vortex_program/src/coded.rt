//! Rows that a left operand of And or Or leaves open, after one that it decides.
ghost use Rattle.std.specs.Prelude.{◌≡◌, ◌<◌, ◌≤◌, IsTrue, IfSome, length};
ghost use Rattle.vortex_errors.specs.Answers.{AnswersUnlessMemory};
ghost use Rattle.vortex_types.specs.Values.{truth};
ghost use Rattle.vortex_columns.specs.ColumnView.{row, AreBits};
ghost use Rattle.vortex_columns.specs.ValidityView.{FitsRows};
ghost use Rattle.vortex_columns.specs.ValidRows.{valid_view, AreValid};
ghost use Rattle.vortex_program.specs.Coded.{HasBit, HaveCodes};

use std::alloc::Global;
use vortex_columns::{BitBuffer, Column, ValidRows, VortexResult};

/// Of so many rows one at most may be open.
const FEW: usize = 8;

/// The most rows of which each has a number and a code.
const MOST: usize = u32::MAX as usize;

/// Numbers of rows: of one that is decided, and of those that are open. And for each row of a
/// column the place of a number: of its own, or of the decided row's.
#[derive(Drop)]
pub(crate) struct CodedRows {
    pub(crate) numbers: Vec<u32>,
    pub(crate) codes: Vec<u32>,
}

/// Whether a row has that bit, and is not null.
#[inline(always)]
fn has_bit(bits: &BitBuffer, valid: &ValidRows<'_>, wanted: bool, i: usize) -> bool
    requires within { i < length bits.now }
    requires fits { FitsRows (valid_view valid.now) (length bits.now) }
    ensures { IsTrue result → HasBit wanted bits.now (valid_view valid.now) i }
{
    if bits.value(i) != wanted {
        return false;
    }
    match valid {
        ValidRows::Every => true,
        ValidRows::No => false,
        ValidRows::Listed(valid) => valid.value(i),
    }
}

/// The first row that has that bit, and is not null.
fn first_with_bit(bits: &BitBuffer, valid: &ValidRows<'_>, wanted: bool) -> Option<usize>
    requires { FitsRows (valid_view valid.now) (length bits.now) }
    ensures { IfSome result (λ i. (i < length bits.now)
        × HasBit wanted bits.now (valid_view valid.now) i) }
{
    for i in 0..bits.len() {
        if has_bit(bits, valid, wanted, i) {
            return Some(i);
        }
    }
    None
}

/// The rows of a column that are not that truth value, after the first one that is; none where
/// more than `most` are. E9 where memory is refused.
fn rows_after(
    alloc: Global,
    column: &Column,
    bits: &BitBuffer,
    valid: &ValidRows<'_>,
    wanted: bool,
    first: usize,
    most: usize,
) -> VortexResult<Option<CodedRows>>
    requires bits { AreBits column.now bits.now }
    requires valid { AreValid (valid_view valid.now) column.now.rows }
    requires first { first < length column.now.rows }
    requires decided { row column.now.rows first ≡ truth wanted }
    requires most { length column.now.rows ≤ 4294967295 }
    ensures { AnswersUnlessMemory result (λ found. IfSome found
        (λ r. HaveCodes wanted column.now r.numbers.items r.codes.items (length column.now.rows))) }
{
    let count = column.len();
    let mut codes = Vec::with_capacity(alloc, count)?;
    let mut numbers = vec![in alloc; first as u32]?;
    for i in 0..count {
        if has_bit(bits, valid, wanted, i) {
            codes.push_reserved(0);
        } else {
            if numbers.len() > most {
                return Ok(None);
            }
            codes.push_reserved(numbers.len() as u32);
            numbers.push(i as u32)?;
        }
    }
    Ok(Some(CodedRows { numbers, codes }))
}

/// The rows of a column that are not that truth value, after one that is, where they are few; none
/// where they are not, and where that is not seen. E9 where memory is refused.
pub(crate) fn few_other_rows(
    alloc: Global,
    column: &Column,
    wanted: bool,
) -> VortexResult<Option<CodedRows>>
    ensures { AnswersUnlessMemory result (λ found. IfSome found
        (λ r. HaveCodes wanted column.now r.numbers.items r.codes.items (length column.now.rows))) }
{
    let Some(bits) = column.bits() else {
        return Ok(None);
    };
    if bits.len() > MOST {
        return Ok(None);
    }
    let valid = column.valid_rows();
    let Some(first) = first_with_bit(bits, &valid, wanted) else {
        return Ok(None);
    };
    rows_after(alloc, column, bits, &valid, wanted, first, bits.len() / FEW)
}
