//! The integers of an operand, where they lie.
ghost use Rattle.std.specs.Prelude.{◌≡◌, IfSome, map};
ghost use Rattle.vortex_columns.specs.ColumnView.{AreInts};
ghost use Rattle.vortex_arrow.specs.Columns.{arrow_column};
ghost use Rattle.yurkije_lent.specs.Operands.{operand_column};

use crate::operand::Operand;
use vortex_arrow::{ArrowColumn, ArrowValues};
use vortex_kernels::lanes::LaneInteger;

/// An integer type of columns that a caller lends.
pub(crate) trait LentInteger: LaneInteger {
    ghost use Rattle.std.specs.Prelude.{◌≡◌, IfSome, map};
    ghost use Rattle.vortex_arrow.specs.Layouts.{layout_of, numbers};

    /// The integers that values of this type are; none for others, and for floats, whose integers
    /// do not lie in the buffers.
    fn of_values<'a>(values: ArrowValues<'a>) -> Option<&'a [Self]>
        ensures { IfSome result
            (λ xs. layout_of values.entry ≡ numbers Self.ptype (map Self.number xs.now)) };
}

impl LentInteger for i8 {
    fn of_values<'a>(values: ArrowValues<'a>) -> Option<&'a [i8]> {
        match values {
            ArrowValues::Int8(xs) => Some(xs),
            _ => None,
        }
    }
}

impl LentInteger for i16 {
    fn of_values<'a>(values: ArrowValues<'a>) -> Option<&'a [i16]> {
        match values {
            ArrowValues::Int16(xs) => Some(xs),
            _ => None,
        }
    }
}

impl LentInteger for i32 {
    fn of_values<'a>(values: ArrowValues<'a>) -> Option<&'a [i32]> {
        match values {
            ArrowValues::Int32(xs) => Some(xs),
            ArrowValues::Date(days) => Some(days),
            _ => None,
        }
    }
}

impl LentInteger for i64 {
    fn of_values<'a>(values: ArrowValues<'a>) -> Option<&'a [i64]> {
        match values {
            ArrowValues::Int64(xs) => Some(xs),
            ArrowValues::Timestamp(times) => Some(times),
            ArrowValues::Decimal { values, .. } => Some(values),
            _ => None,
        }
    }
}

impl LentInteger for u8 {
    fn of_values<'a>(values: ArrowValues<'a>) -> Option<&'a [u8]> {
        match values {
            ArrowValues::UInt8(xs) => Some(xs),
            _ => None,
        }
    }
}

impl LentInteger for u16 {
    fn of_values<'a>(values: ArrowValues<'a>) -> Option<&'a [u16]> {
        match values {
            ArrowValues::UInt16(xs) => Some(xs),
            _ => None,
        }
    }
}

impl LentInteger for u32 {
    fn of_values<'a>(values: ArrowValues<'a>) -> Option<&'a [u32]> {
        match values {
            ArrowValues::UInt32(xs) => Some(xs),
            _ => None,
        }
    }
}

impl LentInteger for u64 {
    fn of_values<'a>(values: ArrowValues<'a>) -> Option<&'a [u64]> {
        match values {
            ArrowValues::UInt64(xs) => Some(xs),
            _ => None,
        }
    }
}

/// The integers of rows that are lent; none where they are of another type, or the buffers too
/// short.
fn lent_ints<'a, T: LentInteger>(column: &ArrowColumn<'a>) -> Option<&'a [T]>
    ensures { IfSome result (λ xs. AreInts (arrow_column column.now) (map T.number xs.now)) }
{
    let values = T::of_values(column.values)?;
    let end = column.offset.checked_add(column.length)?;
    if end <= values.len() {
        Some(&values[column.offset..end])
    } else {
        None
    }
}

/// The integers of the rows of an operand that is not constant; those under a null are arbitrary.
pub(crate) fn ints<'r, T: LentInteger>(operand: &'r Operand<'_>) -> Option<&'r [T]>
    ensures { IfSome result (λ xs. AreInts (operand_column operand.now) (map T.number xs.now)) }
{
    match operand {
        Operand::Lent(column) => lent_ints::<T>(column),
        Operand::Made(column) => column.ints::<T>(),
    }
}
