//! The integer type of an operand.
ghost use Rattle.std.specs.Prelude.{◌≡◌, Bool, IfSome};
ghost use Rattle.vortex_types.specs.LogicalTypes.{integer_type};
ghost use Rattle.vortex_columns.specs.ColumnView.{IsIntegerType};
ghost use Rattle.vortex_arrow.specs.Layouts.{layout_of, layout_type};
ghost use Rattle.yurkije_lent.specs.Operands.{operand_column};

use crate::operand::Operand;
use vortex_arrow::ArrowValues;
use vortex_columns::{DType, PType};

/// The integer type of values, or of what they are stored as. None for others, and for floats,
/// whose integers do not lie in the buffers.
fn stored_type(values: ArrowValues<'_>) -> Option<PType>
    ensures { IfSome result (λ p.
        (n : Bool) → layout_type (layout_of values.entry) n ≡ integer_type p n) }
{
    match values {
        ArrowValues::Int8(_) => Some(PType::I8),
        ArrowValues::Int16(_) => Some(PType::I16),
        ArrowValues::Int32(_) | ArrowValues::Date(_) => Some(PType::I32),
        ArrowValues::Int64(_) | ArrowValues::Timestamp(_) | ArrowValues::Decimal { .. } => {
            Some(PType::I64)
        }
        ArrowValues::UInt8(_) => Some(PType::U8),
        ArrowValues::UInt16(_) => Some(PType::U16),
        ArrowValues::UInt32(_) => Some(PType::U32),
        ArrowValues::UInt64(_) => Some(PType::U64),
        _ => None,
    }
}

/// The integer type of an operand. None for others, and for floats that are lent.
pub(crate) fn integer_type(operand: &Operand<'_>) -> Option<PType>
    ensures { IfSome result (λ p. IsIntegerType p (operand_column operand.now).dtype) }
{
    match operand {
        Operand::Lent(column) => stored_type(column.values),
        Operand::Made(column) => match column.dtype() {
            DType::Primitive(ptype, _) => Some(*ptype),
            _ => None,
        },
    }
}
