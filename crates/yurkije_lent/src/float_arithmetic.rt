//! Arithmetic of floats of 64 bits, where patterns lie in a caller's buffers: the key of each is
//! made as it is read.
ghost use Rattle.std.specs.Prelude.{◌≡◌, IfSome, length};
ghost use Rattle.vortex_kernels.specs.Words.{AreNumbers};
ghost use Rattle.vortex_sql_float_columns.specs.KeyedRows.{HasFloatRows};
ghost use Rattle.yurkije_lent.specs.Operands.{operand_column};

use crate::float_lanes::ListedPatterns;
use crate::floats::{keys_that_lie, made_keys, one_key};
use crate::operand::Operand;
use crate::validity::both_valid_in;
use std::alloc::Global;
use vortex_columns::Column;
use vortex_kernels::numbers::{ListedNumbers, Numbers, OneNumber};
use vortex_sql_float_columns::keys::{Keys, key_rows};
use vortex_sql_floats::floats::FloatOperator;

/// The keys that a side has as its integers.
#[derive(Clone, Copy)]
struct SideKeys<S: Numbers<i64> + Copy> {
    side: S,
}

impl<S: Numbers<i64> + Copy> Keys for SideKeys<S> {
    ghost has_row = { λ k i. S.has_row k.side i };

    ghost key_at = { λ k i. S.number_at k.side i };

    fn at(&self, i: usize) -> i64 {
        self.side.at(i)
    }
}

/// The column of the results, null where a side is. None where a row may fault, even under a null,
/// or memory is refused.
fn calculate_sides<L: Numbers<i64> + Copy, R: Numbers<i64> + Copy>(
    alloc: Global,
    operator: FloatOperator,
    left: L,
    right: R,
    lhs: &Operand<'_>,
    rhs: &Operand<'_>,
) -> Option<Column>
    requires lengths { length (operand_column lhs.now).rows ≡ length (operand_column rhs.now).rows }
    requires left { AreNumbers (operand_column lhs.now) (L.has_row left) (L.number_at left) }
    requires right { AreNumbers (operand_column rhs.now) (R.has_row right) (R.number_at right) }
    ensures { IfSome result
        (HasFloatRows operator (operand_column lhs.now) (operand_column rhs.now)) }
{
    let left = SideKeys::<L> { side: left };
    let right = SideKeys::<R> { side: right };
    let made = key_rows::<SideKeys<L>, SideKeys<R>>(
        alloc,
        operator,
        &left,
        &right,
        lhs.len(),
    ).ok()?;
    let keys = made?;
    let validity = both_valid_in(alloc, lhs, rhs)?;
    Column::try_primitive(alloc, keys, validity).ok()
}

/// The same; the form of the right side is chosen before the rows. None for other forms too.
fn calculate_beside<L: Numbers<i64> + Copy>(
    alloc: Global,
    operator: FloatOperator,
    left: L,
    lhs: &Operand<'_>,
    rhs: &Operand<'_>,
) -> Option<Column>
    requires lengths { length (operand_column lhs.now).rows ≡ length (operand_column rhs.now).rows }
    requires left { AreNumbers (operand_column lhs.now) (L.has_row left) (L.number_at left) }
    ensures { IfSome result
        (HasFloatRows operator (operand_column lhs.now) (operand_column rhs.now)) }
{
    if let Some(right) = keys_that_lie::<i64>(rhs) {
        return calculate_sides::<L, ListedPatterns<i64>>(alloc, operator, left, right, lhs, rhs);
    }
    if let Some(right) = made_keys::<i64>(rhs) {
        return calculate_sides::<L, ListedNumbers<i64>>(alloc, operator, left, right, lhs, rhs);
    }
    let right = one_key::<i64>(rhs)?;
    calculate_sides::<L, OneNumber<i64>>(alloc, operator, left, right, lhs, rhs)
}

/// The operator in each row of two operands, each of floats of 64 bits that are lent, a column of
/// their keys or one key in each row; null where a side is. None for other operands, where a row
/// may fault, even under a null, and where memory is refused.
pub(crate) fn calculate_floats(
    alloc: Global,
    operator: FloatOperator,
    left: &Operand<'_>,
    right: &Operand<'_>,
) -> Option<Column>
    requires { length (operand_column left.now).rows ≡ length (operand_column right.now).rows }
    ensures { IfSome result
        (HasFloatRows operator (operand_column left.now) (operand_column right.now)) }
{
    if let Some(side) = keys_that_lie::<i64>(left) {
        return calculate_beside::<ListedPatterns<i64>>(alloc, operator, side, left, right);
    }
    if let Some(side) = made_keys::<i64>(left) {
        return calculate_beside::<ListedNumbers<i64>>(alloc, operator, side, left, right);
    }
    let side = one_key::<i64>(left)?;
    calculate_beside::<OneNumber<i64>>(alloc, operator, side, left, right)
}
