//! Which rows of two operands are null on neither side.
ghost use Rattle.std.specs.Prelude.{◌≡◌, IfSome, IsTrue, length};
ghost use Rattle.std.specs.Cow.{cow_value};
ghost use Rattle.vortex_columns.specs.ValidityView.{validity_of};
ghost use Rattle.vortex_columns.specs.ValidRows.{IsJointValidity, either_nullable};
ghost use Rattle.vortex_arrow.specs.Columns.{arrow_column};
ghost use Rattle.vortex_types.specs.LogicalTypes.{is_nullable};
ghost use Rattle.vortex_types.specs.TypeOf.{allows_null};
ghost use Rattle.vortex_kernels.specs.Words.{HasNoNull};
ghost use Rattle.yurkije_lent.specs.Operands.{operand_column, HasNullsOf, IsAllValid};

use crate::operand::Operand;
use std::alloc::Global;
use std::borrow::Cow;
use vortex_arrow::{ArrowColumn, ArrowValues, to_column};
use vortex_columns::{Column, Nullability, Scalar, ValidRows, Validity, both_valid};

/// Whether the type of rows that are lent has null.
fn lent_nullability(column: &ArrowColumn<'_>) -> Nullability
    ensures { allows_null result ≡ column.now.nullable }
{
    if column.nullable {
        Nullability::Nullable
    } else {
        Nullability::NonNullable
    }
}

/// A column of truth values that is null where the rows are. None where memory is refused, or a
/// row of a column that is not nullable is null.
fn marks(alloc: Global, column: &ArrowColumn<'_>) -> Option<Column>
    ensures { IfSome result (HasNullsOf (arrow_column column.now)) }
{
    let Some(bits) = column.validity else {
        let nullability = lent_nullability(column);
        return Column::constant(alloc, Scalar::bool(true, nullability), column.length).ok();
    };
    let truths = ArrowColumn {
        nullable: column.nullable,
        length: column.length,
        offset: column.offset,
        validity: Some(bits),
        values: ArrowValues::Bool(bits),
    };
    to_column(alloc, &truths).ok()
}

/// A column that is null where the operand is. None where memory is refused.
pub(crate) fn nulls_of<'r>(alloc: Global, operand: &'r Operand<'_>) -> Option<Cow<'r, Column>>
    ensures { IfSome result (λ c. HasNullsOf (operand_column operand.now) (cow_value c)) }
{
    match operand {
        Operand::Lent(column) => Some(Cow::Owned(marks(alloc, column)?)),
        Operand::Made(column) => Some(Cow::Borrowed(column)),
    }
}

/// Whether no row of an operand is null, by its validity alone: no bit is read.
pub(crate) fn is_full(operand: &Operand<'_>) -> bool
    ensures { IsTrue result → HasNoNull (operand_column operand.now).rows }
{
    match operand {
        Operand::Lent(column) => !column.nullable || column.validity.is_none(),
        Operand::Made(column) => match column.valid_rows() {
            ValidRows::Every => true,
            _ => false,
        },
    }
}

/// Whether the type of an operand has null.
pub(crate) fn nullability(operand: &Operand<'_>) -> Nullability
    ensures { allows_null result ≡ is_nullable (operand_column operand.now).dtype }
{
    match operand {
        Operand::Lent(column) => lent_nullability(column),
        Operand::Made(column) => column.dtype().nullability(),
    }
}

/// The validity of rows of which none is null.
fn all_valid(nullability: Nullability) -> Validity
    ensures { IsAllValid (allows_null nullability) (validity_of result) }
{
    match nullability {
        Nullability::Nullable => Validity::AllValid,
        Nullability::NonNullable => Validity::NonNullable,
    }
}

/// The validity of rows that are null on neither side, of operands of one length, for a type that
/// is nullable if either is. None where memory is refused.
pub(crate) fn both_valid_in(
    alloc: Global,
    left: &Operand<'_>,
    right: &Operand<'_>,
) -> Option<Validity>
    requires { length (operand_column left.now).rows ≡ length (operand_column right.now).rows }
    ensures { IfSome result (λ v.
        IsJointValidity (either_nullable (operand_column left.now) (operand_column right.now))
        (operand_column left.now) (operand_column right.now) (validity_of v)) }
{
    if is_full(left) && is_full(right) {
        return Some(all_valid(nullability(left) | nullability(right)));
    }
    let left = nulls_of(alloc, left)?;
    let right = nulls_of(alloc, right)?;
    both_valid(alloc, &left, &right).ok()
}
