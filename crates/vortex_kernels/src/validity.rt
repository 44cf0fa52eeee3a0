//! The validity of the rows of a column, for a result.
ghost use Rattle.std.specs.Prelude.{◌≡◌, true, false};
ghost use Rattle.vortex_kernels.specs.Words.{AnswersUnlessMemory, validity_of, allows_null};
ghost use Rattle.vortex_kernels.specs.Words.{IsValidityOf, IsValidityIn};
ghost use Rattle.vortex_types.specs.LogicalTypes.{is_nullable};

use std::alloc::Global;
use vortex_columns::{Column, Nullability, Validity, VortexResult};

/// The validity of the rows of a column, for another of its nullability.
pub(crate) fn same_valid(alloc: Global, column: &Column) -> VortexResult<Validity>
    ensures { AnswersUnlessMemory result (λ v. IsValidityOf column.now (validity_of v)) }
{
    match column.dtype().nullability() {
        Nullability::NonNullable => Ok(Validity::NonNullable),
        Nullability::Nullable => nullable_valid(alloc, column),
    }
}

/// The validity of the rows of a column, for a nullable type.
pub(crate) fn nullable_valid(alloc: Global, column: &Column) -> VortexResult<Validity>
    ensures { AnswersUnlessMemory result (λ v. IsValidityIn true column.now (validity_of v)) }
{
    column.valid_rows().to_validity(alloc)
}

/// The validity of the rows of a column, for a type of that nullability, which is nullable if the
/// column's is.
pub(crate) fn valid_in(
    alloc: Global,
    column: &Column,
    nullability: Nullability,
) -> VortexResult<Validity>
    requires { allows_null nullability ≡ false → is_nullable column.now.dtype ≡ false }
    ensures { AnswersUnlessMemory result
        (λ v. IsValidityIn (allows_null nullability) column.now (validity_of v)) }
{
    match nullability {
        Nullability::NonNullable => same_valid(alloc, column),
        Nullability::Nullable => nullable_valid(alloc, column),
    }
}
