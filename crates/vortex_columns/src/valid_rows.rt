//! Which rows of one column, or of two, are not null, decided before the rows.
ghost use Rattle.std.specs.Prelude.{◌≡◌, true, length};
ghost use Rattle.vortex_columns.specs.ValidityView.{array, validity_of};
ghost use Rattle.vortex_columns.specs.ValidRows.{AnswersUnlessMemory, valid_view, IsListed};
ghost use Rattle.vortex_columns.specs.ValidRows.{IsAsValid, IsJointValidity, either_nullable};

use crate::column::Column;
use crate::validity::Validity;
use std::alloc::Global;
use vortex_bits::{BitBuffer, Both, zip_bits};
use vortex_types::{Nullability, VortexResult};

/// The rows of a column that are not null.
#[derive(Clone, Copy)]
pub enum ValidRows<'a> {
    /// Each row.
    Every,
    /// No row.
    No,
    /// The rows whose bit is set.
    Listed(&'a BitBuffer),
}

impl<'a> ValidRows<'a> {
    /// The valid rows of a validity, whatever its nullability.
    pub fn of(validity: &'a Validity) -> ValidRows<'a>
        ensures rows { IsAsValid (validity_of validity.now) (valid_view result) }
        ensures listed { IsListed result → (validity_of validity.now).form ≡ array }
    {
        match validity {
            Validity::NonNullable => ValidRows::Every,
            Validity::AllValid => ValidRows::Every,
            Validity::AllInvalid => ValidRows::No,
            Validity::Array(bits) => ValidRows::Listed(bits),
        }
    }

    /// The same as the validity of a nullable type; a list of bits is copied.
    pub fn to_validity(&self, alloc: Global) -> VortexResult<Validity>
        ensures { AnswersUnlessMemory result (λ v. validity_of v ≡ valid_view self.now) }
    {
        match self {
            ValidRows::Every => Ok(Validity::AllValid),
            ValidRows::No => Ok(Validity::AllInvalid),
            ValidRows::Listed(bits) => Ok(Validity::Array(bits.try_clone(alloc)?)),
        }
    }
}

/// The rows that are valid on both sides, if either type has null.
fn join_valid(alloc: Global, lhs: &Column, rhs: &Column) -> VortexResult<Validity>
    requires { length lhs.now.rows ≡ length rhs.now.rows }
    ensures { AnswersUnlessMemory result
        (λ v. IsJointValidity true lhs.now rhs.now (validity_of v)) }
{
    match (lhs.valid_rows(), rhs.valid_rows()) {
        (ValidRows::Every, right) => right.to_validity(alloc),
        (left, ValidRows::Every) => left.to_validity(alloc),
        (ValidRows::Listed(left), ValidRows::Listed(right)) => {
            Ok(Validity::Array(zip_bits::<Both>(alloc, left, right)?))
        }
        (ValidRows::No, _) => Ok(Validity::AllInvalid),
        (_, ValidRows::No) => Ok(Validity::AllInvalid),
    }
}

/// The validity of rows that are null on neither side, of columns of one length, for a type that is
/// nullable if either is. Makes a list of bits only if a side has one. E9 where an allocation
/// fails.
pub fn both_valid(alloc: Global, lhs: &Column, rhs: &Column) -> VortexResult<Validity>
    requires { length lhs.now.rows ≡ length rhs.now.rows }
    ensures { AnswersUnlessMemory result
        (λ v. IsJointValidity (either_nullable lhs.now rhs.now) lhs.now rhs.now (validity_of v)) }
{
    match lhs.dtype().nullability() | rhs.dtype().nullability() {
        Nullability::NonNullable => Ok(Validity::NonNullable),
        Nullability::Nullable => join_valid(alloc, lhs, rhs),
    }
}
