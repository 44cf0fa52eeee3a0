//! Which rows are null.
ghost use Rattle.std.specs.Prelude.{◌≡◌, ◌≢◌, ◌<◌, ◌↔◌, IsTrue, MatchOption};
ghost use Rattle.vortex_errors.specs.Answers.{AnswersUnlessMemory};
ghost use Rattle.vortex_columns.specs.ValidityView.{array};

use std::alloc::{AllocError, Global};
use vortex_bits::BitBuffer;
use vortex_types::{Nullability, VortexResult};

/// Which rows are not null. `NonNullable` goes with a non-nullable type, the others with a nullable
/// one.
#[derive(Drop)]
pub enum Validity {
    /// No row can be null.
    NonNullable,
    /// No row is null.
    AllValid,
    /// Every row is null.
    AllInvalid,
    /// A set bit is a row that is not null.
    Array(BitBuffer),
}

impl Validity {
    ghost use Rattle.vortex_types.specs.TypeOf.{allows_null};
    ghost use Rattle.vortex_columns.specs.ValidityView.{validity_of, is_valid_row};
    ghost use Rattle.vortex_columns.specs.ValidityView.{form_allows_null};
    ghost use Rattle.vortex_columns.specs.ValidityView.{FitsRows, Reaches};

    /// The nullability of the types that it goes with.
    pub fn nullability(&self) -> Nullability
        ensures { allows_null result ≡ form_allows_null (validity_of self.now).form }
    {
        match self {
            Validity::NonNullable => Nullability::NonNullable,
            _ => Nullability::Nullable,
        }
    }

    /// Whether it is valid for that many rows: a list of bits has one for each.
    pub fn fits(&self, len: usize) -> bool
        ensures { IsTrue result ↔ FitsRows (validity_of self.now) len }
    {
        match self {
            Validity::Array(bits) => bits.len() == len,
            _ => true,
        }
    }

    /// Whether row `i` is not null.
    pub fn is_valid(&self, i: usize) -> bool
        requires { Reaches (validity_of self.now) i }
        ensures { result ≡ is_valid_row (validity_of self.now) i }
    {
        match self {
            Validity::NonNullable => true,
            Validity::AllValid => true,
            Validity::AllInvalid => false,
            Validity::Array(bits) => bits.value(i),
        }
    }

    /// The bits of an array.
    pub fn bits(&self) -> Option<&BitBuffer>
        ensures { MatchOption result ((validity_of self.now).form ≢ array)
            (λ bits. validity_of self.now ≡ record { form = array; bits = bits.now }) }
    {
        match self {
            Validity::Array(bits) => Some(bits),
            _ => None,
        }
    }

    /// A copy with the same view.
    pub fn try_clone(&self, _alloc: Global) -> VortexResult<Validity>
        ensures { AnswersUnlessMemory result (λ v. validity_of v ≡ validity_of self.now) }
    {
        Ok(self.clone()?)
    }
}

/// A copy with the same view.
impl Clone for Validity {
    ghost use Rattle.vortex_columns.specs.ValidityView.{validity_of};

    ghost is_clone = { λ validity copy. validity_of copy ≡ validity_of validity };

    fn clone(&self) -> Result<Validity, AllocError> {
        match self {
            Validity::NonNullable => Ok(Validity::NonNullable),
            Validity::AllValid => Ok(Validity::AllValid),
            Validity::AllInvalid => Ok(Validity::AllInvalid),
            Validity::Array(bits) => Ok(Validity::Array(bits.clone()?)),
        }
    }
}
