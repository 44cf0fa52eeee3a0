//! A value, or null, with its type.
ghost use Rattle.std.specs.Prelude.{◌≡◌, [], IsTrue, MatchOption, None};
ghost use Rattle.vortex_columns.specs.Words.{MadeWhere, AnswersUnlessMemory, InvalidColumn};
ghost use Rattle.vortex_columns.specs.Words.{HasType, is_nullable, bool_type, text_scalar};
ghost use Rattle.vortex_columns.specs.Words.{null, truth, truth_of, is_null, cell_value, IsCell};
ghost use Rattle.vortex_columns.specs.Words.{number_of, text, text_of, bytes, bytes_of};

use crate::cell::{Cell, cell_of};
use crate::validity::Validity;
use std::alloc::{AllocError, Global};
use std::cmp::Ordering;
use std::marker::Model;
use vortex_types::{DType, Nullability, PType, ScalarValue, VortexError, VortexResult};

/// A value, or null, with its type.
#[derive(Drop)]
pub struct Scalar {
    dtype: DType,
    value: Option<ScalarValue>,
}

impl Model for Scalar {
    ghost use Rattle.vortex_types.specs.ScalarView.{ScalarView, coded_scalar};

    ghost Value = { ScalarView };

    ghost coded = { coded_scalar };

    ghost use Rattle.vortex_columns.specs.Scalars.{scalar_view, IsScalar};

    ghost view = { scalar_view };

    ghost invariant = { IsScalar };
}

impl Scalar {
    ghost use Rattle.vortex_columns.specs.Words.{type_of, allows_null, value_of, value_or_null};
    ghost use Rattle.vortex_columns.specs.Words.{constant_form, validity_of};

    /// A value of a type, or null. E12 exactly where the value does not have the type, or the type
    /// has no null. Allocates nothing down to a thousand levels, and never runs out of memory
    /// (`Cell::has_type`).
    pub fn try_new(dtype: DType, value: Option<ScalarValue>) -> VortexResult<Scalar>
        ensures { MadeWhere result
            (HasType (type_of dtype) (value_or_null value))
            (λ s. s ≡ record { dtype = type_of dtype; value = value_or_null value })
            InvalidColumn }
    {
        let has_type = match &value {
            Some(value) => cell_of(value).has_type(&dtype),
            None => dtype.is_nullable(),
        };
        if has_type {
            Ok(Scalar { dtype, value })
        } else {
            Err(VortexError::InvalidColumn)
        }
    }

    /// The null of a nullable type.
    pub fn null(dtype: DType) -> Scalar
        requires { IsTrue (is_nullable (type_of dtype)) }
        ensures { result ≡ record { dtype = type_of dtype; value = null } }
    {
        Scalar { dtype, value: None }
    }

    /// A truth value of a Bool type, nullable or not.
    pub fn bool(value: bool, nullability: Nullability) -> Scalar
        ensures { result
            ≡ record { dtype = bool_type (allows_null nullability); value = truth value } }
    {
        Scalar {
            dtype: DType::Bool(nullability),
            value: Some(ScalarValue::Bool(value)),
        }
    }

    /// The type, borrowed. The value has it.
    pub fn dtype(&self) -> &DType
        ensures dtype { type_of result.now ≡ self.now.dtype }
        ensures typed { HasType self.now.dtype self.now.value }
    {
        &self.dtype
    }

    /// The value, or none for null.
    pub fn value(&self) -> Option<&ScalarValue>
        ensures { MatchOption result (self.now.value ≡ null)
            (λ v. self.now.value ≡ value_of v.now) }
    {
        self.value.as_ref()
    }

    /// Whether the value is null.
    pub fn is_null(&self) -> bool
        ensures { result ≡ is_null self.now.value }
    {
        self.value.is_none()
    }

    /// The truth value of a Bool that is not null.
    pub fn as_bool_opt(&self) -> Option<bool>
        ensures { result ≡ truth_of self.now.value }
    {
        match &self.value {
            Some(ScalarValue::Bool(b)) => Some(*b),
            _ => None,
        }
    }

    /// The number of an integer of any of the eight types that is not null.
    pub fn as_int_opt(&self) -> Option<i128>
        ensures { result ≡ number_of self.now.value }
    {
        match &self.value {
            Some(ScalarValue::Int(n)) => Some(*n),
            _ => None,
        }
    }

    /// The text of a Utf8 that is not null, borrowed.
    pub fn as_text_opt(&self) -> Option<&str>
        ensures { MatchOption result (text_of self.now.value ≡ None)
            (λ t. self.now.value ≡ text t.now) }
    {
        match &self.value {
            Some(ScalarValue::Utf8(t)) => Some(t.as_str()),
            _ => None,
        }
    }

    /// The bytes of a Binary that is not null, borrowed.
    pub fn as_bytes_opt(&self) -> Option<&[u8]>
        ensures { MatchOption result (bytes_of self.now.value ≡ None)
            (λ b. self.now.value ≡ bytes b.now) }
    {
        match &self.value {
            Some(ScalarValue::Binary(b)) => Some(b.as_slice()),
            _ => None,
        }
    }

    /// The value, borrowed.
    pub fn cell(&self) -> Cell<'_>
        ensures whole { IsCell result }
        ensures value { cell_value result ≡ self.now.value }
    {
        match &self.value {
            Some(value) => cell_of(value),
            None => Cell::Null,
        }
    }

    /// The validity of a column of this scalar.
    pub(crate) fn validity(&self) -> Validity
        ensures { validity_of result
            ≡ record { form = constant_form self.now.dtype self.now.value; bits = [] } }
    {
        if self.is_null() {
            return Validity::AllInvalid;
        }
        if self.dtype.is_nullable() {
            Validity::AllValid
        } else {
            Validity::NonNullable
        }
    }

    /// A copy of a text.
    pub fn try_from_str(alloc: Global, chars: &str) -> VortexResult<Scalar>
        ensures { AnswersUnlessMemory result (λ s. s ≡ text_scalar chars.now) }
    {
        let value = String::from_str(alloc, chars)?;
        Ok(Scalar {
            dtype: DType::Utf8(Nullability::NonNullable),
            value: Some(ScalarValue::Utf8(value)),
        })
    }

    /// A copy with the same view.
    pub fn try_clone(&self, _alloc: Global) -> VortexResult<Scalar>
        ensures { AnswersUnlessMemory result (λ s. s ≡ self.now) }
    {
        Ok(self.clone()?)
    }
}

/// The same value of the same type.
impl Clone for Scalar {
    ghost is_clone = { λ scalar copy. copy ≡ scalar };

    fn clone(&self) -> Result<Scalar, AllocError> {
        let dtype = self.dtype.clone()?;
        let value = match &self.value {
            Some(value) => Some(value.clone()?),
            None => None,
        };
        Ok(Scalar { dtype, value })
    }
}

/// A value of non-nullable Bool.
impl From<bool> for Scalar {
    ghost use Rattle.vortex_columns.specs.ScalarOf.{bool_scalar};

    ghost from_gives = { λ b s. s ≡ bool_scalar b };

    fn from(value: bool) -> Scalar {
        Scalar::bool(value, Nullability::NonNullable)
    }
}

/// A value of a non-nullable integer type.
impl From<i8> for Scalar {
    ghost use Rattle.vortex_types.specs.declared.dtype.PType.TheVariants.{I8};
    ghost use Rattle.vortex_columns.specs.ScalarOf.{int_scalar};

    ghost from_gives = { λ z s. s ≡ int_scalar I8 z };

    fn from(value: i8) -> Scalar {
        Scalar {
            dtype: DType::Primitive(PType::I8, Nullability::NonNullable),
            value: Some(ScalarValue::Int(i128::from(value))),
        }
    }
}

/// A value of a non-nullable integer type.
impl From<i16> for Scalar {
    ghost use Rattle.vortex_types.specs.declared.dtype.PType.TheVariants.{I16};
    ghost use Rattle.vortex_columns.specs.ScalarOf.{int_scalar};

    ghost from_gives = { λ z s. s ≡ int_scalar I16 z };

    fn from(value: i16) -> Scalar {
        Scalar {
            dtype: DType::Primitive(PType::I16, Nullability::NonNullable),
            value: Some(ScalarValue::Int(i128::from(value))),
        }
    }
}

/// A value of a non-nullable integer type.
impl From<i32> for Scalar {
    ghost use Rattle.vortex_types.specs.declared.dtype.PType.TheVariants.{I32};
    ghost use Rattle.vortex_columns.specs.ScalarOf.{int_scalar};

    ghost from_gives = { λ z s. s ≡ int_scalar I32 z };

    fn from(value: i32) -> Scalar {
        Scalar {
            dtype: DType::Primitive(PType::I32, Nullability::NonNullable),
            value: Some(ScalarValue::Int(i128::from(value))),
        }
    }
}

/// A value of a non-nullable integer type.
impl From<i64> for Scalar {
    ghost use Rattle.vortex_types.specs.declared.dtype.PType.TheVariants.{I64};
    ghost use Rattle.vortex_columns.specs.ScalarOf.{int_scalar};

    ghost from_gives = { λ z s. s ≡ int_scalar I64 z };

    fn from(value: i64) -> Scalar {
        Scalar {
            dtype: DType::Primitive(PType::I64, Nullability::NonNullable),
            value: Some(ScalarValue::Int(i128::from(value))),
        }
    }
}

/// A value of a non-nullable integer type.
impl From<u8> for Scalar {
    ghost use Rattle.std.specs.Prelude.{pos};
    ghost use Rattle.vortex_types.specs.declared.dtype.PType.TheVariants.{U8};
    ghost use Rattle.vortex_columns.specs.ScalarOf.{int_scalar};

    ghost from_gives = { λ z s. s ≡ int_scalar U8 (pos z) };

    fn from(value: u8) -> Scalar {
        Scalar {
            dtype: DType::Primitive(PType::U8, Nullability::NonNullable),
            value: Some(ScalarValue::Int(i128::from(value))),
        }
    }
}

/// A value of a non-nullable integer type.
impl From<u16> for Scalar {
    ghost use Rattle.std.specs.Prelude.{pos};
    ghost use Rattle.vortex_types.specs.declared.dtype.PType.TheVariants.{U16};
    ghost use Rattle.vortex_columns.specs.ScalarOf.{int_scalar};

    ghost from_gives = { λ z s. s ≡ int_scalar U16 (pos z) };

    fn from(value: u16) -> Scalar {
        Scalar {
            dtype: DType::Primitive(PType::U16, Nullability::NonNullable),
            value: Some(ScalarValue::Int(i128::from(value))),
        }
    }
}

/// A value of a non-nullable integer type.
impl From<u32> for Scalar {
    ghost use Rattle.std.specs.Prelude.{pos};
    ghost use Rattle.vortex_types.specs.declared.dtype.PType.TheVariants.{U32};
    ghost use Rattle.vortex_columns.specs.ScalarOf.{int_scalar};

    ghost from_gives = { λ z s. s ≡ int_scalar U32 (pos z) };

    fn from(value: u32) -> Scalar {
        Scalar {
            dtype: DType::Primitive(PType::U32, Nullability::NonNullable),
            value: Some(ScalarValue::Int(i128::from(value))),
        }
    }
}

/// A value of a non-nullable integer type.
impl From<u64> for Scalar {
    ghost use Rattle.std.specs.Prelude.{pos};
    ghost use Rattle.vortex_types.specs.declared.dtype.PType.TheVariants.{U64};
    ghost use Rattle.vortex_columns.specs.ScalarOf.{int_scalar};

    ghost from_gives = { λ z s. s ≡ int_scalar U64 (pos z) };

    fn from(value: u64) -> Scalar {
        Scalar {
            dtype: DType::Primitive(PType::U64, Nullability::NonNullable),
            value: Some(ScalarValue::Int(i128::from(value))),
        }
    }
}

/// Equal where the types agree apart from nullability and the values are equal.
impl PartialEq for Scalar {
    ghost use Rattle.vortex_types.specs.ScalarView.{scalar_eq};
    ghost use Rattle.vortex_types.specs.ScalarLaws.{scalar_eq-laws};

    ghost eq = { scalar_eq };

    ghost laws = { scalar_eq-laws };

    fn eq(&self, other: &Scalar) -> bool {
        match self.partial_cmp(other) {
            Some(Ordering::Equal) => true,
            _ => false,
        }
    }
}

/// The order of the values; none exactly where the types differ other than in nullability.
impl PartialOrd for Scalar {
    ghost use Rattle.vortex_types.specs.ScalarView.{compare_scalars};
    ghost use Rattle.vortex_types.specs.ScalarLaws.{compare_scalars-laws};

    ghost partial_cmp = { compare_scalars };

    ghost laws = { compare_scalars-laws };

    fn partial_cmp(&self, other: &Scalar) -> Option<Ordering> {
        if !self.dtype.eq_ignore_nullability(&other.dtype) {
            return None;
        }
        Some(self.cell().compare(&other.cell()))
    }
}
