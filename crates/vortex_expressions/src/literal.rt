//! Literals, and the types that they take.
ghost use Rattle.std.specs.Prelude.{◌≡◌, option_map, None};
ghost use Rattle.vortex_errors.specs.Answers.{AnswersUnlessMemory};
ghost use Rattle.vortex_types.specs.TypeOf.{type_of};
ghost use Rattle.vortex_expressions.specs.Literals.{literal_in, own_type, number_type};
ghost use Rattle.vortex_expressions.specs.Literals.{text_type_beside, suits};
ghost use Rattle.vortex_expressions.specs.Literals.{type_beside, value_at, truth_word};
ghost use Rattle.vortex_expressions.specs.Literals.{is_fractional, has_fraction};

use std::alloc::Global;
use vortex_cells::cells::literal_of_cell;
use vortex_columns::{DType, Nullability, PType, Scalar, VortexResult};

/// A literal without a written type.
#[derive(Drop)]
pub(crate) enum Literal {
    /// Digits, optionally after a minus sign.
    Number(String),
    Text(String),
    Truth(bool),
    Null,
}

/// The type that a number takes next to a value of that type. E9 where an allocation fails.
fn number_type(alloc: Global, beside: &DType) -> VortexResult<DType>
    ensures { AnswersUnlessMemory result (λ t. type_of t ≡ number_type (type_of beside.now)) }
{
    if beside.is_primitive() {
        Ok(beside.try_clone(alloc)?.as_nonnullable())
    } else {
        Ok(DType::Primitive(PType::I64, Nullability::NonNullable))
    }
}

/// The type that a text takes next to a value of that type. E9 where an allocation fails.
fn text_type_beside(alloc: Global, beside: &DType) -> VortexResult<DType>
    ensures { AnswersUnlessMemory result (λ t. type_of t ≡ text_type_beside (type_of beside.now)) }
{
    if beside.is_primitive() {
        Ok(beside.try_clone(alloc)?.as_nonnullable())
    } else {
        Ok(DType::Utf8(Nullability::NonNullable))
    }
}

fn is_fractional(byte: u8) -> bool
    ensures { result ≡ is_fractional byte }
{
    byte == b'.' || byte == b'E' || byte == b'e'
}

/// Whether a number has a point or an exponent.
pub(crate) fn has_fraction(number: &str) -> bool
    ensures { result ≡ has_fraction number.now }
{
    number.as_bytes().iter().any(|byte| is_fractional(*byte))
}

fn truth_word(truth: bool) -> &'static str
    ensures { result.now ≡ truth_word truth }
{
    if truth { "true" } else { "false" }
}

impl Literal {
    /// A copy.
    pub(crate) fn try_clone(&self, alloc: Global) -> VortexResult<Literal>
        ensures { AnswersUnlessMemory result (λ l. literal_in l ≡ literal_in self.now) }
    {
        match self {
            Literal::Number(word) => Ok(Literal::Number(String::from_str(alloc, word.as_str())?)),
            Literal::Text(text) => Ok(Literal::Text(String::from_str(alloc, text.as_str())?)),
            Literal::Truth(truth) => Ok(Literal::Truth(*truth)),
            Literal::Null => Ok(Literal::Null),
        }
    }

    /// The default type; null has none.
    pub(crate) fn own_type(&self) -> Option<DType>
        ensures { option_map (λ t. type_of t) result ≡ own_type (literal_in self.now) }
    {
        match self {
            Literal::Number(_) => Some(DType::Primitive(PType::I64, Nullability::NonNullable)),
            Literal::Text(_) => Some(DType::Utf8(Nullability::NonNullable)),
            Literal::Truth(_) => Some(DType::Bool(Nullability::NonNullable)),
            Literal::Null => None,
        }
    }

    /// The type that it has alone: null is a text.
    fn type_alone(&self) -> Option<DType>
        ensures { option_map (λ t. type_of t) result ≡ type_beside None (literal_in self.now) }
    {
        match self {
            Literal::Null => Some(DType::Utf8(Nullability::NonNullable)),
            _ => self.own_type(),
        }
    }

    /// The type that it takes next to a value of that type. E9 where an allocation fails.
    pub(crate) fn type_beside(
        &self,
        alloc: Global,
        beside: Option<&DType>,
    ) -> VortexResult<Option<DType>>
        ensures { AnswersUnlessMemory result (λ t. option_map (λ t. type_of t) t
            ≡ type_beside (option_map (λ t. type_of t.now) beside.entry) (literal_in self.now)) }
    {
        let Some(beside) = beside else {
            return Ok(self.type_alone());
        };
        match self {
            Literal::Number(_) => Ok(Some(number_type(alloc, beside)?)),
            Literal::Text(_) => Ok(Some(text_type_beside(alloc, beside)?)),
            Literal::Null => Ok(Some(beside.try_clone(alloc)?)),
            _ => Ok(self.own_type()),
        }
    }

    /// Whether it has values of that type as it is written.
    pub(crate) fn suits(&self, dtype: &DType) -> bool
        ensures { result ≡ suits (literal_in self.now) (type_of dtype.now) }
    {
        match self {
            Literal::Number(_) => dtype.is_primitive(),
            Literal::Text(_) => dtype.is_utf8() || dtype.is_primitive(),
            Literal::Truth(_) => dtype.is_boolean(),
            Literal::Null => true,
        }
    }

    /// Its value in that type; none if it has none. E9 where an allocation fails.
    pub(crate) fn value_at(&self, alloc: Global, dtype: DType) -> VortexResult<Option<Scalar>>
        ensures { AnswersUnlessMemory result
            (λ s. s ≡ value_at (type_of dtype) (literal_in self.now)) }
    {
        match self {
            Literal::Null => Ok(Some(Scalar::null(dtype.with_nullability(Nullability::Nullable)))),
            Literal::Number(word) if dtype.is_primitive() => {
                literal_of_cell(alloc, &dtype, Some(word.as_str()))
            }
            Literal::Text(text) if dtype.is_utf8() || dtype.is_primitive() => {
                literal_of_cell(alloc, &dtype, Some(text.as_str()))
            }
            Literal::Truth(truth) if dtype.is_boolean() => {
                literal_of_cell(alloc, &dtype, Some(truth_word(*truth)))
            }
            _ => Ok(None),
        }
    }
}
