//! The type of a column, with the kind of its values.
ghost use Rattle.std.specs.Prelude.{◌≡◌};
ghost use Rattle.std.specs.Option.{option_map};
ghost use Rattle.vortex_errors.specs.Answers.{AnswersUnlessMemory};
ghost use Rattle.vortex_types.specs.TypeOf.{type_of, allows_null};
ghost use Rattle.rowfn_queries.specs.ColumnTypes.{type_in, plain, of_kind};

use std::alloc::Global;
use std::fmt;
use vortex_columns::{DType, Nullability, VortexResult};
use vortex_logical::kind::Kind;

/// The type that a column stores, and the kind of its values.
#[derive(Drop)]
pub struct ColumnType {
    pub dtype: DType,
    pub kind: Kind,
}

impl ColumnType {
    /// A type whose values have no kind.
    pub(crate) fn plain(dtype: DType) -> ColumnType
        ensures { type_in result ≡ plain (type_of dtype) }
    {
        ColumnType {
            dtype,
            kind: Kind::Plain,
        }
    }

    /// A kind with the type that stores it; none of a plain column, which has a type of its own.
    pub(crate) fn of_kind(kind: Kind, nullability: Nullability) -> Option<ColumnType>
        ensures { option_map (λ t. type_in t) result ≡ of_kind (allows_null nullability) kind }
    {
        match kind.stored_type(nullability) {
            Some(dtype) => Some(ColumnType { dtype, kind }),
            None => None,
        }
    }

    /// A copy. E9 where an allocation fails.
    pub(crate) fn try_clone(&self, alloc: Global) -> VortexResult<ColumnType>
        ensures { AnswersUnlessMemory result (λ copy. type_in copy ≡ type_in self.now) }
    {
        let dtype = self.dtype.try_clone(alloc)?;
        Ok(ColumnType {
            dtype,
            kind: self.kind,
        })
    }
}

/// The type as it is declared: `i64?`, `date`, `decimal?(12,2)`.
impl fmt::Display for ColumnType {
    fn fmt<W: fmt::Write>(&self, f: &mut fmt::Formatter<W>) -> fmt::Result {
        let (dtype, kind) = (&self.dtype, self.kind);
        if kind == Kind::Plain {
            return write!(f, "{dtype:?}");
        }
        let mark = if dtype.is_nullable() { "?" } else { "" };
        match kind.decimal_digits() {
            Some(digits) => {
                let (precision, scale) = (digits.precision(), digits.scale());
                write!(f, "decimal{mark}({precision},{scale})")
            }
            None => write!(f, "{kind}{mark}"),
        }
    }
}
