//! The integer types, chosen before the rows.
ghost use Rattle.std.specs.Prelude.{◌≡◌};
ghost use Rattle.vortex_kernels.specs.Words.{integer_of_both, type_of};

use vortex_columns::{DType, PType};

/// The integer type of both types, if they agree apart from nullability.
pub(crate) fn integer_of_both(lhs: &DType, rhs: &DType) -> Option<PType>
    ensures { result ≡ integer_of_both (type_of lhs.now) (type_of rhs.now) }
{
    match (lhs, rhs) {
        (DType::Primitive(left, _), DType::Primitive(right, _)) if left == right => Some(*left),
        _ => None,
    }
}

/// A call of a generic function at the integer type of a `PType`: the type replaces the `_`, the
/// last of the type arguments.
macro_rules! with_integer {
    ($ptype:expr, $function:ident::<$($choice:ident,)* _>($($argument:expr),*)) => {
        match $ptype {
            PType::I8 => $function::<$($choice,)* i8>($($argument),*),
            PType::I16 => $function::<$($choice,)* i16>($($argument),*),
            PType::I32 => $function::<$($choice,)* i32>($($argument),*),
            PType::I64 => $function::<$($choice,)* i64>($($argument),*),
            PType::U8 => $function::<$($choice,)* u8>($($argument),*),
            PType::U16 => $function::<$($choice,)* u16>($($argument),*),
            PType::U32 => $function::<$($choice,)* u32>($($argument),*),
            PType::U64 => $function::<$($choice,)* u64>($($argument),*),
        }
    };
}

pub(crate) use with_integer;
