//! What the type alone says of a value.
ghost use Rattle.std.specs.Prelude.{◌≡◌};
ghost use Rattle.vortex_types.specs.TypeOf.{type_of};
ghost use Rattle.vortex_types.specs.Typing.{least_of, greatest_of};
ghost use Rattle.vortex_ranges.specs.BoundViews.{end_of, range_of};
ghost use Rattle.vortex_ranges.specs.TypeRanges.{least, greatest, of_type, narrowed};

use crate::bound::Bound;
use crate::range::Range;
use vortex_types::{DType, PType};

/// The least number of an integer type.
pub(crate) fn least_of(ptype: PType) -> i128
    ensures { result ≡ least_of ptype }
{
    match ptype {
        PType::I8 => -128,
        PType::I16 => -32_768,
        PType::I32 => -2_147_483_648,
        PType::I64 => -9_223_372_036_854_775_808,
        PType::U8 | PType::U16 | PType::U32 | PType::U64 => 0,
    }
}

/// And the greatest.
pub(crate) fn greatest_of(ptype: PType) -> i128
    ensures { result ≡ greatest_of ptype }
{
    match ptype {
        PType::I8 => 127,
        PType::I16 => 32_767,
        PType::I32 => 2_147_483_647,
        PType::I64 => 9_223_372_036_854_775_807,
        PType::U8 => 255,
        PType::U16 => 65_535,
        PType::U32 => 4_294_967_295,
        PType::U64 => 18_446_744_073_709_551_615,
    }
}

/// The least value of a type, where there is one that is known.
fn least<'a>(dtype: &DType) -> Option<Bound<'a>>
    ensures { end_of result ≡ least (type_of dtype.now) }
{
    match dtype {
        DType::Bool(_) => Some(Bound::Bool(false)),
        DType::Primitive(ptype, _) => Some(Bound::Int(least_of(*ptype))),
        DType::Utf8(_) => Some(Bound::Text(&[])),
        DType::Binary(_) => Some(Bound::Bytes(&[])),
        DType::Null
        | DType::Struct(_, _)
        | DType::List(_, _)
        | DType::FixedSizeList(_, _, _)
        | DType::Map(_, _, _) => None,
    }
}

/// And the greatest.
fn greatest<'a>(dtype: &DType) -> Option<Bound<'a>>
    ensures { end_of result ≡ greatest (type_of dtype.now) }
{
    match dtype {
        DType::Bool(_) => Some(Bound::Bool(true)),
        DType::Primitive(ptype, _) => Some(Bound::Int(greatest_of(*ptype))),
        DType::Utf8(_)
        | DType::Binary(_)
        | DType::Null
        | DType::Struct(_, _)
        | DType::List(_, _)
        | DType::FixedSizeList(_, _, _)
        | DType::Map(_, _, _) => None,
    }
}

impl<'a> Range<'a> {
    /// The range of any value of a type, of a function that may fault or does not.
    pub fn of_type(dtype: &DType, may_fault: bool) -> Range<'a>
        ensures { range_of result ≡ of_type may_fault (type_of dtype.now) }
    {
        Range {
            may_fault,
            may_be_null: dtype.is_nullable(),
            may_be_value: true,
            low: least(dtype),
            high: greatest(dtype),
        }
    }

    /// The same range, of values of a type: no null where the type has none, and its ends where no
    /// others are known.
    pub fn narrowed(&self, dtype: &DType) -> Range<'a>
        ensures { range_of result ≡ narrowed (type_of dtype.now) (range_of self.now) }
    {
        let low = match self.low {
            Some(low) => Some(low),
            None => least(dtype),
        };
        let high = match self.high {
            Some(high) => Some(high),
            None => greatest(dtype),
        };
        Range {
            may_fault: self.may_fault,
            may_be_null: self.may_be_null && dtype.is_nullable(),
            may_be_value: self.may_be_value,
            low,
            high,
        }
    }
}
