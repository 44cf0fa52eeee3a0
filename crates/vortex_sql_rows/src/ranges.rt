//! The ranges of the integer types.
ghost use Rattle.std.specs.Prelude.{◌≡◌};
ghost use Rattle.vortex_types.specs.Typing.{least_of, greatest_of};
ghost use Rattle.vortex_sql_rows.specs.Integers.{checked};
ghost use Rattle.vortex_sql_rows.specs.Types.{is_in, has_all_of};

use vortex_columns::PType;

pub fn least_of(ptype: PType) -> i128
    ensures { result ≡ least_of ptype }
{
    match ptype {
        PType::I8 => -128,
        PType::I16 => -32768,
        PType::I32 => -2147483648,
        PType::I64 => -9223372036854775808,
        PType::U8 => 0,
        PType::U16 => 0,
        PType::U32 => 0,
        PType::U64 => 0,
    }
}

pub fn greatest_of(ptype: PType) -> i128
    ensures { result ≡ greatest_of ptype }
{
    match ptype {
        PType::I8 => 127,
        PType::I16 => 32767,
        PType::I32 => 2147483647,
        PType::I64 => 9223372036854775807,
        PType::U8 => 255,
        PType::U16 => 65535,
        PType::U32 => 4294967295,
        PType::U64 => 18446744073709551615,
    }
}

/// Whether the type has the number.
pub fn is_in(ptype: PType, number: i128) -> bool
    ensures { result ≡ is_in ptype number }
{
    !(number < least_of(ptype) || greatest_of(ptype) < number)
}

/// Whether the first type has every number of the second.
pub fn has_all_of(wide: PType, narrow: PType) -> bool
    ensures { result ≡ has_all_of wide narrow }
{
    is_in(wide, least_of(narrow)) && is_in(wide, greatest_of(narrow))
}

/// The number, where the type has it.
pub fn checked(ptype: PType, number: i128) -> Option<i128>
    ensures { result ≡ checked ptype number }
{
    if is_in(ptype, number) {
        Some(number)
    } else {
        None
    }
}
