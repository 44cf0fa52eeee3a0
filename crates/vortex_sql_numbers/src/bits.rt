//! Bits of integers: `bit_and`, `bit_or`, `bit_xor`, `bit_not`, `shift_left` and `shift_right`.
ghost use Rattle.std.specs.Prelude.{◌≡◌, ◌<◌, pos, unsigned_abs};
ghost use Rattle.vortex_sql_numbers.specs.Bits.{bits_by, operator_row, operator_lawful, ones_of};
ghost use Rattle.vortex_sql_numbers.specs.Bits.{bit_not_row, bit_not_lawful, last_place, count_of};
ghost use Rattle.vortex_sql_numbers.specs.Bits.{least_rest, lowest_bits, shifted, is_place};
ghost use Rattle.vortex_sql_numbers.specs.Bits.{shift_row, shift_lawful};

use vortex_columns::{Cell, PType, VortexResult};
use vortex_sql_rows::cells::{both_ints, int_or_fault, only_int};
use vortex_sql_rows::faults::RowFault;
use vortex_sql_rows::ranges::{checked, greatest_of};
use vortex_sql_rows::row::{RowFn, Signature};
use vortex_sql_rows::types::{Gives, Kind, Takes};

/// `a & b`, `a | b` or `a # b`, as `bit_and(a, b)` and so on
#[derive(Clone, Copy, Debug, PartialEq, Eq)]
pub enum BitOperator {
    And,
    Or,
    Xor,
}

/// `~a`, as `bit_not(a)`
pub struct BitNot;

/// `a << b` or `a >> b`, as `shift_left(a, b)` and `shift_right(a, b)`
#[derive(Clone, Copy, Debug, PartialEq, Eq)]
pub enum Shift {
    Left,
    Right,
}

fn bits_by(operator: BitOperator, a: i128, b: i128) -> i128
    ensures { result ≡ bits_by operator a b }
{
    match operator {
        BitOperator::And => a & b,
        BitOperator::Or => a | b,
        BitOperator::Xor => a ^ b,
    }
}

/// The number of the type whose bits are all ones.
fn ones_of(ptype: PType) -> i128
    ensures { result ≡ ones_of ptype }
{
    match ptype {
        PType::I8 => -1,
        PType::I16 => -1,
        PType::I32 => -1,
        PType::I64 => -1,
        PType::U8 => 255,
        PType::U16 => 65535,
        PType::U32 => 4294967295,
        PType::U64 => 18446744073709551615,
    }
}

/// The last place of a bit.
fn last_place(ptype: PType) -> i128
    ensures { result ≡ last_place ptype }
{
    match ptype {
        PType::I8 => 7,
        PType::I16 => 15,
        PType::I32 => 31,
        PType::I64 => 63,
        PType::U8 => 7,
        PType::U16 => 15,
        PType::U32 => 31,
        PType::U64 => 63,
    }
}

/// How many numbers the type has.
fn count_of(ptype: PType) -> i128
    ensures { result ≡ count_of ptype }
{
    match ptype {
        PType::I8 => 256,
        PType::I16 => 65536,
        PType::I32 => 4294967296,
        PType::I64 => 18446744073709551616,
        PType::U8 => 256,
        PType::U16 => 65536,
        PType::U32 => 4294967296,
        PType::U64 => 18446744073709551616,
    }
}

fn is_place(ptype: PType, count: i128) -> bool
    ensures { result ≡ is_place ptype count }
{
    !(count < 0 || last_place(ptype) < count)
}

/// The number of the type with the same lowest bits.
fn lowest_bits(ptype: PType, number: i128) -> i128
    ensures { result ≡ lowest_bits ptype number }
{
    let count = count_of(ptype);
    let rest = number.rem_euclid(count);
    if greatest_of(ptype) < rest {
        rest - count
    } else {
        rest
    }
}

fn shifted(shift: Shift, ptype: PType, a: i128, places: u32) -> i128
    requires { places < 128 }
    ensures { result ≡ shifted shift ptype a places }
{
    match shift {
        Shift::Left => lowest_bits(ptype, a << places),
        Shift::Right => a >> places,
    }
}

impl RowFn for BitOperator {
    ghost about = { operator_row };

    fn signature(&self) -> Signature {
        let id = match self {
            BitOperator::And => "sql.bit_and",
            BitOperator::Or => "sql.bit_or",
            BitOperator::Xor => "sql.bit_xor",
        };
        Signature::strict(id, 2, Takes::Alike(Kind::Integer), Gives::Alike, false)
    }

    fn answer<'a>(&self, ptype: PType, cells: &[Cell<'a>]) -> VortexResult<Cell<'a>> {
        let Some((a, b)) = both_ints(cells) else {
            return Ok(Cell::Null);
        };
        int_or_fault(
            checked(ptype, bits_by(*self, a, b)),
            RowFault::IntegerOutOfRange,
        )
    }

    ghost lawful = { operator_lawful };
}

impl RowFn for BitNot {
    ghost about = { λ f. bit_not_row };

    fn signature(&self) -> Signature {
        Signature::strict(
            "sql.bit_not",
            1,
            Takes::Alike(Kind::Integer),
            Gives::Alike,
            false,
        )
    }

    fn answer<'a>(&self, ptype: PType, cells: &[Cell<'a>]) -> VortexResult<Cell<'a>> {
        let Some(a) = only_int(cells) else {
            return Ok(Cell::Null);
        };
        let turned = bits_by(BitOperator::Xor, a, ones_of(ptype));
        int_or_fault(checked(ptype, turned), RowFault::IntegerOutOfRange)
    }

    ghost lawful = { λ f. bit_not_lawful };
}

impl RowFn for Shift {
    ghost about = { shift_row };

    fn signature(&self) -> Signature {
        let id = match self {
            Shift::Left => "sql.shift_left",
            Shift::Right => "sql.shift_right",
        };
        Signature::strict(id, 2, Takes::Alike(Kind::Integer), Gives::Alike, false)
    }

    fn answer<'a>(&self, ptype: PType, cells: &[Cell<'a>]) -> VortexResult<Cell<'a>> {
        let Some((a, count)) = both_ints(cells) else {
            return Ok(Cell::Null);
        };
        if !is_place(ptype, count) {
            return int_or_fault(None, RowFault::ShiftCount);
        }
        int_or_fault(
            checked(ptype, shifted(*self, ptype, a, count as u32)),
            RowFault::IntegerOutOfRange,
        )
    }

    ghost lawful = { shift_lawful };
}
