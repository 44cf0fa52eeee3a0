//! Casts of floats of 64 bits to decimals.
ghost use Rattle.std.specs.Prelude.{◌≡◌, ◌≤◌, ◌+◌, ◌-◌, ◌*◌, ◌^◌, MatchOption};
ghost use Rattle.vortex_columns.specs.Cells.{cell_value};
ghost use Rattle.vortex_logical.specs.Decimals.{within_digits};
ghost use Rattle.vortex_sql_rows.specs.AnsweredRows.{AnswersRow};
ghost use Rattle.vortex_sql_rows.specs.Shapes.{number_in, with_three};
ghost use Rattle.vortex_sql_kind_texts.specs.DecimalRounding.{with_sign};
ghost use Rattle.vortex_sql_kind_texts.specs.FloatDecimals as specs;

use crate::cells::{digits_in, other_values, power_of, stored_in};
use crate::decimals::with_sign;
use vortex_columns::{Cell, PType, VortexResult};
use vortex_float_texts::leading::{FirstDigits, is_float, leading};
use vortex_float_texts::places::{PlaceRounding, at_place};
use vortex_logical::decimals::within_digits;
use vortex_logical::digits::DecimalDigits;
use vortex_sql_rows::cells::{int_in, int_or_fault};
use vortex_sql_rows::faults::RowFault;
use vortex_sql_rows::row::{RowFn, Signature};
use vortex_sql_rows::types::{Gives, Kind, Takes};

/// A float of 64 bits, a scale and a precision, 1 to 18: the integer of the decimal that the float's
/// first 15 significant digits are, rounded at the scale from halfway away from zero. The fault
/// `DecimalDigits` where the decimal does not have so many digits, and of a NaN and an infinity; the
/// fault `OtherValues` where there are no such digits, and of an integer that stands for no float.
pub struct FloatToDecimal;

/// The product with ten to that power, if it has no more than 18 digits.
#[tactic(auto, using(crate::proofs::ScaledNumbers::no_product))]
fn multiplied(digits: u64, by: u64) -> Option<u64>
    ensures { MatchOption result (1000000000000000000 ≤ digits * 10 ^ by)
        (λ n. n ≡ digits * 10 ^ by) }
{
    if digits == 0 {
        return Some(0);
    }
    if by > 18 {
        return None;
    }
    digits.checked_mul(power_of(by as u32))
}

/// How many units of that scale the decimal has, where all its digits are before that.
#[tactic(auto, using(crate::proofs::ScaledNumbers::no_product))]
fn scaled_up(scale: u32, first: FirstDigits) -> Option<u64>
    ensures { MatchOption result
        (1000000000000000000 ≤ first.digits * 10 ^ (first.power + scale - 400))
        (λ n. n ≡ first.digits * 10 ^ (first.power + scale - 400)) }
{
    if first.power <= 1000 {
        let power = first.power + scale as u64;
        return multiplied(first.digits, power.saturating_sub(400));
    }
    if first.digits == 0 { Some(0) } else { None }
}

fn units_or(scale: u32, first: FirstDigits, placed: Option<u64>) -> Option<u64>
    ensures { MatchOption result (1000000000000000000 ≤ specs.units_or scale first placed)
        (λ n. n ≡ specs.units_or scale first placed) }
{
    match placed {
        Some(units) => Some(units),
        None => scaled_up(scale, first),
    }
}

/// How many units of that scale the decimal has, if it has no more than 18 digits there.
fn units_at(scale: u32, first: FirstDigits) -> Option<u64>
    ensures { MatchOption result (1000000000000000000 ≤ specs.units_at scale first)
        (λ n. n ≡ specs.units_at scale first) }
{
    units_or(
        scale,
        first,
        at_place(PlaceRounding::Half, scale as u64, first),
    )
}

/// The integer of that size, with the sign of the number, if a decimal has it.
#[tactic(auto, using(crate::proofs::ScaledNumbers::too_many_units))]
fn signed_units(number: i64, digits: DecimalDigits, first: FirstDigits) -> Option<i64>
    ensures { result ≡ within_digits digits.precision
        (with_sign number (specs.units_at digits.scale first)) }
{
    let _precision = digits.precision();
    match units_at(digits.scale(), first) {
        Some(units) => within_digits(with_sign(number, units), digits),
        None => None,
    }
}

fn decimal_at(number: i64, digits: DecimalDigits, first: Option<FirstDigits>) -> Option<i64>
    ensures { result ≡ specs.decimal_at number digits first }
{
    match first {
        Some(first) => signed_units(number, digits, first),
        None => None,
    }
}

#[tactic(auto, unfolding(crate::specs::FloatDecimals::float_decimal))]
fn float_decimal<'a>(number: i64, digits: DecimalDigits) -> VortexResult<Cell<'a>>
    ensures { AnswersRow (specs.float_decimal number digits) result }
{
    if !is_float(number) {
        return other_values();
    }
    match decimal_at(number, digits, leading(number.unsigned_abs())) {
        Some(decimal) => Ok(Cell::Int(i128::from(decimal))),
        None => int_or_fault(None, RowFault::DecimalDigits),
    }
}

fn key_decimal<'a>(scale: i128, precision: i128, number: i64) -> VortexResult<Cell<'a>>
    ensures { AnswersRow (specs.key_decimal scale precision number) result }
{
    match digits_in(precision, scale) {
        Some(digits) => float_decimal(number, digits),
        None => other_values(),
    }
}

fn number_decimal<'a>(number: i128, scale: i128, precision: i128) -> VortexResult<Cell<'a>>
    ensures { AnswersRow (specs.number_decimal number scale precision) result }
{
    match stored_in(number) {
        Some(number) => key_decimal(scale, precision, number),
        None => other_values(),
    }
}

fn float_decimal_of<'a>(
    number: &Cell<'_>,
    scale: &Cell<'_>,
    precision: &Cell<'_>,
) -> VortexResult<Cell<'a>>
    ensures { AnswersRow (with_three specs.number_decimal (number_in (cell_value number.now))
        (number_in (cell_value scale.now)) (number_in (cell_value precision.now))) result }
{
    let Some(number) = int_in(number) else {
        return other_values();
    };
    let Some(scale) = int_in(scale) else {
        return other_values();
    };
    let Some(precision) = int_in(precision) else {
        return other_values();
    };
    number_decimal(number, scale, precision)
}

impl RowFn for FloatToDecimal {
    ghost about = { λ f. specs.float_decimal_row };

    fn signature(&self) -> Signature {
        let takes = Takes::Each(Kind::Within(PType::I64), Kind::Integer, Kind::Integer);
        Signature::strict(
            "sql.float_to_decimal",
            3,
            takes,
            Gives::Integer(PType::I64),
            false,
        )
    }

    fn answer<'a>(&self, _ptype: PType, cells: &[Cell<'a>]) -> VortexResult<Cell<'a>> {
        let [number, scale, precision] = cells else {
            return other_values();
        };
        float_decimal_of(number, scale, precision)
    }

    ghost lawful = { λ f. specs.float_decimal_lawful };
}
