//! What an operand becomes next to another: a float, an integer of another type, or an instant.
ghost use Rattle.std.specs.Prelude.{◌≡◌};
ghost use Rattle.vortex_types.specs.TypeEquality.{ptype_eq};
ghost use Rattle.vortex_lowering.specs.Rows.{lowered};
ghost use Rattle.vortex_logical_calls.specs.Outcomes.{Makes};
ghost use Rattle.vortex_logical_calls.specs.Conversions as specs;

use crate::call::call_one;
use std::alloc::Global;
use vortex_functions::BoundExpression;
use vortex_logical::common::common_operand;
use vortex_logical::kind::Kind;
use vortex_logical::operand::Operand;
use vortex_lowering::{Lowered, Refusal};
use vortex_standard::{Cast, DecimalScale, Standard, Widen, has_all_of};
use vortex_types::PType;

/// What an operand becomes.
#[derive(Clone, Copy, Debug, PartialEq, Eq)]
pub(crate) enum Conversion {
    /// It stays as it is.
    Keep,
    /// A float of 64 bits.
    Float,
    /// An integer of that type.
    Integer(PType),
    /// The instant of a date's midnight.
    Instant,
}

/// Whether operands meet in a float of 64 bits.
pub(crate) fn meet_in_float(left: &Operand, right: &Operand) -> bool
    ensures { result ≡ specs.meet_in_float left.now right.now }
{
    matches!(common_operand(left, right), Some(Operand::Of(Kind::F64)))
}

/// What an operand becomes next to another without being rounded: a whole number takes an integer
/// type, and a date is its midnight next to a timestamp.
fn exact_conversion(operand: &Operand, other: &Operand) -> Conversion
    ensures { result ≡ specs.exact_conversion operand.now other.now }
{
    match (operand, other) {
        (Operand::Whole(_), Operand::Of(Kind::Decimal(_))) => Conversion::Integer(PType::I64),
        (Operand::Whole(_), Operand::Of(Kind::Date)) => Conversion::Integer(PType::I32),
        (Operand::Of(Kind::Date), Operand::Of(Kind::Timestamp)) => Conversion::Instant,
        _ => Conversion::Keep,
    }
}

/// What an operand becomes next to another.
pub(crate) fn conversion_beside(operand: &Operand, other: &Operand) -> Conversion
    ensures { result ≡ specs.conversion_beside operand.now other.now }
{
    if meet_in_float(operand, other) {
        Conversion::Float
    } else {
        exact_conversion(operand, other)
    }
}

/// What an operand becomes next to two others.
pub(crate) fn conversion_by_two(operand: &Operand, first: &Operand, second: &Operand) -> Conversion
    ensures { result ≡ specs.conversion_by_two operand.now first.now second.now }
{
    if meet_in_float(operand, second) {
        return Conversion::Float;
    }
    match conversion_beside(operand, first) {
        Conversion::Keep => exact_conversion(operand, second),
        other => other,
    }
}

/// To an integer type: where it has every number of the other, no row faults.
pub fn integer_cast(from: PType, to: PType) -> Standard
    ensures { result ≡ specs.integer_cast from to }
{
    if has_all_of(to, from) {
        Standard::Widen(Widen { ptype: to })
    } else {
        Standard::Cast(Cast { ptype: to })
    }
}

/// The function that makes a float of 64 bits of a number; none if it is one, or no number.
fn float_function(operand: &Operand) -> Option<Standard>
    ensures { result ≡ specs.float_function operand.now }
{
    match operand {
        Operand::Whole(_) => Some(Standard::IntToFloat),
        Operand::Of(Kind::Decimal(digits)) => {
            let scale = DecimalScale::of_number(digits.scale())?;
            Some(Standard::DecimalToFloat(scale))
        }
        Operand::Of(Kind::F32) => Some(Standard::WidenFloat),
        _ => None,
    }
}

/// An operand, after a function if there is one.
fn after(
    alloc: Global,
    function: Option<Standard>,
    operand: Operand,
    item: Lowered<Standard>,
) -> Result<Lowered<Standard>, Refusal>
    ensures { Makes (λ x. lowered x.tree x.operand) result
        (specs.after function operand (lowered item.tree item.operand)) }
{
    match function {
        Some(function) => {
            let tree = call_one(alloc, function, item.tree)?;
            Ok(Lowered { tree, operand })
        }
        None => Ok(item),
    }
}

/// A number as a float of 64 bits: rounded once, so that it is the nearest float.
pub fn as_float(alloc: Global, item: Lowered<Standard>) -> Result<Lowered<Standard>, Refusal>
    ensures { Makes (λ x. lowered x.tree x.operand) result
        (specs.as_float (lowered item.tree item.operand)) }
{
    let function = float_function(&item.operand);
    after(alloc, function, Operand::Of(Kind::F64), item)
}

fn is_same_type(from: PType, to: PType) -> bool
    ensures { result ≡ ptype_eq from to }
{
    from == to
}

/// The cast to another integer type; none to the same.
fn other_type_cast(from: PType, to: PType) -> Option<Standard>
    ensures { result ≡ specs.other_type_cast from to }
{
    if is_same_type(from, to) {
        None
    } else {
        Some(integer_cast(from, to))
    }
}

/// The cast of a whole number to another type; none if it is of that type, or no whole number.
fn integer_function(operand: &Operand, to: PType) -> Option<Standard>
    ensures { result ≡ specs.integer_function operand.now to }
{
    match operand {
        Operand::Whole(from) => other_type_cast(*from, to),
        Operand::Of(_) => None,
    }
}

/// A whole number in that type; the fault `OutOfRange` in rows whose number the type does not have.
pub(crate) fn as_integer(
    alloc: Global,
    ptype: PType,
    item: Lowered<Standard>,
) -> Result<Lowered<Standard>, Refusal>
    ensures { Makes (λ x. lowered x.tree x.operand) result
        (specs.as_integer ptype (lowered item.tree item.operand)) }
{
    let function = integer_function(&item.operand, ptype);
    after(alloc, function, Operand::Whole(ptype), item)
}

/// A date as the instant of its midnight; the fault `IntegerOutOfRange` in rows where 64 bits do not
/// hold its microseconds.
pub(crate) fn as_instant(
    alloc: Global,
    item: Lowered<Standard>,
) -> Result<Lowered<Standard>, Refusal>
    ensures { Makes (λ x. lowered x.tree x.operand) result
        (specs.as_instant (lowered item.tree item.operand)) }
{
    after(
        alloc,
        Some(Standard::DateToTimestamp),
        Operand::Of(Kind::Timestamp),
        item,
    )
}

/// What the operand becomes.
pub(crate) fn converted(
    alloc: Global,
    conversion: Conversion,
    item: Lowered<Standard>,
) -> Result<Lowered<Standard>, Refusal>
    ensures { Makes (λ x. lowered x.tree x.operand) result
        (specs.converted conversion (lowered item.tree item.operand)) }
{
    match conversion {
        Conversion::Keep => Ok(item),
        Conversion::Float => as_float(alloc, item),
        Conversion::Integer(ptype) => as_integer(alloc, ptype, item),
        Conversion::Instant => as_instant(alloc, item),
    }
}
