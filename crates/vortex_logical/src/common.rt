//! The kind in which two kinds meet, and the kinds of answers.
ghost use Rattle.std.specs.Prelude.{◌≡◌, ◌≤◌, ◌+◌, min, Some, None, if◌then◌else◌};
ghost use Rattle.vortex_types.specs.TypeEquality.{ptype_eq};
ghost use Rattle.vortex_logical.specs.Digits.{AreDigits, digits_of};
ghost use Rattle.vortex_logical.specs.CommonKinds.{whole_digits, operand_digits, common_digits};
ghost use Rattle.vortex_logical.specs.CommonKinds.{met_digits, product_digits, is_float};
ghost use Rattle.vortex_logical.specs.CommonKinds.{float_if, numbers_met, met_numbers};
ghost use Rattle.vortex_logical.specs.CommonKinds.{common_operand};
ghost use Rattle.vortex_logical.specs.CommonKinds.{sum_operand, difference_operand};
ghost use Rattle.vortex_logical.specs.CommonKinds.{product_operand};

use crate::digits::DecimalDigits;
use crate::kind::Kind;
use crate::operand::{Meeting, Operand};
use vortex_types::PType;

fn whole_digits(ptype: PType) -> u32
    ensures value { result ≡ whole_digits ptype }
    ensures range { AreDigits (digits_of result 0) }
{
    match ptype {
        PType::I8 | PType::U8 => 3,
        PType::I16 | PType::U16 => 5,
        PType::I32 | PType::U32 => 10,
        PType::I64 | PType::U64 => 18,
    }
}

/// The digits of a decimal, a whole number being one without a point.
fn operand_digits(operand: &Operand) -> Option<DecimalDigits>
    ensures { result ≡ operand_digits operand.now }
{
    match operand {
        Operand::Whole(ptype) => DecimalDigits::try_new(whole_digits(*ptype), 0),
        Operand::Of(kind) => kind.decimal_digits(),
    }
}

fn is_float(operand: &Operand) -> bool
    ensures { result ≡ is_float operand.now }
{
    matches!(operand, Operand::Of(Kind::F64) | Operand::Of(Kind::F32))
}

/// The larger scale, and as many digits before the point as either has, where 18 hold them; `more`
/// digits beside.
fn common_digits(left: DecimalDigits, right: DecimalDigits, more: u32) -> Option<DecimalDigits>
    requires { more ≤ 1 }
    ensures { result ≡ Some (digits_of
        (min 18 ((common_digits left right).precision + more)) (common_digits left right).scale) }
{
    let scale = left.scale().max(right.scale());
    let whole = (left.precision() - left.scale()).max(right.precision() - right.scale());
    DecimalDigits::try_new((whole + scale).min(18).saturating_add(more).min(18), scale)
}

fn product_digits(left: DecimalDigits, right: DecimalDigits) -> Option<DecimalDigits>
    ensures { result ≡ product_digits left right }
{
    let scale = left.scale() + right.scale();
    if scale > 18 {
        return None;
    }
    DecimalDigits::try_new((left.precision() + right.precision()).min(18), scale)
}

fn met_digits(meeting: Meeting, left: DecimalDigits, right: DecimalDigits) -> Option<DecimalDigits>
    ensures { result ≡ met_digits meeting left right }
{
    match meeting {
        Meeting::Comparison => common_digits(left, right, 0),
        Meeting::Sum => common_digits(left, right, 1),
        Meeting::Product => product_digits(left, right),
    }
}

fn float_if(found: bool) -> Option<Operand>
    ensures { result ≡ float_if found }
{
    if found {
        Some(Operand::Of(Kind::F64))
    } else {
        None
    }
}

fn numbers_met(
    meeting: Meeting,
    left: Option<DecimalDigits>,
    right: Option<DecimalDigits>,
    left_float: bool,
    right_float: bool,
) -> Option<Operand>
    ensures { result ≡ numbers_met meeting left right left_float right_float }
{
    match (left, right) {
        (Some(left), Some(right)) => {
            Some(Operand::Of(Kind::Decimal(met_digits(meeting, left, right)?)))
        }
        (Some(_), None) => float_if(right_float),
        (None, Some(_)) => float_if(left_float),
        (None, None) => float_if(left_float && right_float),
    }
}

/// Whole numbers meet if they are of one type, as in columns of integers.
fn whole_met(left: PType, right: PType) -> Option<Operand>
    ensures { result ≡ (if ptype_eq left right then Some (Operand.Whole left) else None) }
{
    if left == right {
        Some(Operand::Whole(left))
    } else {
        None
    }
}

/// The kind of two numbers that meet, or none.
pub fn met_numbers(meeting: Meeting, left: &Operand, right: &Operand) -> Option<Operand>
    ensures { result ≡ met_numbers meeting left.now right.now }
{
    match (left, right) {
        (Operand::Whole(left), Operand::Whole(right)) => whole_met(*left, *right),
        (Operand::Of(Kind::F32), Operand::Of(Kind::F32)) => Some(Operand::Of(Kind::F32)),
        _ => numbers_met(
            meeting,
            operand_digits(left),
            operand_digits(right),
            is_float(left),
            is_float(right),
        ),
    }
}

/// The kind in which two are compared: each with its own; two decimals, and a whole number beside a
/// decimal, in the larger scale; any number beside a float as a float. None for all others: whole
/// numbers of two types, a date beside a timestamp, a text beside a number.
pub fn common_operand(left: &Operand, right: &Operand) -> Option<Operand>
    ensures { result ≡ common_operand left.now right.now }
{
    match (left, right) {
        (Operand::Of(Kind::Plain), Operand::Of(Kind::Plain)) => Some(Operand::Of(Kind::Plain)),
        (Operand::Of(Kind::Date), Operand::Of(Kind::Date)) => Some(Operand::Of(Kind::Date)),
        (Operand::Of(Kind::Timestamp), Operand::Of(Kind::Timestamp)) => {
            Some(Operand::Of(Kind::Timestamp))
        }
        _ => met_numbers(Meeting::Comparison, left, right),
    }
}

/// The kind of a sum: numbers as they are compared, a decimal with one digit more; days and a date
/// are a date.
pub fn sum_operand(left: &Operand, right: &Operand) -> Option<Operand>
    ensures { result ≡ sum_operand left.now right.now }
{
    match (left, right) {
        (Operand::Of(Kind::Date), Operand::Whole(_))
        | (Operand::Whole(_), Operand::Of(Kind::Date)) => Some(Operand::Of(Kind::Date)),
        _ => met_numbers(Meeting::Sum, left, right),
    }
}

/// The kind of a difference: as of a sum; of two dates it is their days, a whole number.
pub fn difference_operand(left: &Operand, right: &Operand) -> Option<Operand>
    ensures { result ≡ difference_operand left.now right.now }
{
    match (left, right) {
        (Operand::Of(Kind::Date), Operand::Of(Kind::Date)) => Some(Operand::Whole(PType::I32)),
        (Operand::Of(Kind::Date), Operand::Whole(_)) => Some(Operand::Of(Kind::Date)),
        _ => met_numbers(Meeting::Sum, left, right),
    }
}

/// The kind of a product: of decimals the scales add, and it is none past 18 digits after the
/// point.
pub fn product_operand(left: &Operand, right: &Operand) -> Option<Operand>
    ensures { result ≡ product_operand left.now right.now }
{
    met_numbers(Meeting::Product, left, right)
}
