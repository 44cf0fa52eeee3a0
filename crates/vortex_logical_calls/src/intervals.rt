//! Intervals, and the dates and timestamps that those of a fixed length move.
ghost use Rattle.std.specs.Prelude.{◌≡◌, if◌then◌else◌};
ghost use Rattle.jiff_fmt.specs.Units.{signed_magnitudes};
ghost use Rattle.vortex_lowering.specs.Rows.{lowered};
ghost use Rattle.vortex_lowering.specs.LoweredTrees.{arithmetic_operator};
ghost use Rattle.vortex_logical_calls.specs.Outcomes.{Makes};
ghost use Rattle.vortex_logical_calls.specs.Intervals as specs;

use crate::call::call_on;
use crate::conversions::{conversion_beside, converted};
use jiff_core::Span;
use jiff_fmt::friendly::parse_span;
use std::alloc::Global;
use vortex_columns::{PType, Scalar, VortexError};
use vortex_functions::{BoundExpression, ScalarFnRef};
use vortex_logical::kind::Kind;
use vortex_logical::operand::Operand;
use vortex_lowering::{Lowered, Refusal};
use vortex_operators::Operator;
use vortex_standard::Standard;
use vortex_types::NumericOperator;

/// An interval: so much later, or earlier below zero.
#[derive(Clone, Copy, Debug, PartialEq, Eq)]
pub enum Interval {
    /// So many microseconds.
    Micros(i64),
    /// So many months, which have no fixed length.
    Months(i32),
}

/// The nanoseconds of a day.
const DAY_NANOS: u128 = 86_400_000_000_000;

/// The microseconds of a day.
const DAY_MICROS: i64 = 86_400_000_000;

/// The microseconds of that many nanoseconds, if they are whole and 64 bits hold them.
fn whole_micros(is_negative: bool, nanos: u128) -> Option<i64>
    ensures { result ≡ specs.whole_micros (if is_negative then 1 else 0) nanos }
{
    if nanos % 1000 != 0 {
        return None;
    }
    let micros = nanos / 1000;
    if micros > i64::MAX as u128 {
        return None;
    }
    let micros = micros as i64;
    Some(if is_negative { -micros } else { micros })
}

/// The microseconds of a span without months and years.
fn micros_of(span: &Span) -> Option<i64>
    ensures { result ≡ specs.micros_of (signed_magnitudes span.now) }
{
    if span.years != 0 || span.months != 0 {
        return None;
    }
    let nanos = span.day_magnitude() as u128 * DAY_NANOS + span.clock_magnitude();
    whole_micros(span.negative, nanos)
}

/// So many months, if 32 bits hold them.
fn whole_months(is_negative: bool, months: u64) -> Option<i32>
    ensures { result ≡ specs.whole_months (if is_negative then 1 else 0) months }
{
    if months > i32::MAX as u64 {
        return None;
    }
    let months = months as i32;
    Some(if is_negative { -months } else { months })
}

/// The months of a span without smaller units.
fn months_of(span: &Span) -> Option<i32>
    ensures { result ≡ specs.months_of (signed_magnitudes span.now) }
{
    let nanos = span.day_magnitude() as u128 * DAY_NANOS + span.clock_magnitude();
    if nanos != 0 {
        return None;
    }
    whole_months(span.negative, span.years as u64 * 12 + span.months as u64)
}

fn interval_in(span: &Span) -> Option<Interval>
    ensures { result ≡ specs.or_months (specs.micros_of (signed_magnitudes span.now))
        (specs.months_of (signed_magnitudes span.now)) }
{
    match micros_of(span) {
        Some(micros) => Some(Interval::Micros(micros)),
        None => Some(Interval::Months(months_of(span)?)),
    }
}

/// The interval of a text: a number and a unit as in `3 days`, several as in `1 day
/// 2 hours`, and a time as in `1 day 02:30:00`, with a minus sign before them or `ago` behind. Units
/// are weeks and smaller ones, of which a day has 24 hours, or years and months alone. None for any
/// other text, for months next to smaller units, for a fraction of a microsecond, and for more than
/// 64 bits hold.
pub fn interval_of(text: &[u8]) -> Option<Interval>
    ensures { result ≡ specs.interval_of text.now }
{
    match parse_span(text) {
        Ok(span) => interval_in(&span),
        Err(_) => None,
    }
}

/// The days of an interval, if they are whole.
fn whole_days(micros: i64) -> Option<Scalar>
    ensures { result ≡ specs.whole_days micros }
{
    if micros % DAY_MICROS == 0 {
        Some(Scalar::from((micros / DAY_MICROS) as i32))
    } else {
        None
    }
}

/// What an operand takes of an interval.
fn moved_by(operand: &Operand, micros: i64) -> Option<Scalar>
    ensures { result ≡ specs.moved_by operand.now micros }
{
    match operand {
        Operand::Of(Kind::Timestamp) => Some(Scalar::from(micros)),
        Operand::Of(Kind::Date) => whole_days(micros),
        _ => None,
    }
}

pub(crate) fn operator_of(operator: NumericOperator) -> Operator
    ensures { result ≡ arithmetic_operator operator }
{
    match operator {
        NumericOperator::Add => Operator::Add,
        NumericOperator::Sub => Operator::Sub,
        NumericOperator::Mul => Operator::Mul,
        NumericOperator::Div => Operator::Div,
    }
}

/// The sum of a date or a timestamp and an interval of so many microseconds, or the difference: a
/// timestamp so much later or earlier, and a date so many days. E7 in rows where the stored type does
/// not hold it. Fails with `NoCommonKind` exactly for other operands, and for a date if the interval
/// has no whole days.
pub fn shift(
    alloc: Global,
    operator: NumericOperator,
    item: Lowered<Standard>,
    micros: i64,
) -> Result<Lowered<Standard>, Refusal>
    ensures { Makes (λ x. lowered x.tree x.operand) result
        (specs.shifted operator (lowered item.tree item.operand) micros) }
{
    let Lowered { tree, operand } = item;
    let Some(by) = moved_by(&operand, micros) else {
        return Err(Refusal::NoCommonKind(operand, Operand::Whole(PType::I64)));
    };
    let by = BoundExpression::lit(alloc, by);
    let function = ScalarFnRef::Binary(operator_of(operator));
    let tree = match vec![in alloc; tree, by] {
        Ok(trees) => call_on(alloc, function, trees)?,
        Err(_) => return Err(Refusal::Binding(VortexError::OutOfMemory)),
    };
    Ok(Lowered { tree, operand })
}

/// A timestamp next to another one, or next to a date.
fn are_instants(left: &Operand, right: &Operand) -> bool
    ensures { result ≡ specs.are_instants left.now right.now }
{
    matches!(
        (left, right),
        (
            Operand::Of(Kind::Timestamp),
            Operand::Of(Kind::Timestamp | Kind::Date)
        ) | (Operand::Of(Kind::Date), Operand::Of(Kind::Timestamp))
    )
}

/// Whether the operator on the operands says how long it is from one to the other: a timestamp is
/// taken from another one or from a date, or a date from a timestamp.
pub fn elapses(operator: NumericOperator, left: &Operand, right: &Operand) -> bool
    ensures { result ≡ specs.elapses operator left.now right.now }
{
    match operator {
        NumericOperator::Sub => are_instants(left, right),
        _ => false,
    }
}

/// The microseconds from one timestamp to a later one, below zero to an earlier one; a date is its
/// midnight. E7 in rows where 64 bits do not hold them.
pub fn elapsed(
    alloc: Global,
    later: Lowered<Standard>,
    earlier: Lowered<Standard>,
) -> Result<BoundExpression<Standard>, Refusal>
    ensures { Makes (λ t. t) result (specs.elapsed (lowered later.tree later.operand)
        (lowered earlier.tree earlier.operand)) }
{
    let of_later = conversion_beside(&later.operand, &earlier.operand);
    let of_earlier = conversion_beside(&earlier.operand, &later.operand);
    let later = converted(alloc, of_later, later)?;
    let earlier = converted(alloc, of_earlier, earlier)?;
    let function = ScalarFnRef::Binary(operator_of(NumericOperator::Sub));
    match vec![in alloc; later.tree, earlier.tree] {
        Ok(trees) => call_on(alloc, function, trees),
        Err(_) => Err(Refusal::Binding(VortexError::OutOfMemory)),
    }
}
