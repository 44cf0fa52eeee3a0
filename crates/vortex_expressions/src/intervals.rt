//! Dates and timestamps that intervals move.
ghost use Rattle.vortex_lowering.specs.Rows.{lowered};
ghost use Rattle.vortex_expressions.specs.Months as calendar;
ghost use Rattle.vortex_expressions.specs.Kinded as specs;
ghost use Rattle.vortex_expressions.specs.Items.{item_in};
ghost use Rattle.vortex_expressions.specs.Answering.{Gives};
ghost use Rattle.vortex_expressions.specs.declared.item.Timespan.TheVariants.{Elapsed};

use crate::item::{Item, Timespan, call_of, callable};
use crate::kinded::value_item;
use crate::refusal::{BindStop, Refusal};
use std::alloc::Global;
use vortex_columns::Scalar;
use vortex_functions::BoundExpression;
use vortex_logical::kind::Kind;
use vortex_logical::operand::Operand;
use vortex_logical_calls as calls;
use vortex_logical_calls::{Interval, Lowered};
use vortex_standard::Standard;
use vortex_types::NumericOperator;

/// The function that adds months to values of the kind.
pub(crate) fn months_function(kind: Kind) -> Result<Standard, BindStop>
    ensures { Gives (λ f. f) result (calendar.months_function kind) }
{
    match kind {
        Kind::Date => Ok(Standard::DateAddMonths),
        Kind::Timestamp => Ok(Standard::TimestampAddMonths),
        _ => Err(BindStop::Refused(Refusal::OfKind(kind))),
    }
}

/// A date or a timestamp moved by so many months.
pub(crate) fn months_moved(
    alloc: Global,
    kind: Kind,
    tree: BoundExpression<Standard>,
    months: i64,
) -> Result<Item, BindStop>
    ensures { Gives item_in result (calendar.months_moved kind tree months) }
{
    let function = months_function(kind)?;
    let months = BoundExpression::lit(alloc, Scalar::from(months));
    let tree = call_of(alloc, callable(function), vec![in alloc; tree, months]?)?;
    Ok(Item::Kinded(kind, tree))
}

/// A date or a timestamp moved by an interval.
fn shifted_item(
    alloc: Global,
    operator: NumericOperator,
    kind: Kind,
    tree: BoundExpression<Standard>,
    micros: i64,
) -> Result<Item, BindStop>
    ensures { Gives item_in result (specs.shifted_item operator kind tree micros) }
{
    let operand = Operand::Of(kind);
    Ok(value_item(calls::shift(alloc, operator, Lowered { tree, operand }, micros)?))
}

/// The same by any interval: months are added as the calendar has them.
fn moved_item(
    alloc: Global,
    operator: NumericOperator,
    kind: Kind,
    tree: BoundExpression<Standard>,
    interval: Interval,
) -> Result<Item, BindStop>
    ensures { Gives item_in result (specs.moved_item operator kind tree interval) }
{
    match (operator, interval) {
        (operator, Interval::Micros(micros)) => shifted_item(alloc, operator, kind, tree, micros),
        (NumericOperator::Sub, Interval::Months(months)) => {
            months_moved(alloc, kind, tree, 0 - i64::from(months))
        }
        (_, Interval::Months(months)) => months_moved(alloc, kind, tree, i64::from(months)),
    }
}

/// A date or a timestamp moved by microseconds that each row may have others of; a date becomes a
/// timestamp.
fn moved_instant(
    alloc: Global,
    operator: NumericOperator,
    kind: Kind,
    tree: BoundExpression<Standard>,
    micros: BoundExpression<Standard>,
) -> Result<Item, BindStop>
    ensures { Gives item_in result (specs.moved_by_span operator kind tree (Elapsed micros)) }
{
    let operand = Operand::Of(kind);
    Ok(value_item(calls::move_instant(alloc, operator, Lowered { tree, operand }, micros)?))
}

/// A value moved by an interval, or by a difference.
pub(crate) fn moved_by_span(
    alloc: Global,
    operator: NumericOperator,
    kind: Kind,
    tree: BoundExpression<Standard>,
    timespan: Timespan,
) -> Result<Item, BindStop>
    ensures { Gives item_in result (specs.moved_by_span operator kind tree timespan) }
{
    match timespan {
        Timespan::Given(interval) => moved_item(alloc, operator, kind, tree, interval),
        Timespan::Elapsed(micros) => moved_instant(alloc, operator, kind, tree, micros),
    }
}
