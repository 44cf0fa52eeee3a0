//! Operators on intervals and on how long it is from one timestamp to another.
ghost use Rattle.std.specs.Prelude.{◌≡◌};
ghost use Rattle.vortex_interface.specs.Eval.{tree_type};
ghost use Rattle.vortex_lowering.specs.Rows.{lowered};
ghost use Rattle.vortex_expressions.specs.Kinded as specs;
ghost use Rattle.vortex_expressions.specs.Items.{interval, item_in, meaning};
ghost use Rattle.vortex_expressions.specs.Literals.{literal_in};
ghost use Rattle.vortex_expressions.specs.Answering.{Gives};

use crate::intervals::moved_by_span;
use crate::item::{Item, Timespan};
use crate::kind_operators::{KindedOperator, compared};
use crate::kinded::{plain_operand, whole_literal};
use crate::literal::Literal;
use crate::refusal::{BindStop, Refusal};
use std::alloc::Global;
use vortex_columns::{PType, Scalar};
use vortex_functions::BoundExpression;
use vortex_logical::operand::Operand;
use vortex_logical_calls as calls;
use vortex_logical_calls::{Interval, Lowered};
use vortex_operators::CompareOperator;
use vortex_standard::Standard;
use vortex_types::NumericOperator;

/// How long it is, in microseconds; an interval of months has none.
fn span_operand(alloc: Global, item: Item) -> Result<Lowered<Standard>, BindStop>
    ensures { Gives (λ x. lowered x.tree x.operand) result (specs.span_operand (item_in item)) }
{
    let operand = Operand::Whole(PType::I64);
    match item {
        Item::Interval(Timespan::Given(Interval::Micros(micros))) => {
            let tree = BoundExpression::lit(alloc, Scalar::from(micros));
            Ok(Lowered { tree, operand })
        }
        Item::Interval(Timespan::Elapsed(tree)) => Ok(Lowered { tree, operand }),
        _ => Err(BindStop::Refused(Refusal::NotHeld)),
    }
}

/// Which of two is longer.
fn spans_compared(
    alloc: Global,
    operator: CompareOperator,
    left: Item,
    right: Item,
) -> Result<Item, BindStop>
    ensures { Gives item_in result
        (specs.spans_compared operator (item_in left) (item_in right)) }
{
    let first = span_operand(alloc, left)?;
    let second = span_operand(alloc, right)?;
    compared(alloc, operator, first, second)
}

/// The sum or the difference of two.
fn spans_added(
    alloc: Global,
    operator: NumericOperator,
    left: Timespan,
    right: Timespan,
) -> Result<Item, BindStop>
    ensures { Gives item_in result
        (specs.spans_added operator (interval left) (interval right)) }
{
    let first = span_operand(alloc, Item::Interval(left))?;
    let second = span_operand(alloc, Item::Interval(right))?;
    let micros = calls::compute_spans(alloc, operator, first.tree, second.tree)?;
    Ok(Item::Interval(Timespan::Elapsed(micros)))
}

/// A whole number, which says how many times.
fn whole_count(tree: BoundExpression<Standard>) -> Result<Lowered<Standard>, BindStop>
    ensures { Gives (λ x. lowered x.tree x.operand) result
        (specs.whole_count (specs.plain_operand (tree_type meaning tree)) tree) }
{
    let operand = plain_operand(tree.dtype());
    match operand {
        Operand::Whole(_) => Ok(Lowered { tree, operand }),
        Operand::Of(_) => Err(BindStop::Refused(Refusal::NotHeld)),
    }
}

/// A literal number without a point, which says how many times.
fn literal_count(alloc: Global, literal: &Literal) -> Result<Lowered<Standard>, BindStop>
    ensures { Gives (λ x. lowered x.tree x.operand) result
        (specs.literal_count (literal_in literal.now)) }
{
    match literal {
        Literal::Number(_) => whole_literal(alloc, PType::I64, literal),
        Literal::Text(_) => Err(BindStop::Refused(Refusal::NotHeld)),
        Literal::Truth(_) => Err(BindStop::Refused(Refusal::NotHeld)),
        Literal::Null => Err(BindStop::Refused(Refusal::NotHeld)),
    }
}

/// How many times.
fn count_of(alloc: Global, item: Item) -> Result<Lowered<Standard>, BindStop>
    ensures { Gives (λ x. lowered x.tree x.operand) result (specs.count_of (item_in item)) }
{
    match item {
        Item::Literal(literal) => literal_count(alloc, &literal),
        Item::Bound(tree) => whole_count(tree),
        Item::Kinded(_, _) => Err(BindStop::Refused(Refusal::NotHeld)),
        Item::Fraction(_) => Err(BindStop::Refused(Refusal::NotHeld)),
        Item::Interval(_) => Err(BindStop::Refused(Refusal::NotHeld)),
    }
}

/// So many times as long.
fn multiplied(alloc: Global, item: Item, timespan: Timespan) -> Result<Item, BindStop>
    ensures { Gives item_in result (specs.multiplied (item_in item) timespan) }
{
    let count = count_of(alloc, item)?;
    let count = calls::counted(alloc, count)?;
    let micros = span_operand(alloc, Item::Interval(timespan))?;
    let micros = calls::compute_spans(alloc, NumericOperator::Mul, count.tree, micros.tree)?;
    Ok(Item::Interval(Timespan::Elapsed(micros)))
}

/// A date or a timestamp moved by an interval, or the sum or the difference of two intervals.
fn moved_or_added(
    alloc: Global,
    operator: NumericOperator,
    item: Item,
    timespan: Timespan,
) -> Result<Item, BindStop>
    ensures { Gives item_in result (specs.moved_or_added operator (item_in item) timespan) }
{
    match item {
        Item::Kinded(kind, tree) => moved_by_span(alloc, operator, kind, tree, timespan),
        Item::Interval(other) => spans_added(alloc, operator, other, timespan),
        Item::Literal(_) => Err(BindStop::Refused(Refusal::NotHeld)),
        Item::Bound(_) => Err(BindStop::Refused(Refusal::NotHeld)),
        Item::Fraction(_) => Err(BindStop::Refused(Refusal::NotHeld)),
    }
}

/// The sum of two, one of which is an interval.
fn added_items(alloc: Global, left: Item, right: Item) -> Result<Item, BindStop>
    ensures { Gives item_in result (specs.added_items (item_in left) (item_in right)) }
{
    match (left, right) {
        (left, Item::Interval(timespan)) => {
            moved_or_added(alloc, NumericOperator::Add, left, timespan)
        }
        (Item::Interval(timespan), right) => {
            moved_or_added(alloc, NumericOperator::Add, right, timespan)
        }
        _ => Err(BindStop::Refused(Refusal::NotHeld)),
    }
}

/// The difference of two, the second of which is an interval.
fn taken_items(alloc: Global, left: Item, right: Item) -> Result<Item, BindStop>
    ensures { Gives item_in result (specs.taken_items (item_in left) (item_in right)) }
{
    match right {
        Item::Interval(timespan) => moved_or_added(alloc, NumericOperator::Sub, left, timespan),
        _ => Err(BindStop::Refused(Refusal::NotHeld)),
    }
}

/// The product of two, one of which is an interval.
fn multiplied_items(alloc: Global, left: Item, right: Item) -> Result<Item, BindStop>
    ensures { Gives item_in result (specs.multiplied_items (item_in left) (item_in right)) }
{
    match (left, right) {
        (left, Item::Interval(timespan)) => multiplied(alloc, left, timespan),
        (Item::Interval(timespan), right) => multiplied(alloc, right, timespan),
        _ => Err(BindStop::Refused(Refusal::NotHeld)),
    }
}

/// An interval is added to a date, a timestamp or another interval, taken from one, or multiplied by
/// a whole number.
fn moved_items(
    alloc: Global,
    operator: NumericOperator,
    left: Item,
    right: Item,
) -> Result<Item, BindStop>
    ensures { Gives item_in result (specs.moved_items operator (item_in left) (item_in right)) }
{
    match operator {
        NumericOperator::Add => added_items(alloc, left, right),
        NumericOperator::Sub => taken_items(alloc, left, right),
        NumericOperator::Mul => multiplied_items(alloc, left, right),
        NumericOperator::Div => Err(BindStop::Refused(Refusal::NotHeld)),
    }
}

/// An operator, one of whose operands is an interval: it moves a date or a timestamp, or is compared
/// with another, or with how long it is from one timestamp to another.
pub(crate) fn spans_joined(
    alloc: Global,
    operator: KindedOperator,
    left: Item,
    right: Item,
) -> Result<Item, BindStop>
    ensures { Gives item_in result
        (specs.spans_joined operator (item_in left) (item_in right)) }
{
    match operator {
        KindedOperator::Compares(operator) => spans_compared(alloc, operator, left, right),
        KindedOperator::Computes(operator) => moved_items(alloc, operator, left, right),
        KindedOperator::Neither => Err(BindStop::Refused(Refusal::NotHeld)),
    }
}
