//! Operators on values of kinds, on intervals, and on literal numbers with a point.
ghost use Rattle.std.specs.Prelude.{◌≡◌, option_map};
ghost use Rattle.vortex_errors.specs.Answers.{AnswersUnlessMemory};
ghost use Rattle.vortex_lowering.specs.Rows.{lowered};
ghost use Rattle.vortex_expressions.specs.Kinded as specs;
ghost use Rattle.vortex_expressions.specs.Items.{item_in};
ghost use Rattle.vortex_expressions.specs.Answering.{Gives};

use crate::folding::folded;
use crate::item::{Item, Timespan};
use crate::kinded::{is_interval, item_operand, kind_or, value_item};
use crate::quotes::text_of;
use crate::refusal::{BindStop, Refusal};
use crate::spans::spans_joined;
use std::alloc::Global;
use vortex_columns::VortexResult;
use vortex_logical::kind::Kind;
use vortex_logical_calls as calls;
use vortex_logical_calls::Lowered;
use vortex_operators::CompareOperator;
use vortex_standard::Standard;
use vortex_syntax::WrittenOperator as Written;
use vortex_types::NumericOperator;

/// What an operator does with values of kinds.
#[derive(Clone, Copy)]
pub(crate) enum KindedOperator {
    /// It compares them.
    Compares(CompareOperator),
    /// It computes with them.
    Computes(NumericOperator),
    /// Neither.
    Neither,
}

fn kinded_operator(written: Written) -> KindedOperator
    ensures { result ≡ specs.kinded_operator written }
{
    match written {
        Written::Equal => KindedOperator::Compares(CompareOperator::Eq),
        Written::NotEqual => KindedOperator::Compares(CompareOperator::NotEq),
        Written::Less => KindedOperator::Compares(CompareOperator::Lt),
        Written::LessOrEqual => KindedOperator::Compares(CompareOperator::Lte),
        Written::Greater => KindedOperator::Compares(CompareOperator::Gt),
        Written::GreaterOrEqual => KindedOperator::Compares(CompareOperator::Gte),
        Written::Add => KindedOperator::Computes(NumericOperator::Add),
        Written::Sub => KindedOperator::Computes(NumericOperator::Sub),
        Written::Mul => KindedOperator::Computes(NumericOperator::Mul),
        Written::Div => KindedOperator::Computes(NumericOperator::Div),
        _ => KindedOperator::Neither,
    }
}

pub(crate) fn compared(
    alloc: Global,
    operator: CompareOperator,
    left: Lowered<Standard>,
    right: Lowered<Standard>,
) -> Result<Item, BindStop>
    ensures { Gives item_in result (specs.compared_item operator
        (lowered left.tree left.operand) (lowered right.tree right.operand)) }
{
    Ok(Item::Bound(calls::compare(alloc, operator, left, right)?))
}

/// How long it is from one timestamp to another, or the value.
fn computed(
    alloc: Global,
    operator: NumericOperator,
    left: Lowered<Standard>,
    right: Lowered<Standard>,
) -> Result<Item, BindStop>
    ensures { Gives item_in result (specs.computed_item operator
        (lowered left.tree left.operand) (lowered right.tree right.operand)) }
{
    if calls::elapses(operator, &left.operand, &right.operand) {
        let micros = calls::elapsed(alloc, left, right)?;
        return Ok(Item::Interval(Timespan::Elapsed(micros)));
    }
    Ok(value_item(calls::compute(alloc, operator, left, right)?))
}

/// An operator on values of kinds.
fn operated(
    alloc: Global,
    kind: Kind,
    operator: KindedOperator,
    left: Lowered<Standard>,
    right: Lowered<Standard>,
) -> Result<Item, BindStop>
    ensures { Gives item_in result (specs.operated kind operator
        (lowered left.tree left.operand) (lowered right.tree right.operand)) }
{
    match operator {
        KindedOperator::Compares(operator) => compared(alloc, operator, left, right),
        KindedOperator::Computes(operator) => computed(alloc, operator, left, right),
        KindedOperator::Neither => Err(BindStop::Refused(Refusal::OfKind(kind))),
    }
}

/// An operator on items next to a value of a kind.
fn joined_beside(
    alloc: Global,
    kind: Kind,
    operator: KindedOperator,
    left: Item,
    right: Item,
) -> Result<Item, BindStop>
    ensures { Gives item_in result
        (specs.joined_beside kind operator (item_in left) (item_in right)) }
{
    let first = item_operand(alloc, &kind, left)?;
    let second = item_operand(alloc, &kind, right)?;
    operated(alloc, kind, operator, first, second)
}

/// The text of the result of two literal numbers. E9 where an allocation fails.
fn folded_by(
    alloc: Global,
    operator: KindedOperator,
    left: &Item,
    right: &Item,
) -> VortexResult<Option<Vec<u8>>>
    ensures { AnswersUnlessMemory result (λ o. option_map (λ w. w.items) o
        ≡ specs.folded_by operator (item_in left.now) (item_in right.now)) }
{
    match operator {
        KindedOperator::Computes(operator) => folded(alloc, operator, left, right),
        _ => Ok(None),
    }
}

/// An operator next to a value of a kind; two literal numbers are one.
fn values_joined(
    alloc: Global,
    operator: KindedOperator,
    left: Item,
    right: Item,
) -> Result<Item, BindStop>
    ensures { Gives item_in result
        (specs.values_joined operator (item_in left) (item_in right)) }
{
    if let Some(text) = folded_by(alloc, operator, &left, &right)? {
        return Ok(Item::Fraction(text_of(alloc, &text)?));
    }
    let other = kind_or(&right, Kind::Plain);
    let kind = kind_or(&left, other);
    joined_beside(alloc, kind, operator, left, right)
}

/// An operator, one of whose operands has a kind or is an interval.
pub(crate) fn kinded_joined(
    alloc: Global,
    written: Written,
    left: Item,
    right: Item,
) -> Result<Item, BindStop>
    ensures { Gives item_in result
        (specs.kinded_joined written (item_in left) (item_in right)) }
{
    let operator = kinded_operator(written);
    if is_interval(&left) || is_interval(&right) {
        return spans_joined(alloc, operator, left, right);
    }
    values_joined(alloc, operator, left, right)
}
