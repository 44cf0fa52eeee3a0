//! Calls of SQL's functions.
ghost use Rattle.std.specs.Prelude.{◌≡◌, map, option_map, None};
ghost use Rattle.vortex_errors.specs.Answers.{AnswersUnlessMemory};
ghost use Rattle.vortex_types.specs.TypeOf.{type_of};
ghost use Rattle.vortex_expressions.specs.Applied as specs;
ghost use Rattle.vortex_expressions.specs.Meeting as meetings;
ghost use Rattle.vortex_expressions.specs.Items.{item_in, bound_type, literals_type};
ghost use Rattle.vortex_expressions.specs.Items.{common_type};
ghost use Rattle.vortex_expressions.specs.Answering.{Gives};

use crate::arguments::{settle_alike, settle_each};
use crate::item::{Item, call_of, callable, literals_type, meeting_type, next_literal};
use crate::meeting::met_next;
use crate::refusal::BindStop;
use crate::truths::settle_truth;
use std::alloc::Global;
use vortex_columns::{DType, VortexResult};
use vortex_functions::BoundExpression;
use vortex_standard::{Standard, Takes};

/// The type in which the values of cases meet.
fn value_type(alloc: Global, items: &[Item]) -> VortexResult<Option<DType>>
    ensures { AnswersUnlessMemory result (λ t. option_map (λ t. type_of t) t
        ≡ meetings.meeting_type None (map bound_type (specs.values_of (map item_in items.now)))) }
{
    let mut met = None;
    let mut rest = items;
    while let [_condition, value, more @ ..] = rest {
        met = met_next(alloc, met, value.bound_type())?;
        rest = more;
    }
    meeting_type(alloc, met, rest)
}

/// The type of the literals among the values of cases.
fn literal_value_type(items: &[Item]) -> Option<DType>
    ensures { option_map (λ t. type_of t) result
        ≡ literals_type None (specs.values_of (map item_in items.now)) }
{
    let mut taken = None;
    let mut rest = items;
    while let [_condition, value, more @ ..] = rest {
        taken = next_literal(taken, value);
        rest = more;
    }
    literals_type(taken, rest)
}

/// The type of the values of cases.
pub(crate) fn common_value_type(alloc: Global, items: &[Item]) -> VortexResult<Option<DType>>
    ensures { AnswersUnlessMemory result (λ t. option_map (λ t. type_of t) t
        ≡ common_type (specs.values_of (map item_in items.now))) }
{
    match value_type(alloc, items)? {
        Some(dtype) => Ok(Some(dtype)),
        None => Ok(literal_value_type(items)),
    }
}

/// Cases: conditions are truth values or whole numbers, and values take that type.
fn settle_cases(
    alloc: Global,
    beside: Option<&DType>,
    items: &[Item],
) -> Result<Vec<BoundExpression<Standard>>, BindStop>
    ensures { Gives (λ ts. ts.items) result (specs.cases_settled
        (option_map (λ t. type_of t.now) beside.entry) (map item_in items.now)) }
{
    let mut trees = Vec::new(alloc);
    let mut rest = items;
    while let [condition, value, more @ ..] = rest {
        trees.push(settle_truth(alloc, condition)?)?;
        trees.push(value.settle(alloc, beside)?)?;
        rest = more;
    }
    if let [value] = rest {
        trees.push(value.settle(alloc, beside)?)?;
    }
    Ok(trees)
}

/// The arguments; those that are alike take one type.
fn settle_arguments(
    alloc: Global,
    takes: Takes,
    items: &[Item],
) -> Result<Vec<BoundExpression<Standard>>, BindStop>
    ensures { Gives (λ ts. ts.items) result
        (specs.arguments_settled takes (map item_in items.now)) }
{
    match takes {
        Takes::Alike(kind) => settle_alike(alloc, kind, items),
        Takes::Each(first, second, others) => settle_each(alloc, first, second, others, items),
        Takes::Cases => {
            let dtype = common_value_type(alloc, items)?;
            settle_cases(alloc, dtype.as_ref(), items)
        }
    }
}

/// The call on items.
pub(crate) fn function_call(
    alloc: Global,
    function: Standard,
    items: Vec<Item>,
) -> Result<BoundExpression<Standard>, BindStop>
    ensures { Gives (λ t. t) result (specs.function_call function (map item_in items.items)) }
{
    let trees = settle_arguments(alloc, function.takes(), &items)?;
    call_of(alloc, callable(function), trees)
}
