//! A value after functions, and the whole numbers among their arguments.
ghost use Rattle.std.specs.Prelude.{◌≡◌, ◌∷◌};
ghost use Rattle.vortex_expressions.specs.KindCasts as specs;
ghost use Rattle.vortex_expressions.specs.Answering.{Gives};
ghost use Rattle.vortex_expressions.specs.Outcomes.{answers};

use crate::item::{call_of, callable};
use crate::refusal::BindStop;
use std::alloc::Global;
use vortex_columns::Scalar;
use vortex_functions::BoundExpression;
use vortex_logical_casts::{More, Step, Steps};
use vortex_standard::Standard;

/// A whole number among the arguments.
fn whole_tree(alloc: Global, number: u32) -> BoundExpression<Standard>
    ensures { result ≡ specs.whole_tree number }
{
    BoundExpression::lit(alloc, Scalar::from(i64::from(number)))
}

/// A value, and the numbers behind it.
fn arguments_of(
    alloc: Global,
    tree: BoundExpression<Standard>,
    more: More,
) -> Result<Vec<BoundExpression<Standard>>, BindStop>
    ensures { Gives (λ ts. ts.items) result (answers (tree ∷ specs.more_trees more)) }
{
    match more {
        More::Nothing => Ok(vec![in alloc; tree]?),
        More::One(number) => Ok(vec![in alloc; tree, whole_tree(alloc, number)]?),
        More::Two(first, second) => {
            Ok(vec![in alloc; tree, whole_tree(alloc, first), whole_tree(alloc, second)]?)
        }
    }
}

/// The function of a step on a value, and the numbers behind it.
pub(crate) fn step_on(
    alloc: Global,
    step: Step,
    tree: BoundExpression<Standard>,
) -> Result<BoundExpression<Standard>, BindStop>
    ensures { Gives (λ t. t) result (specs.step_on step tree) }
{
    let trees = arguments_of(alloc, tree, step.more)?;
    call_of(alloc, callable(step.function), trees)
}

/// A value after functions, the first one first.
pub(crate) fn stepped(
    alloc: Global,
    steps: Steps,
    tree: BoundExpression<Standard>,
) -> Result<BoundExpression<Standard>, BindStop>
    ensures { Gives (λ t. t) result (specs.stepped steps tree) }
{
    match steps {
        Steps::One(step) => step_on(alloc, step, tree),
        Steps::Two(first, second) => {
            let between = step_on(alloc, first, tree)?;
            step_on(alloc, second, between)
        }
    }
}
