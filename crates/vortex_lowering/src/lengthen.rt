//! Numbers with more digits after the point.
ghost use Rattle.std.specs.Prelude.{◌≡◌, ◌≤◌, ◌<◌, ◌^◌, ◌∷◌, [], None, pos, option_and_then};
ghost use Rattle.vortex_errors.specs.Answers.{Answers};
ghost use Rattle.vortex_types.specs.TypeOf.{type_of};
ghost use Rattle.vortex_interface.specs.Shipped.{Binary};
ghost use Rattle.vortex_functions.specs.Words.{AnswersBinding, ours, tree_type};
ghost use Rattle.vortex_lowering.specs.Rows.{lowered};
ghost use Rattle.vortex_lowering.specs.LoweredTrees.{is_wide, wide_number, longer_number};
ghost use Rattle.vortex_lowering.specs.LoweredTrees.{constant_number, lengthened_tree};
ghost use Rattle.vortex_lowering.specs.LoweredTrees.{tree_at_scale};

use crate::operand::Lowered;
use crate::scale::lacking;
use std::alloc::Global;
use vortex_columns::{DType, PType, Scalar, VortexResult};
use vortex_functions::{BoundExpression, ScalarFnRef};
use vortex_interface::ScalarFnVTable;
use vortex_operators::Operator;

/// 10 to the power `k`.
#[tactic(auto, using(crate::proofs::Powers::ten_fits))]
fn power(k: u32) -> i64
    requires { k ≤ 18 }
    ensures { result ≡ pos (10 ^ k) }
{
    10i64.pow(k)
}

/// The number with more digits after the point, if 64 bits hold it.
fn longer_number(number: i64, more: u32) -> Option<i64>
    requires few { more ≤ 18 }
    requires some { 0 < more }
    ensures { result ≡ longer_number more number }
{
    number.checked_mul(power(more))
}

/// Whether the type is `i64`, with null or without.
fn is_wide(dtype: &DType) -> bool
    ensures { result ≡ is_wide (type_of dtype.now) }
{
    matches!(dtype, DType::Primitive(PType::I64, _))
}

/// The number of a scalar of `i64`, if it is not null.
fn wide_number(scalar: &Scalar) -> Option<i64>
    ensures { result ≡ wide_number scalar.now }
{
    if !is_wide(scalar.dtype()) {
        return None;
    }
    let number = scalar.as_int_opt()?;
    Some(number as i64)
}

/// The number of a constant of `i64`, if it is one and not null.
fn constant_number<C: ScalarFnVTable>(tree: &BoundExpression<C>) -> Option<i64>
    ensures { result ≡ constant_number tree.now }
{
    wide_number(tree.as_literal()?)
}

/// The same with more digits after the point, if 64 bits hold it.
fn longer_constant<C: ScalarFnVTable>(tree: &BoundExpression<C>, more: u32) -> Option<i64>
    requires few { more ≤ 18 }
    requires some { 0 < more }
    ensures { result ≡ option_and_then (longer_number more) (constant_number tree.now) }
{
    longer_number(constant_number(tree)?, more)
}

/// The call of an operator on two trees.
pub(crate) fn operated<C: ScalarFnVTable>(
    alloc: Global,
    operator: Operator,
    left: BoundExpression<C>,
    right: BoundExpression<C>,
) -> VortexResult<BoundExpression<C>>
    ensures { AnswersBinding C.meaning (ours (Binary operator)) (left ∷ right ∷ []) result }
{
    BoundExpression::try_new(
        alloc,
        ScalarFnRef::Binary(operator),
        vec![in alloc; left, right]?,
    )
}

/// The tree with more digits after the point of each number: a constant at once, others by a
/// product, which is E7 in rows where 64 bits do not hold it. E3 where the product has no type: the
/// tree is not of `i64`.
pub(crate) fn lengthened<C: ScalarFnVTable>(
    alloc: Global,
    more: u32,
    tree: BoundExpression<C>,
) -> VortexResult<BoundExpression<C>>
    requires { more ≤ 18 }
    ensures { Answers result (λ longer. longer ≡ lengthened_tree more tree)
        (λ e. tree_type C.meaning (lengthened_tree more tree) ≡ None) }
{
    if more == 0 {
        return Ok(tree);
    }
    if let Some(number) = longer_constant(&tree, more) {
        return Ok(BoundExpression::lit(alloc, Scalar::from(number)));
    }
    let factor = BoundExpression::lit(alloc, Scalar::from(power(more)));
    operated(alloc, Operator::Mul, tree, factor)
}

/// The tree of an operand with the digits that it lacks at a scale.
pub(crate) fn at_scale<C: ScalarFnVTable>(
    alloc: Global,
    scale: u32,
    item: Lowered<C>,
) -> VortexResult<BoundExpression<C>>
    requires { scale ≤ 18 }
    ensures { Answers result
        (λ tree. tree ≡ tree_at_scale scale (lowered item.tree item.operand))
        (λ e. tree_type C.meaning (tree_at_scale scale (lowered item.tree item.operand)) ≡ None) }
{
    let Lowered { tree, operand } = item;
    lengthened(alloc, lacking(scale, &operand), tree)
}
