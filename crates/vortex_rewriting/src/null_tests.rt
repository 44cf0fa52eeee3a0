//! The rules of the null tests: the child need not be computed if it is never null, if its
//! validity is a tree, or if it is And or Or with one operand that can be null.
ghost use Rattle.std.specs.Prelude.{◌≡◌, IfOk, IsSome, IsTrue, Some, false};
ghost use Rattle.std.specs.Option.{option_map};
ghost use Rattle.vortex_types.specs.LogicalTypes.{bool_type};
ghost use Rattle.vortex_operators.specs.Operators.{is_boolean};
ghost use Rattle.vortex_interface.specs.ComparisonTrees.{operated};
ghost use Rattle.vortex_interface.specs.ReduceRules.{by_nullability};
ghost use Rattle.vortex_functions.specs.Words.{ours, called, tree_type, AnswersUnlessMemory};
ghost use Rattle.vortex_rewriting.specs.NullTests.{test_function, of_no_null, joined_by};
ghost use Rattle.vortex_rewriting.specs.NullTests.{boolean_called, tested, by_validity};
ghost use Rattle.vortex_rewriting.specs.NullTests.{beside_test, within, within_operands};
ghost use Rattle.vortex_rewriting.specs.Contexts.{of_two, with_tree, IsMade};
ghost use Rattle.vortex_rewriting.specs.Reduced.{IsReducedBy};

use crate::making::{call_on_one, call_on_two};
use crate::node::{ReduceNodeValidity, ReduceTree};
use crate::rules::{ReduceNode, ScalarFnRules};
use std::alloc::Global;
use vortex_columns::{Nullability, Scalar, VortexResult};
use vortex_functions::ScalarFnRef;
use vortex_interface::ScalarFnVTable;
use vortex_operators::Operator;

/// One of the two null tests.
#[derive(Clone, Copy, Debug, PartialEq, Eq)]
pub enum NullTest {
    IsNull,
    IsNotNull,
}

impl NullTest {
    /// The result for a value that is not null.
    fn of_no_null(self) -> bool
        ensures { result ≡ of_no_null self }
    {
        match self {
            NullTest::IsNull => false,
            NullTest::IsNotNull => true,
        }
    }

    /// The operator that joins the test of the nullable operand of And or Or to the other operand.
    fn joined_by(self) -> Operator
        ensures { result ≡ joined_by self }
    {
        match self {
            NullTest::IsNull => Operator::And,
            NullTest::IsNotNull => Operator::Or,
        }
    }
}

/// The test of an operand, in its context.
pub(crate) fn tested<C: ScalarFnVTable, T: ReduceTree<C>>(
    alloc: Global,
    test: NullTest,
    operand: T,
) -> VortexResult<T>
    ensures answer { AnswersUnlessMemory result
        (λ made. T.seen made ≡ with_tree (T.seen operand) (tested test (T.seen operand).tree)) }
    ensures truth { IfOk result
        (λ made. tree_type C.meaning (T.seen made).tree ≡ Some (bool_type false)) }
{
    let _typed = operand.node_dtype();
    match test {
        NullTest::IsNull => call_on_one(alloc, ScalarFnRef::IsNull, operand),
        NullTest::IsNotNull => call_on_one(alloc, ScalarFnRef::IsNotNull, operand),
    }
}

/// The operator of a call of And or Or.
fn boolean_called<C: ScalarFnVTable, T: ReduceTree<C>>(node: &T) -> Option<Operator>
    ensures { result ≡ boolean_called (T.seen node.now).tree }
{
    match node.scalar_fn() {
        Some(ScalarFnRef::Binary(Operator::And)) => Some(Operator::And),
        Some(ScalarFnRef::Binary(Operator::Or)) => Some(Operator::Or),
        _ => None,
    }
}

/// The nullable operand, then the other one, if exactly one is nullable.
fn nullable_first<C: ScalarFnVTable, T: ReduceTree<C>>(left: T, right: T) -> Option<(T, T)>
    requires { (T.seen left).context ≡ (T.seen right).context }
    ensures { option_map (of_two T.seen) result ≡ option_map (of_two (with_tree (T.seen left)))
        (by_nullability C.meaning (T.seen left).tree (T.seen right).tree) }
{
    let left_nullable = left.node_dtype().is_nullable();
    let right_nullable = right.node_dtype().is_nullable();
    match (left_nullable, right_nullable) {
        (true, false) => Some((left, right)),
        (false, true) => Some((right, left)),
        _ => None,
    }
}

/// The other operand of And or Or, as it is joined to the test.
fn beside_test<C: ScalarFnVTable, T: ReduceTree<C>>(
    alloc: Global,
    test: NullTest,
    operator: Operator,
    other: T,
) -> VortexResult<T>
    requires boolean { IsTrue (is_boolean operator) }
    requires truth { tree_type C.meaning (T.seen other).tree ≡ Some (bool_type false) }
    ensures answer { AnswersUnlessMemory result (λ made. T.seen made
        ≡ with_tree (T.seen other) (beside_test test operator (T.seen other).tree)) }
    ensures truth { IfOk result
        (λ made. tree_type C.meaning (T.seen made).tree ≡ Some (bool_type false)) }
{
    match (test, operator) {
        (NullTest::IsNull, Operator::And) => Ok(other),
        (NullTest::IsNotNull, Operator::Or) => Ok(other),
        _ => call_on_one(alloc, ScalarFnRef::Not, other),
    }
}

/// The test of And or Or, from its operands.
fn within_operands<C: ScalarFnVTable, T: ReduceTree<C>>(
    alloc: Global,
    test: NullTest,
    operator: Operator,
    left: T,
    right: T,
) -> VortexResult<Option<T>>
    requires boolean { IsTrue (is_boolean operator) }
    requires typed { IsSome
        (tree_type C.meaning (operated operator (T.seen left).tree (T.seen right).tree)) }
    requires same_context { (T.seen left).context ≡ (T.seen right).context }
    ensures { AnswersUnlessMemory result (IsMade (T.seen left) T.seen
        (within_operands C.meaning test operator (T.seen left).tree (T.seen right).tree)) }
{
    let Some((nullable, other)) = nullable_first(left, right) else {
        return Ok(None);
    };
    let tested = tested(alloc, test, nullable)?;
    let other = beside_test(alloc, test, operator, other)?;
    let function = ScalarFnRef::Binary(test.joined_by());
    let made = call_on_two(alloc, function, tested, other)?;
    Ok(Some(made))
}

/// The test of a node that is And or Or with one nullable operand.
fn within<C: ScalarFnVTable, T: ReduceTree<C>>(
    alloc: Global,
    test: NullTest,
    node: &T,
) -> VortexResult<Option<T>>
    ensures { AnswersUnlessMemory result
        (IsMade (T.seen node.now) T.seen (within C.meaning test (T.seen node.now).tree)) }
{
    let _typed = node.node_dtype();
    let Some(operator) = boolean_called(node) else {
        return Ok(None);
    };
    let left = node.child(alloc, 0)?;
    let right = node.child(alloc, 1)?;
    within_operands(alloc, test, operator, left, right)
}

/// The test, from a tree that is true where its operand is not null.
fn by_validity<C: ScalarFnVTable, T: ReduceTree<C>>(
    alloc: Global,
    test: NullTest,
    valid: T,
) -> VortexResult<T>
    requires { tree_type C.meaning (T.seen valid).tree ≡ Some (bool_type false) }
    ensures { AnswersUnlessMemory result (λ made. T.seen made
        ≡ with_tree (T.seen valid) (by_validity test (T.seen valid).tree)) }
{
    match test {
        NullTest::IsNull => call_on_one(alloc, ScalarFnRef::Not, valid),
        NullTest::IsNotNull => Ok(valid),
    }
}

/// Reduce of a null test. In order: a constant if its operand's type has no null; the operand's
/// validity, negated for `is_null`, if it is a tree; if the operand is And or Or of `x`, which can
/// be null, and `y`, which cannot, the test of `x` joined to `y` or `not(y)`, whichever side `x`
/// was on. None otherwise. E9 where an allocation fails.
pub fn reduce_null_test<C: ScalarFnRules, T: ReduceNode<C>>(
    alloc: Global,
    test: NullTest,
    node: &T,
) -> VortexResult<Option<T>>
    requires { called (T.seen node.now).tree ≡ Some (ours (test_function test)) }
    ensures { AnswersUnlessMemory result
        (IsReducedBy C.meaning C.rules T.seen (T.seen node.now)) }
{
    let _typed = node.node_dtype();
    let operand = node.child(alloc, 0)?;
    if !operand.node_dtype().is_nullable() {
        let said = Scalar::bool(test.of_no_null(), Nullability::NonNullable);
        let made = node.new_constant(alloc, said)?;
        return Ok(Some(made));
    }
    match operand.validity(alloc)? {
        ReduceNodeValidity::Reduced(valid) => {
            let made = by_validity(alloc, test, valid)?;
            Ok(Some(made))
        }
        ReduceNodeValidity::Irreducible => within(alloc, test, &operand),
    }
}
