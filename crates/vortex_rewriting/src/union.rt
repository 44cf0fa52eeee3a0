//! The union of the children's validities: a tree that is true where no child is null.
ghost use Rattle.std.specs.Prelude.{◌≡◌, IfOk, Some, false, map, true};
ghost use Rattle.vortex_types.specs.LogicalTypes.{bool_type};
ghost use Rattle.vortex_operators.specs.declared.operators.Operator.TheVariants.{And};
ghost use Rattle.vortex_interface.specs.ComparisonTrees.{operated};
ghost use Rattle.vortex_interface.specs.ValidityRules.{null_tests, one_round, all_of};
ghost use Rattle.vortex_interface.specs.ValidityRules.{union_child_validities};
ghost use Rattle.vortex_functions.specs.Words.{trees_of, children_of, tree_type};
ghost use Rattle.vortex_functions.specs.Words.{AnswersUnlessMemory};
ghost use Rattle.vortex_rewriting.specs.Union.{AreTruths, pairs_of, joined_last};
ghost use Rattle.vortex_rewriting.specs.Contexts.{tree_by, with_tree};

use crate::boolean::truth_node;
use crate::making::call_on_two;
use crate::node::ReduceTree;
use crate::null_tests::{NullTest, tested};
use std::alloc::Global;
use vortex_columns::{Nullability, VortexResult};
use vortex_functions::ScalarFnRef;
use vortex_interface::ScalarFnVTable;
use vortex_operators::Operator;

/// The null tests of the nullable children, in order.
fn null_tests<C: ScalarFnVTable, T: ReduceTree<C>>(alloc: Global, node: &T) -> VortexResult<Vec<T>>
    ensures answer { AnswersUnlessMemory result (λ tests. map (tree_by T.seen) tests.items
        ≡ null_tests C.meaning (trees_of (children_of (T.seen node.now).tree))) }
    ensures truths { IfOk result
        (λ tests. AreTruths C.meaning T.seen (T.seen node.now).context tests.items) }
{
    let mut tests = Vec::new(alloc);
    for index in 0..node.child_count() {
        let child = node.child(alloc, index)?;
        if child.node_dtype().is_nullable() {
            tests.push(tested(alloc, NullTest::IsNotNull, child)?)?;
        }
    }
    Ok(tests)
}

/// Neighbours joined by And, paired from the left; an odd last one is left out.
fn pairs_of<C: ScalarFnVTable, T: ReduceTree<C>>(
    alloc: Global,
    node: &T,
    tests: &[T],
) -> VortexResult<Vec<T>>
    requires { AreTruths C.meaning T.seen (T.seen node.now).context tests.now }
    ensures answer { AnswersUnlessMemory result (λ joined. map (tree_by T.seen) joined.items
        ≡ pairs_of (map (tree_by T.seen) tests.now)) }
    ensures truths { IfOk result
        (λ joined. AreTruths C.meaning T.seen (T.seen node.now).context joined.items) }
{
    let mut joined = Vec::new(alloc);
    for pair in 0..tests.len() / 2 {
        let at = 2 * pair;
        let and = ScalarFnRef::Binary(Operator::And);
        joined.push(node.new_node(alloc, and, &tests[at..at + 2])?)?;
    }
    Ok(joined)
}

/// Two tests joined by And.
fn both<C: ScalarFnVTable, T: ReduceTree<C>>(alloc: Global, left: T, right: T) -> VortexResult<T>
    requires left_truth { tree_type C.meaning (T.seen left).tree ≡ Some (bool_type false) }
    requires right_truth { tree_type C.meaning (T.seen right).tree ≡ Some (bool_type false) }
    requires same_context { (T.seen left).context ≡ (T.seen right).context }
    ensures { AnswersUnlessMemory result (λ made. T.seen made
        ≡ with_tree (T.seen left) (operated And (T.seen left).tree (T.seen right).tree)) }
{
    call_on_two(alloc, ScalarFnRef::Binary(Operator::And), left, right)
}

/// One more test, as the right operand with the last joined one; or alone if there is none.
fn join_last<C: ScalarFnVTable, T: ReduceTree<C>>(
    alloc: Global,
    node: &T,
    mut joined: Vec<T>,
    last: T,
) -> VortexResult<Vec<T>>
    requires truths { AreTruths C.meaning T.seen (T.seen node.now).context joined.items }
    requires truth { tree_type C.meaning (T.seen last).tree ≡ Some (bool_type false) }
    requires same_context { (T.seen last).context ≡ (T.seen node.now).context }
    ensures answer { AnswersUnlessMemory result (λ all. map (tree_by T.seen) all.items
        ≡ joined_last (map (tree_by T.seen) joined.items) (T.seen last).tree) }
    ensures truths { IfOk result
        (λ all. AreTruths C.meaning T.seen (T.seen node.now).context all.items) }
{
    let right = match joined.pop() {
        Some(left) => both(alloc, left, last)?,
        None => last,
    };
    joined.push(right)?;
    Ok(joined)
}

/// One round: neighbours are paired from the left, and an odd last test is joined, as the right
/// operand, to the last pair.
fn one_round<C: ScalarFnVTable, T: ReduceTree<C>>(
    alloc: Global,
    node: &T,
    mut tests: Vec<T>,
) -> VortexResult<Vec<T>>
    requires { AreTruths C.meaning T.seen (T.seen node.now).context tests.items }
    ensures answer { AnswersUnlessMemory result (λ joined. map (tree_by T.seen) joined.items
        ≡ one_round (map (tree_by T.seen) tests.items)) }
    ensures truths { IfOk result
        (λ joined. AreTruths C.meaning T.seen (T.seen node.now).context joined.items) }
{
    if tests.len() % 2 == 0 {
        return pairs_of(alloc, node, &tests);
    }
    match tests.pop() {
        Some(last) => {
            let joined = pairs_of(alloc, node, &tests)?;
            join_last(alloc, node, joined, last)
        }
        None => Ok(tests),
    }
}

/// The tests joined by And in rounds until one is left; true if there is none.
fn all_of<C: ScalarFnVTable, T: ReduceTree<C>>(
    alloc: Global,
    node: &T,
    mut tests: Vec<T>,
) -> VortexResult<T>
    requires { AreTruths C.meaning T.seen (T.seen node.now).context tests.items }
    ensures { AnswersUnlessMemory result (λ made. T.seen made
        ≡ with_tree (T.seen node.now) (all_of (map (tree_by T.seen) tests.items))) }
{
    while tests.len() > 1 {
        tests = one_round(alloc, node, tests)?;
    }
    match tests.pop() {
        Some(test) => Ok(test),
        None => truth_node(alloc, node, Nullability::NonNullable, true),
    }
}

/// A node that is true in each row where no child of the node is null: the null tests of the
/// nullable children, joined by And. The constant true if no child is nullable. E9 where an
/// allocation fails.
pub fn union_child_validities<C: ScalarFnVTable, T: ReduceTree<C>>(
    alloc: Global,
    node: &T,
) -> VortexResult<T>
    ensures { AnswersUnlessMemory result (λ made. T.seen made ≡ with_tree (T.seen node.now)
        (union_child_validities C.meaning (trees_of (children_of (T.seen node.now).tree)))) }
{
    let tests = null_tests(alloc, node)?;
    all_of(alloc, node, tests)
}
