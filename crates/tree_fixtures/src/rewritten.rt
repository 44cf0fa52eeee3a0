//! What rules make of expressions at their root, and trees that they are asked of.

use crate::makers::*;
use fixtures::{names, same};
use std::alloc::Global;
use std::borrow::Cow;
use vortex_columns::*;
use vortex_functions::*;
use vortex_operators::*;
use vortex_rewriting::*;

/// What a rule made of a tree, if one applied.
pub type Rewritten<C> = VortexResult<Option<Box<BoundExpression<C>>>>;

/// What Reduce makes of a node, if a rule applies.
fn reduced_node<'a, C: ScalarFnRules>(
    alloc: Global,
    node: &ExpressionReduceNode<'a, C>,
) -> VortexResult<Option<ExpressionReduceNode<'a, C>>> {
    match node.expression().as_scalar() {
        Some(function) => function.reduce_expression(alloc, node),
        None => Ok(None),
    }
}

/// What Simplify makes of an expression, if a rule applies.
fn simplified_expression<C: ScalarFnRules>(
    alloc: Global,
    expression: &BoundExpression<C>,
) -> VortexResult<Option<BoundExpression<C>>> {
    match expression.as_scalar() {
        Some(function) => function.simplify_expression(alloc, expression),
        None => Ok(None),
    }
}

/// What Reduce makes of a tree.
pub fn reduced<C: ScalarFnRules>(alloc: Global, tree: Bound<C>) -> Rewritten<C> {
    let tree = tree?;
    let node = ExpressionReduceNode::new(Cow::Borrowed(&*tree));
    match reduced_node(alloc, &node)? {
        Some(made) => Ok(Some(planted(alloc, made.into_expression(alloc))?)),
        None => Ok(None),
    }
}

/// What Simplify makes of a tree.
pub fn simplified<C: ScalarFnRules>(alloc: Global, tree: Bound<C>) -> Rewritten<C> {
    match simplified_expression(alloc, &*tree?)? {
        Some(made) => Ok(Some(planted(alloc, Ok(made))?)),
        None => Ok(None),
    }
}

/// The union of the validities of a tree's children.
pub fn united<C: ScalarFnRules>(alloc: Global, tree: Bound<C>) -> Rewritten<C> {
    let tree = tree?;
    let node = ExpressionReduceNode::new(Cow::Borrowed(&*tree));
    let made = union_child_validities(alloc, &node)?;
    Ok(Some(planted(alloc, made.into_expression(alloc))?))
}

/// Whether a rule made a tree of that text.
pub fn becomes<C: ScalarFnVTable>(
    rt: HostRuntime,
    made: Rewritten<C>,
    expected: &str,
) -> VortexResult<bool> {
    match made? {
        Some(made) => has_text(rt, &*made, expected),
        None => Ok(same(rt, "no tree", expected)),
    }
}

/// Whether no rule applies.
pub fn stays<C: ScalarFnVTable>(rt: HostRuntime, made: Rewritten<C>) -> VortexResult<bool> {
    match made? {
        Some(made) => has_text(rt, &*made, "no tree"),
        None => Ok(true),
    }
}

/// Whether a tree is null.
pub fn is_null<C: ScalarFnVTable>(alloc: Global, child: Bound<C>) -> Bound<C> {
    call_of(alloc, IsNull.bind(EmptyOptions), child)
}

/// Columns of nullable i32, by their names.
fn scope_of(alloc: Global, words: &[&str]) -> VortexResult<StructFields> {
    let mut dtypes = Vec::new(alloc);
    for _ in 0..words.len() {
        dtypes.push(DType::Primitive(PType::I32, YES))?;
    }
    StructFields::try_new(alloc, names(alloc, words)?, dtypes)
}

/// A call of a function of columns of nullable i32, by their names.
pub fn call_of_names<C: ScalarFnVTable>(
    alloc: Global,
    function: ScalarFnRef<C>,
    words: &[&str],
) -> Bound<C> {
    let scope = scope_of(alloc, words)?;
    let mut children = Vec::new(alloc);
    for word in words {
        children.push(BoundExpression::column(alloc, &scope, word)?)?;
    }
    planted(alloc, BoundExpression::try_new(alloc, function, children))
}

/// Whether `a + b = c` is null, over columns of nullable i32.
pub fn unknown_sum<C: ScalarFnVTable>(alloc: Global) -> Bound<C> {
    let scope = scope_of(alloc, &["a", "b", "c"])?;
    let third = planted(alloc, BoundExpression::column(alloc, &scope, "c"));
    let sum = call_of_names(alloc, Binary.bind(Operator::Add), &["a", "b"]);
    is_null(alloc, between(alloc, sum, Operator::Eq, third))
}
