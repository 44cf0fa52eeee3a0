//! Texts to bound expressions.
ghost use Rattle.std.specs.Prelude.{◌≡◌, IfOk, IfErr};
ghost use Rattle.vortex_types.specs.TypeOf.{struct_fields};
ghost use Rattle.vortex_syntax.specs.Refusals.{TreeStopsAt};
ghost use Rattle.vortex_expressions.specs.declared.refusal.Refusal.{Refusal};
ghost use Rattle.vortex_expressions.specs.Items.{Tree};
ghost use Rattle.vortex_expressions.specs.Binding as specs;
ghost use Rattle.vortex_expressions.specs.Binding.{Expresses, IsRefused, logical_in};
ghost use Rattle.vortex_expressions.specs.Binding.{ExpressesLogical, IsRefusedLogical};
ghost use Rattle.vortex_expressions.specs.Reading.{ReadUnlessMemory, RefusesAs, Bound};
ghost use Rattle.vortex_expressions.specs.Reading.{TellsWhy, BoundLogical};

use crate::binder::{bind, bind_logical};
use crate::error::TextError;
use crate::item::LogicalTree;
use crate::messages::unread;
use std::alloc::Global;
use vortex_columns::StructFields;
use vortex_functions::BoundExpression;
use vortex_logical::kind::Kind;
use vortex_standard::Standard;
use vortex_syntax::{SyntaxTree, read_syntax};

/// The tree that the steps of a text leave, or why they leave none.
pub(crate) fn bind_steps(
    alloc: Global,
    scope: &StructFields,
    text: &str,
    tree: &SyntaxTree<'_>,
) -> Result<BoundExpression<Standard>, TextError>
    ensures { Bound (struct_fields scope.now) tree.now.steps.items result }
{
    match bind(alloc, scope, &tree.steps) {
        Ok(bound) => Ok(bound),
        Err(stopped) => Err(stopped.told(alloc, scope, &[], text, tree)),
    }
}

/// The tree that the steps of a text leave over columns with kinds, or why they leave none.
pub(crate) fn bind_logical_steps(
    alloc: Global,
    scope: &StructFields,
    kinds: &[Kind],
    text: &str,
    tree: &SyntaxTree<'_>,
) -> Result<LogicalTree, TextError>
    ensures { BoundLogical (struct_fields scope.now) kinds.now tree.now.steps.items result }
{
    match bind_logical(alloc, scope, kinds, &tree.steps) {
        Ok(bound) => Ok(bound),
        Err(stopped) => Err(stopped.told(alloc, scope, kinds, text, tree)),
    }
}

/// Reads an expression over the columns of a scope whose values are of these kinds, by place; further
/// columns are plain: `price * 3 > 12.5 and day < '2024-03-01'` over a decimal and a date. Ok
/// exactly if the text is one: the tree that it means, over the stored columns, and the kind of its
/// values.
pub fn read_logical(
    alloc: Global,
    scope: &StructFields,
    kinds: &[Kind],
    text: &str,
) -> Result<LogicalTree, TextError>
    // The result is the meaning of the text.
    ensures found { IfOk result
        (λ t. ExpressesLogical (struct_fields scope.now) kinds.now text.now (logical_in t)) }
    // The meaning of the text is returned.
    ensures only { (t : specs.LogicalTree)
        → ExpressesLogical (struct_fields scope.now) kinds.now text.now t
        → ReadUnlessMemory result (λ x. logical_in x ≡ t) }
    // An error of the text is returned.
    ensures refused { (r : Refusal)
        → IsRefusedLogical (struct_fields scope.now) kinds.now text.now r
        → RefusesAs r result }
    // Why there is no result, and at which byte of a text that is no expression.
    ensures told { IfErr result (TellsWhy TreeStopsAt
        (IsRefusedLogical (struct_fields scope.now) kinds.now text.now) text.now) }
{
    match read_syntax(alloc, text.as_bytes()) {
        Ok(tree) => bind_logical_steps(alloc, scope, kinds, text, &tree),
        Err(error) => Err(unread(alloc, text, error)),
    }
}

/// Reads an expression over the columns of a scope, as `price * stock > 100`; `docs/EXPRESSIONS.md`
/// has the language. Ok exactly if the text is one: the tree that it means.
pub fn read_expression(
    alloc: Global,
    scope: &StructFields,
    text: &str,
) -> Result<BoundExpression<Standard>, TextError>
    // The result is the meaning of the text.
    ensures found { IfOk result (λ tree. Expresses (struct_fields scope.now) text.now tree) }
    // The meaning of the text is returned.
    ensures only { (tree : Tree) → Expresses (struct_fields scope.now) text.now tree
        → ReadUnlessMemory result (λ t. t ≡ tree) }
    // An error of the text is returned.
    ensures refused { (r : Refusal) → IsRefused (struct_fields scope.now) text.now r
        → RefusesAs r result }
    // Why there is no result, and at which byte of a text that is no expression.
    ensures told { IfErr result
        (TellsWhy TreeStopsAt (IsRefused (struct_fields scope.now) text.now) text.now) }
{
    match read_syntax(alloc, text.as_bytes()) {
        Ok(tree) => bind_steps(alloc, scope, text, &tree),
        Err(error) => Err(unread(alloc, text, error)),
    }
}
