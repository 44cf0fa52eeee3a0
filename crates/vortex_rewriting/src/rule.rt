//! The two rules, and the result of Reduce for a tree of either kind at its root.
ghost use Rattle.std.specs.Prelude.{◌≡◌, IfSome, Some};
ghost use Rattle.std.specs.Option.{option_map};
ghost use Rattle.vortex_functions.specs.Words.{called, function_of, AnswersUnlessMemory};
ghost use Rattle.vortex_interface.specs.ReduceRules.{reduce};

use crate::dispatch::reduce_call;
use crate::leaf::RuleLeaf;
use crate::rules::ScalarFnRules;
use crate::tree_node::{TreeReduceNode, into_tree};
use std::alloc::Global;
use std::borrow::Cow;
use vortex_columns::VortexResult;
use vortex_functions::{ScalarFnRef, Tree};

/// The rules that rewrite a tree at its root.
#[derive(Clone, Copy, Debug, PartialEq, Eq)]
pub enum Rule {
    /// Simplify of a call in an expression; an array tree has none.
    Simplify,
    /// Reduce of a call.
    Reduce,
}

/// Reduce of a call of that function. E9 where an allocation fails.
pub(crate) fn reduce_tree<C: ScalarFnRules, L: RuleLeaf<C>>(
    alloc: Global,
    function: &ScalarFnRef<C>,
    tree: &Tree<C, L>,
) -> VortexResult<Option<Tree<C, L>>>
    requires { called (L.tree_of tree.now) ≡ Some (function_of function.now) }
    ensures { AnswersUnlessMemory result (λ answer. (option_map L.tree_of answer
        ≡ reduce C.meaning C.rules (L.tree_of tree.now))
        × IfSome answer (λ made. L.context_of made ≡ L.context_of tree.now)) }
{
    let node = TreeReduceNode::new(Cow::Borrowed(tree));
    match reduce_call(alloc, function, &node)? {
        Some(made) => Ok(Some(into_tree(alloc, made)?)),
        None => Ok(None),
    }
}
