//! The leaves of expressions, as rules see them. Expressions are rewritten by Simplify and by
//! Reduce.
ghost use Rattle.std.specs.Prelude.{refl};
ghost use Rattle.vortex_rewriting.specs.Rules.{expression_rule, expression_sound};
ghost use Rattle.vortex_rewriting.specs.Rules.{expression_lightens};

use crate::leaf::{RewriteLeaf, RuleLeaf};
use crate::reduce::ReduceExpression;
use crate::rule::{Rule, reduce_tree};
use crate::rules::ScalarFnRules;
use std::alloc::Global;
use vortex_columns::{Scalar, VortexResult};
use vortex_functions::BoundExpression;
use vortex_functions::expression::ExpressionLeaf;
use vortex_interface::ScalarFnVTable;

impl<C: ScalarFnVTable> RuleLeaf<C> for ExpressionLeaf {
    fn as_constant(tree: &BoundExpression<C>) -> Option<&Scalar> {
        tree.as_literal()
    }

    fn new_constant(
        alloc: Global,
        scalar: Scalar,
        _context: (),
    ) -> VortexResult<BoundExpression<C>> {
        Ok(BoundExpression::lit(alloc, scalar))
    }

    /// A place in a scope holds no column, so its validity is no tree.
    fn leaf_validity(
        _alloc: Global,
        tree: &BoundExpression<C>,
    ) -> VortexResult<Option<BoundExpression<C>>> {
        let _leaf = tree.as_column();
        Ok(None)
    }
}

impl<C: ScalarFnRules> RewriteLeaf<C> for ExpressionLeaf {
    ghost applied = { expression_rule C.meaning C.rules };

    fn apply(
        alloc: Global,
        tree: &BoundExpression<C>,
        rule: Rule,
    ) -> VortexResult<Option<BoundExpression<C>>> {
        let Some(function) = tree.as_scalar() else {
            return Ok(None);
        };
        match rule {
            Rule::Simplify => function.simplify_expression(alloc, tree),
            Rule::Reduce => reduce_tree(alloc, function, tree),
        }
    }

    ghost rule_is = { refl };

    ghost sound = { expression_sound C.meaning C.rules C.ScalarFnVTable.lawful
        C.ScalarFnRules.rules_lawful };

    ghost lightens = { expression_lightens C.meaning C.rules C.ScalarFnVTable.lawful };
}
