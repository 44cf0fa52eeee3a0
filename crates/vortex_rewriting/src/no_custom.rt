//! The function for a caller who has none, without rules.
ghost use Rattle.vortex_rewriting.specs.FixedRules.{fixed_rules_lawful, fixed_identity};

use crate::node::{ReduceNodeValidity, ReduceTree};
use crate::rules::ScalarFnRules;
use crate::validity::default_validity;
use std::alloc::Global;
use vortex_columns::VortexResult;
use vortex_functions::{BoundExpression, NoCustom, ScalarFnRef};
use vortex_interface::{EmptyOptions, ScalarFnVTable};

impl ScalarFnRules for NoCustom {
    fn reduce<T: ReduceTree<NoCustom>>(
        &self,
        _alloc: Global,
        _options: &EmptyOptions,
        _node: &T,
    ) -> VortexResult<Option<T>> {
        Ok(None)
    }

    fn validity<T: ReduceTree<NoCustom>>(
        &self,
        alloc: Global,
        options: &EmptyOptions,
        node: &T,
    ) -> VortexResult<ReduceNodeValidity<T>> {
        let options = self.clone_options(alloc, options)?;
        let function = ScalarFnRef::custom(self.try_clone(alloc)?, options);
        default_validity(alloc, &function, node)
    }

    fn simplify(
        &self,
        _alloc: Global,
        _options: &EmptyOptions,
        _expression: &BoundExpression<NoCustom>,
    ) -> VortexResult<Option<BoundExpression<NoCustom>>> {
        Ok(None)
    }

    ghost rules_lawful = { fixed_rules_lawful };

    ghost own_identity = { fixed_identity };
}
