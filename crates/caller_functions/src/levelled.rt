//! A caller's function whose options have a text and bytes.
ghost use Rattle.std.specs.Prelude.{Some, codes};
ghost use Rattle.vortex_interface.specs.Shipped.{shipped_lawful};
ghost use Rattle.vortex_interface.specs.Shipped as shipped;
ghost use Rattle.vortex_interface.specs.ValidityRules.{default_rules};
ghost use Rattle.caller_functions.specs.LevelledRules.{levelled_meaning, levelled_rules_lawful};
ghost use Rattle.caller_functions.specs.LevelledRules.{levelled_identity};
ghost use Rattle.caller_functions.specs.LevelBytes.{level_bytes, level_read};
ghost use Rattle.vortex_errors.specs.Answers.{AnswersUnlessMemory};
ghost use Rattle.vortex_interface.specs.OptionBytes.{WritesBytes, ReadsOptions};

use std::alloc::Global;
use std::fmt;
use vortex_columns::{Arity, Column, DType, ExecutionCtx, VortexError, VortexResult};
use vortex_functions::{
    BoundExpression, ChildName, EmptyOptions, ExecutionArgs, Not, ScalarFnId, ScalarFnRef,
    ScalarFnVTable,
};
use vortex_rewriting::{ReduceNodeValidity, ReduceTree, ScalarFnRules, default_validity};

/// Options with a text, stored in one byte.
#[derive(Clone, Debug, PartialEq, Eq, Hash, Drop)]
pub struct Level {
    pub level: u8,
}

impl fmt::Display for Level {
    fn fmt<W: fmt::Write>(&self, f: &mut fmt::Formatter<W>) -> fmt::Result {
        write!(f, "level {}", self.level)
    }
}

/// A caller's Not, with options.
#[derive(Clone, Drop)]
pub struct Levelled;

impl ScalarFnVTable for Levelled {
    type Options = Level;

    ghost meaning = { levelled_meaning };

    ghost rules = { default_rules levelled_meaning };

    ghost option_bytes = { λ f level. Some (level_bytes level) };

    ghost options_read = { λ f bytes. level_read bytes };

    fn id(&self) -> ScalarFnId {
        "test.levelled"
    }

    /// One byte: the level.
    fn serialize(&self, alloc: Global, level: &Level) -> VortexResult<Option<Vec<u8>>>
        ensures { AnswersUnlessMemory result (WritesBytes (Some (level_bytes level.now))) }
    {
        let mut bytes = Vec::new(alloc);
        bytes.push(level.level)?;
        Ok(Some(bytes))
    }

    /// E8 exactly if there is not one byte; allocates nothing.
    fn deserialize(&self, _alloc: Global, bytes: &[u8]) -> VortexResult<Level>
        ensures { ReadsOptions (level_read bytes.now) result }
    {
        match bytes {
            [level] => Ok(Level { level: *level }),
            _ => Err(VortexError::BadOptions),
        }
    }

    fn arity(&self, _level: &Level) -> Arity {
        Arity::Exact(1)
    }

    fn child_name(&self, _level: &Level, _index: usize) -> ChildName {
        "input"
    }

    fn return_dtype(&self, alloc: Global, _level: &Level, types: &[DType]) -> VortexResult<DType> {
        Not.return_dtype(alloc, &EmptyOptions, types)
    }

    fn execute<A: ExecutionArgs>(
        &self,
        _level: &Level,
        args: &A,
        ctx: &mut ExecutionCtx,
    ) -> VortexResult<Column> {
        Not.execute(&EmptyOptions, args, ctx)
    }

    fn is_strict(&self, _level: &Level) -> bool {
        true
    }

    fn is_infallible(&self, _level: &Level) -> bool {
        true
    }

    fn try_clone(&self, _alloc: Global) -> VortexResult<Levelled> {
        Ok(Levelled)
    }

    fn clone_options(&self, _alloc: Global, level: &Level) -> VortexResult<Level> {
        Ok(Level { level: level.level })
    }

    ghost lawful = { shipped_lawful (codes "test.levelled") (λ _. shipped.Not) };
}

impl ScalarFnRules for Levelled {
    fn reduce<T: ReduceTree<Levelled>>(
        &self,
        _alloc: Global,
        _level: &Level,
        _node: &T,
    ) -> VortexResult<Option<T>> {
        Ok(None)
    }

    fn validity<T: ReduceTree<Levelled>>(
        &self,
        alloc: Global,
        level: &Level,
        node: &T,
    ) -> VortexResult<ReduceNodeValidity<T>> {
        let options = self.clone_options(alloc, level)?;
        let function = ScalarFnRef::custom(self.try_clone(alloc)?, options);
        default_validity(alloc, &function, node)
    }

    fn simplify(
        &self,
        _alloc: Global,
        _level: &Level,
        _expression: &BoundExpression<Levelled>,
    ) -> VortexResult<Option<BoundExpression<Levelled>>> {
        Ok(None)
    }

    ghost rules_lawful = { levelled_rules_lawful };

    ghost own_identity = { levelled_identity };
}
