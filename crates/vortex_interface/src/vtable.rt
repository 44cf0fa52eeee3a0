//! The interface of a row function.
ghost use Rattle.std.specs.Prelude.{◌≡◌, ℕ, List, length, map, IsTrue, IsSome, IfOk, MatchResult};
ghost use Rattle.std.specs.Prelude.{slice_get, Option, Some, None};
ghost use Rattle.vortex_interface.specs.Words.{ColumnView, Meaning, Lawful, Rules, fits, types_in};
ghost use Rattle.vortex_interface.specs.Words.{AnswersUnlessMemory, AnswersType, AnswersCall};
ghost use Rattle.vortex_interface.specs.Words.{PastInputs, MayWriteBytes, MayReadOptions};
ghost use Rattle.vortex_interface.specs.Words.{Parts, IsDefaultOrOwn, WritesPart, AppendsCall};

use crate::printing::{argument_text, write_opening, write_options};
use std::alloc::Global;
use std::fmt::{Debug, Display};
use std::hash::Hash;
use vortex_columns::{
    Arity, Column, DType, ExecutionCtx, VortexError, VortexResult, write_separator,
};

/// A function's identity, as `vortex.binary`.
pub type ScalarFnId = &'static str;

/// The name of an argument, as `lhs`.
pub type ChildName = &'static str;

/// The inputs of a call: columns of one length.
pub trait ExecutionArgs {
    ghost inputs: { Self → List ColumnView };

    ghost rows: { Self → ℕ };

    /// The input of that index, borrowed. E1 exactly for indices from `num_inputs` on; allocates
    /// nothing.
    fn get(&self, index: usize) -> VortexResult<&Column>
        ensures input { MatchResult result
            (λ c. slice_get (inputs self.now) index ≡ Some c.now)
            (PastInputs (inputs self.now) index) }
        ensures count { IfOk result (λ c. length c.now.rows ≡ rows self.now) };

    /// How many inputs there are.
    fn num_inputs(&self) -> usize
        ensures { result ≡ length (inputs self.now) };

    /// How many rows each input has.
    fn row_count(&self) -> usize
        ensures { result ≡ rows self.now };
}

/// A function of rows, with its own type of options.
///
/// Its meaning is a ghost member: the row meaning of argument types and values, its return type,
/// arity, names and marks. The calls return what the member says, and the member is lawful.
/// Further members are the bytes of its options and the text of its calls. Without these there
/// are no bytes, and the text is the default.
pub trait ScalarFnVTable: Sized + Clone + Drop {
    type Options: Clone + Debug + Display + Eq + Hash + Drop;

    ghost meaning: { Meaning Self Self.Options };

    /// The rules for calls of the function. `ScalarFnRules` above has the calls that return them;
    /// they are here since the mark of a tree to which no rule applies needs them.
    ghost rules: { Rules Self Self.Options };

    /// The bytes of options, if the function writes them.
    ghost option_bytes: { Self → Self.Options → Option (List ℕ) } = { λ _ _. None };

    /// The options that bytes are read as, if there are any.
    ghost options_read: { Self → List ℕ → Option Self.Options } = { λ _ _. None };

    /// The text that a call may have before an argument, other than the default, and at the end.
    ghost own_parts: { Self → Self.Options → Parts } = { λ _ _ _ _ _ _. ⊥ };

    /// The function's identity, as `vortex.binary`.
    fn id(&self) -> ScalarFnId
        ensures { result.now ≡ meaning.id self.now };

    /// The options as bytes, if the function writes them; the default writes none. Fails only where
    /// memory runs out.
    fn serialize(&self, alloc: Global, options: &Self::Options) -> VortexResult<Option<Vec<u8>>>
        ensures { AnswersUnlessMemory result
            (MayWriteBytes (option_bytes self.now options.now)) }
    {
        Ok(None)
    }

    /// The options read from the bytes, or E8. The default reads none.
    fn deserialize(&self, alloc: Global, bytes: &[u8]) -> VortexResult<Self::Options>
        ensures { MayReadOptions (options_read self.now bytes.now) result }
    {
        Err(VortexError::BadOptions)
    }

    /// How many arguments a call takes.
    fn arity(&self, options: &Self::Options) -> Arity
        ensures { result ≡ meaning.arity self.now options.now };

    /// The name of an argument, for every index; past the arguments of a call, any name is allowed.
    fn child_name(&self, options: &Self::Options, index: usize) -> ChildName
        ensures { result.now ≡ meaning.child_name self.now options.now index };

    /// The return type for argument types of a fitting count; E3 exactly if they are not accepted.
    fn return_dtype(
        &self,
        alloc: Global,
        options: &Self::Options,
        types: &[DType],
    ) -> VortexResult<DType>
        requires { IsTrue (fits (meaning.arity self.now options.now) (length types.now)) }
        ensures { AnswersType meaning self.now options.now types.now result };

    /// The result over inputs of accepted types: a column of the return type, with each row's
    /// value, or the fault of a row.
    fn execute<A: ExecutionArgs>(
        &self,
        options: &Self::Options,
        args: &A,
        ctx: &mut ExecutionCtx,
    ) -> VortexResult<Column>
        requires arity { IsTrue (fits (meaning.arity self.now options.now)
            (length (A.inputs args.now))) }
        requires accepted { IsSome (meaning.return_type self.now options.now
            (types_in (A.inputs args.now))) }
        ensures { AnswersCall meaning self.now options.now
            (A.inputs args.now) (A.rows args.now) result };

    /// Appends the text of a call of `count` arguments that comes before the one that is printed
    /// `index`-th, and returns which argument that is. If `index` is `count`, it appends the end of
    /// the call, and returns `count`. Fails only where memory runs out.
    ///
    /// The default is the text `id(a, b)`; if the text of the options is not empty, `, opts=` and
    /// that text come before the `)`.
    fn write_before(
        &self,
        alloc: Global,
        options: &Self::Options,
        index: usize,
        count: usize,
        out: &mut String,
    ) -> VortexResult<usize>
        ensures { AnswersUnlessMemory result (WritesPart (IsDefaultOrOwn (meaning.id self.now)
            (Self.Options.output options.now) (own_parts self.now options.now))
            count index out.old out.new) }
    {
        write_opening(out, self.id(), index)?;
        if index == count {
            let text = options.to_string(alloc)?;
            write_options(out, text.as_str())?;
            out.push_str(")")?;
        } else {
            write_separator(out, ", ", index)?;
        }
        Ok(index)
    }

    /// Appends the text of a call, from the texts of its arguments, whose count fits: for each the
    /// text before it, default or the function's own, then its own. Fails only where memory runs
    /// out. The default uses `write_before`; the shipped functions have an exact clause.
    fn fmt_sql(
        &self,
        alloc: Global,
        options: &Self::Options,
        children: &[String],
        out: &mut String,
    ) -> VortexResult<()>
        requires { IsTrue (fits (meaning.arity self.now options.now) (length children.now)) }
        ensures { AnswersUnlessMemory result (λ _. AppendsCall (IsDefaultOrOwn
            (meaning.id self.now) (Self.Options.output options.now)
            (own_parts self.now options.now)) children.now out.old out.new) }
    {
        for index in 0..children.len() + 1 {
            let place = self.write_before(alloc, options, index, children.len(), out)?;
            out.push_str(argument_text(place, children))?;
        }
        Ok(())
    }

    /// Whether a null argument makes the result null.
    fn is_strict(&self, options: &Self::Options) -> bool
        ensures { result ≡ meaning.strict self.now options.now };

    /// Whether no row faults.
    fn is_infallible(&self, options: &Self::Options) -> bool
        ensures { result ≡ meaning.infallible self.now options.now };

    /// A copy that equals its source.
    fn try_clone(&self, alloc: Global) -> VortexResult<Self>
        ensures { AnswersUnlessMemory result (λ f. f ≡ self.now) };

    /// A copy of options that equals its source.
    fn clone_options(&self, alloc: Global, options: &Self::Options) -> VortexResult<Self::Options>
        ensures { AnswersUnlessMemory result (λ o. o ≡ options.now) };

    ghost lawful: { Lawful meaning };
}
