//! Functions with their options as values: their options as bytes and texts, and their equality.
ghost use Rattle.std.specs.Prelude.{◌≡◌};
ghost use Rattle.vortex_functions.specs.Words.{function_of, AnswersUnlessMemory, WritesOptionsOf};

use crate::erased::{ScalarFnRef, with_function};
use crate::typed::TypedScalarFnInstance;
use std::alloc::Global;
use std::fmt;
use std::hash::{Hash, Hasher};
use vortex_columns::VortexResult;
use vortex_interface::ScalarFnVTable;

/// One identity, and options that are equal by their own equality.
impl<V: ScalarFnVTable> PartialEq for TypedScalarFnInstance<V> {
    ghost use Rattle.std.proofs.Common.{rules};
    ghost use Rattle.std.specs.Cmp.Rules.{comparing};
    ghost use Rattle.std.specs.Prelude.{◌&&◌};
    ghost use Rattle.std.specs.Str.{bytes_eq};

    ghost eq = { λ f g. bytes_eq (V.meaning.id f.vtable) (V.meaning.id g.vtable)
        && V.Options.eq f.options g.options };

    ghost laws = { Prim.search (comparing, rules) };

    fn eq(&self, other: &TypedScalarFnInstance<V>) -> bool {
        self.vtable().id() == other.vtable().id() && *self.options() == *other.options()
    }
}

impl<V: ScalarFnVTable> Eq for TypedScalarFnInstance<V> {
    ghost use Rattle.std.proofs.Common.{rules};
    ghost use Rattle.std.specs.Cmp.Rules.{comparing};

    ghost laws = { Prim.search (comparing, rules) };
}

/// The identity, and then the options.
impl<V: ScalarFnVTable> Hash for TypedScalarFnInstance<V> {
    ghost use Rattle.std.proofs.Common.{rules};
    ghost use Rattle.std.specs.Cmp.Rules.{comparing, hashing};
    ghost use Rattle.std.specs.Hash as fed;
    ghost use Rattle.std.specs.Prelude.{◌++◌};

    ghost hash_input = { λ f. fed.str (V.meaning.id f.vtable) ++ V.Options.hash_input f.options };

    ghost respects_eq = { Prim.search (hashing, rules) };

    fn hash<H: Hasher>(&self, state: &mut H) {
        self.vtable().id().hash(state);
        self.options().hash(state);
    }
}

/// The options of a function, borrowed with it.
#[derive(Drop)]
pub struct ScalarFnOptions<'a, C: ScalarFnVTable> {
    /// The function that holds them.
    pub function: &'a ScalarFnRef<C>,
}

impl<C: ScalarFnVTable> ScalarFnRef<C> {
    /// The options, borrowed.
    pub fn options(&self) -> ScalarFnOptions<'_, C>
        ensures { result.function.now ≡ self.now }
    {
        ScalarFnOptions { function: self }
    }
}

impl<'a, C: ScalarFnVTable> ScalarFnOptions<'a, C> {
    /// The bytes of the options: a shipped function always writes them, a caller's as in its
    /// interface, or none. Fails only where memory runs out.
    pub fn serialize(&self, alloc: Global) -> VortexResult<Option<Vec<u8>>>
        ensures { AnswersUnlessMemory result
            (WritesOptionsOf C.option_bytes (function_of self.now.function.now)) }
    {
        with_function!(self.function, f, options => f.serialize(alloc, options))
    }
}

/// The options' own text.
impl<'a, C: ScalarFnVTable> fmt::Display for ScalarFnOptions<'a, C> {
    ghost use Rattle.vortex_functions.specs.Words.{function_of, held_text};

    ghost output = { λ options. held_text C.Options.output (function_of options.function.now) };

    fn fmt<W: fmt::Write>(&self, out: &mut fmt::Formatter<W>) -> fmt::Result {
        with_function!(self.function, _f, options => write!(out, "{options}"))
    }
}

impl<'a, C: ScalarFnVTable> fmt::Debug for ScalarFnOptions<'a, C> {
    fn fmt<W: fmt::Write>(&self, out: &mut fmt::Formatter<W>) -> fmt::Result {
        with_function!(self.function, _f, options => write!(out, "{options:?}"))
    }
}

/// The identity, and the options' text in brackets: `vortex.binary(+)`.
impl<C: ScalarFnVTable> fmt::Display for ScalarFnRef<C> {
    ghost use Rattle.vortex_functions.specs.Words.{function_of, value_text};

    ghost output = { λ f. value_text C.meaning C.Options.output (function_of f) };

    fn fmt<W: fmt::Write>(&self, out: &mut fmt::Formatter<W>) -> fmt::Result {
        let id = self.id();
        let options = self.options();
        write!(out, "{id}({options})")
    }
}

impl<C: ScalarFnVTable> fmt::Debug for ScalarFnRef<C> {
    fn fmt<W: fmt::Write>(&self, out: &mut fmt::Formatter<W>) -> fmt::Result {
        let id = self.id();
        let options = self.options();
        write!(out, "ScalarFnRef {{ id: {id:?}, options: {options:?} }}")
    }
}
