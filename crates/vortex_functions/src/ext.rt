//! The shipped functions as functions of any tree.
ghost use Rattle.std.specs.Prelude.{◌≡◌, ℕ, List, Option, map};
ghost use Rattle.std.specs.Option.{option_map};
ghost use Rattle.vortex_functions.specs.Words.{Shipped, ours, function_of, AnswersBinding};

use crate::erased::ScalarFnRef;
use crate::expression::BoundExpression;
use crate::typed::TypedScalarFnInstance;
use std::alloc::Global;
use vortex_columns::VortexResult;
use vortex_interface::ScalarFnVTable;

/// A shipped function, for trees over any caller's functions.
pub trait ScalarFnVTableExt: ScalarFnVTable {
    ghost ships: { Self.Options → Shipped };

    ghost names: { List (List ℕ) → Option Shipped };

    /// The function with these options.
    fn bind<C: ScalarFnVTable>(&self, options: Self::Options) -> ScalarFnRef<C>
        ensures { function_of result ≡ ours (ships options) };

    /// The options of this function that words of a script name, as `and`, or `between`, `<` and
    /// `<=`.
    fn named(&self, words: &[&str]) -> Option<Self::Options>
        ensures { option_map ships result ≡ names (map (λ w. w.now) words.now) };

    /// The call of the function with these options: E6, then E3, as `BoundExpression::try_new`.
    final fn try_new_bound_expr<C: ScalarFnVTable>(
        &self,
        alloc: Global,
        options: Self::Options,
        children: Vec<BoundExpression<C>>,
    ) -> VortexResult<BoundExpression<C>>
        ensures { AnswersBinding C.meaning (ours (ships options)) children.items result }
    {
        BoundExpression::try_new(alloc, self.bind(options), children)
    }
}

impl<V: ScalarFnVTableExt> TypedScalarFnInstance<V> {
    /// The shipped function with its options, for trees over any caller's functions.
    pub fn erased<C: ScalarFnVTable>(self) -> ScalarFnRef<C>
        ensures { function_of result ≡ ours (V.ships self.options) }
    {
        let (vtable, options) = self.into_parts();
        vtable.bind(options)
    }
}
