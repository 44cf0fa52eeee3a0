//! Calls over arrays.
ghost use Rattle.std.specs.Prelude.{◌≡◌};
ghost use Rattle.vortex_arrays.specs.Words.{AnswersCall, AnswersCallOfRows};
ghost use Rattle.vortex_arrays.specs.Words.{function_of, other_rows};

use std::alloc::Global;
use std::marker::Model;
use vortex_columns::{VortexError, VortexResult};
use vortex_functions::{ArrayRef, ScalarFnRef};
use vortex_interface::ScalarFnVTable;

/// An array that is a call.
#[derive(Drop)]
pub struct ScalarFnArray<C: ScalarFnVTable> {
    array: ArrayRef<C>,
}

impl<C: ScalarFnVTable> Model for ScalarFnArray<C> {
    ghost use Rattle.std.specs.Prelude.{ℕ, IsSome};
    ghost use Rattle.std.specs.Coded.{coded_ℕ, coded×};
    ghost use Rattle.vortex_interface.specs.Trees.{Tree, called};
    ghost use Rattle.vortex_interface.specs.TreeCodes.{coded_tree};

    ghost Value = { Tree C C.Options × ℕ };

    ghost coded = { coded× (coded_tree C.code C.Options.code) coded_ℕ };

    ghost view = { λ a. a.array };

    ghost invariant = { λ a. IsSome (called a.array.0) };
}

/// The row count of the first array that has not that many rows.
fn first_other_len<C: ScalarFnVTable>(children: &[ArrayRef<C>], len: usize) -> Option<usize>
    ensures { result ≡ other_rows len children.now }
{
    for child in children {
        if child.len() != len {
            return Some(child.len());
        }
    }
    None
}

impl<C: ScalarFnVTable> ScalarFnArray<C> {
    /// The call of a function on arrays, of the first one's row count.
    ///
    /// In order: E6 if the count of children does not fit its arity, or is zero; E2 if
    /// a child's row count is not the first one's, with `left` that of the first and `right` that
    /// of the first that differs; E3 if their types are not accepted.
    pub fn try_new(
        alloc: Global,
        function: ScalarFnRef<C>,
        children: Vec<ArrayRef<C>>,
    ) -> VortexResult<ScalarFnArray<C>>
        ensures { AnswersCall C.meaning (function_of function) children.items result }
    {
        let Some(first) = children.first() else {
            let arity = function.signature().arity;
            return Err(VortexError::ArityMismatch { arity, given: 0 });
        };
        let len = first.len();
        ScalarFnArray::try_new_with_len(alloc, function, children, len)
    }

    /// The call of a function on arrays of that many rows; there may be none.
    ///
    /// In order: E6 if the count of children does not fit its arity; E2 if a child has not
    /// `len` rows, with `left` that number and `right` the row count of the first that differs; E3
    /// if their types are not accepted.
    pub fn try_new_with_len(
        alloc: Global,
        function: ScalarFnRef<C>,
        children: Vec<ArrayRef<C>>,
        len: usize,
    ) -> VortexResult<ScalarFnArray<C>>
        ensures { AnswersCallOfRows C.meaning (function_of function) children.items len result }
    {
        let arity = function.signature().arity;
        let given = children.len();
        if !arity.matches(given) {
            return Err(VortexError::ArityMismatch { arity, given });
        }
        if let Some(right) = first_other_len(&children, len) {
            return Err(VortexError::LengthMismatch { left: len, right });
        }
        Ok(ScalarFnArray {
            array: ArrayRef::try_call(alloc, function, children, len)?,
        })
    }

    /// The call as an array.
    pub fn into_array(self) -> ArrayRef<C>
        ensures { result ≡ self }
    {
        let ScalarFnArray { array } = self;
        array
    }
}
