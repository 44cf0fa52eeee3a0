//! Equality of functions with their options, and its laws. The functions are empty: their contracts
//! are the laws, proved.
ghost use Rattle.std.specs.Prelude.{◌≡◌, ◌↔◌, ℕ, List, IsTrue, fold};
ghost use Rattle.vortex_types.specs.LogicalTypes.{LogicalType};
ghost use Rattle.vortex_types.specs.Values.{Value};
ghost use Rattle.vortex_functions.specs.Words.{AreSame, SameByIdentityAndOptions, Shipped, ours};
ghost use Rattle.vortex_functions.specs.Words.{function_of, function_means};
ghost use Rattle.vortex_functions.specs.declared.erased.ScalarFnRef.{ScalarFnRef};

use crate::erased::ScalarFnRef;
use std::hash::{Hash, Hasher};
use vortex_interface::ScalarFnVTable;

/// Two functions are equal exactly if they are the same: one shipped function with the same
/// options, or two of a caller's with one identity and equal options.
pub fn equal_functions_are_the_same<C: ScalarFnVTable>()
    ensures { (f g : ScalarFnRef C C.Options) → IsTrue (⟦<ScalarFnRef<C> as PartialEq>⟧.eq f g)
        ↔ AreSame C.meaning.id C.Options.eq (function_of f) (function_of g) }
{}

/// If no caller's function has the identity of a shipped one, two functions are the same exactly if
/// their identities and their options are equal.
pub fn identities_and_options_tell_functions<C: ScalarFnVTable>()
    ensures { SameByIdentityAndOptions C.meaning C.Options.eq }
{}

/// A function that equals a shipped one has its meaning, whatever callers' functions mean.
pub fn equal_shipped_functions_mean_the_same<C: ScalarFnVTable>()
    ensures { (f g : ScalarFnRef C C.Options) (s : Shipped) → function_of f ≡ ours s
        → IsTrue (⟦<ScalarFnRef<C> as PartialEq>⟧.eq f g)
        → (ts : List LogicalType) (vs : List Value)
        → function_means C.meaning (function_of f) ts vs
        ≡ function_means C.meaning (function_of g) ts vs }
{
    equal_functions_are_the_same::<C>();
}

/// Equal values of any type leave any hasher in the same state.
fn equal_values_hash_equally<T: Hash, H: Hasher>()
    ensures { (a b : T) (state : H) → IsTrue (T.eq a b)
        → fold H.write state (T.hash_input a) ≡ fold H.write state (T.hash_input b) }
{}

/// Equal functions leave any hasher in the same state: `hash` writes the same for them.
pub fn equal_functions_hash_equally<C: ScalarFnVTable, H: Hasher>()
    ensures { (f g : ScalarFnRef C C.Options) (state : H)
        → IsTrue (⟦<ScalarFnRef<C> as PartialEq>⟧.eq f g)
        → fold H.write state (⟦<ScalarFnRef<C> as Hash>⟧.hash_input f)
        ≡ fold H.write state (⟦<ScalarFnRef<C> as Hash>⟧.hash_input g) }
{
    equal_values_hash_equally::<ScalarFnRef<C>, H>();
}
