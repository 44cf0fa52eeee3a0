//! The null tests, as functions of trees.
ghost use Rattle.std.specs.Prelude.{◌≡◌};

use crate::erased::ScalarFnRef;
use crate::ext::ScalarFnVTableExt;
use vortex_interface::{EmptyOptions, ScalarFnVTable};
use vortex_shipped::{IsNotNull, IsNull};

impl ScalarFnVTableExt for IsNull {
    ghost use Rattle.std.specs.Prelude.{true, false, Some, None, if◌then◌else◌};
    ghost use Rattle.vortex_interface.specs.Shipped as shipped;
    ghost use Rattle.vortex_functions.specs.Words.{null_test_word};

    ghost ships = { λ _. shipped.IsNull };

    ghost names = { λ words. if null_test_word false words then Some shipped.IsNull else None };

    fn bind<C: ScalarFnVTable>(&self, _options: EmptyOptions) -> ScalarFnRef<C> {
        ScalarFnRef::IsNull
    }

    fn named(&self, words: &[&str]) -> Option<EmptyOptions> {
        match words {
            [word] if *word == "is_null" => Some(EmptyOptions),
            _ => None,
        }
    }
}

impl ScalarFnVTableExt for IsNotNull {
    ghost use Rattle.std.specs.Prelude.{true, false, Some, None, if◌then◌else◌};
    ghost use Rattle.vortex_interface.specs.Shipped as shipped;
    ghost use Rattle.vortex_functions.specs.Words.{null_test_word};

    ghost ships = { λ _. shipped.IsNotNull };

    ghost names = { λ words. if null_test_word true words then Some shipped.IsNotNull else None };

    fn bind<C: ScalarFnVTable>(&self, _options: EmptyOptions) -> ScalarFnRef<C> {
        ScalarFnRef::IsNotNull
    }

    fn named(&self, words: &[&str]) -> Option<EmptyOptions> {
        match words {
            [word] if *word == "is_not_null" => Some(EmptyOptions),
            _ => None,
        }
    }
}
