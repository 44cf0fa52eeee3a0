//! Kleene's Not, as a function of trees.
ghost use Rattle.std.specs.Prelude.{◌≡◌};

use crate::erased::ScalarFnRef;
use crate::ext::ScalarFnVTableExt;
use vortex_interface::{EmptyOptions, ScalarFnVTable};
use vortex_shipped::Not;

impl ScalarFnVTableExt for Not {
    ghost use Rattle.std.specs.Prelude.{Some, None, if◌then◌else◌};
    ghost use Rattle.vortex_interface.specs.Shipped as shipped;
    ghost use Rattle.vortex_functions.specs.Words.{is_not_word};

    ghost ships = { λ _. shipped.Not };

    ghost names = { λ words. if is_not_word words then Some shipped.Not else None };

    fn bind<C: ScalarFnVTable>(&self, _options: EmptyOptions) -> ScalarFnRef<C> {
        ScalarFnRef::Not
    }

    fn named(&self, words: &[&str]) -> Option<EmptyOptions> {
        match words {
            [word] if *word == "not" => Some(EmptyOptions),
            _ => None,
        }
    }
}
