//! Cast, as a function of trees.
ghost use Rattle.std.specs.Prelude.{◌≡◌};

use crate::erased::ScalarFnRef;
use crate::ext::ScalarFnVTableExt;
use vortex_interface::ScalarFnVTable;
use vortex_shipped::{Cast, CastOptions};

impl ScalarFnVTableExt for Cast {
    ghost use Rattle.std.specs.Prelude.{Some, None, if◌then◌else◌};
    ghost use Rattle.vortex_interface.specs.Shipped as shipped;
    ghost use Rattle.vortex_functions.specs.Words.{is_cast_word};

    ghost ships = { λ _. shipped.Cast };

    ghost names = { λ words. if is_cast_word words then Some shipped.Cast else None };

    fn bind<C: ScalarFnVTable>(&self, _options: CastOptions) -> ScalarFnRef<C> {
        ScalarFnRef::Cast
    }

    fn named(&self, words: &[&str]) -> Option<CastOptions> {
        match words {
            [word] if *word == "cast" => Some(CastOptions),
            _ => None,
        }
    }
}
