//! Between, as a function of trees.
ghost use Rattle.std.specs.Prelude.{◌≡◌, map};
ghost use Rattle.vortex_functions.specs.Words.{between_named, bound_named};

use crate::erased::ScalarFnRef;
use crate::ext::ScalarFnVTableExt;
use vortex_interface::ScalarFnVTable;
use vortex_kernels::{BetweenOptions, StrictComparison};
use vortex_shipped::Between;

/// Whether a bound is strict, from its operator.
fn bound_named(word: &str) -> Option<StrictComparison>
    ensures { result ≡ bound_named word.now }
{
    if word == "<" {
        Some(StrictComparison::Strict)
    } else if word == "<=" {
        Some(StrictComparison::NonStrict)
    } else {
        None
    }
}

/// The options that a script names: `between`, and the operators of the lower and of the upper
/// bound.
fn between_named(words: &[&str]) -> Option<BetweenOptions>
    ensures { result ≡ between_named (map (λ w. w.now) words.now) }
{
    match words {
        [word, lower, upper] if *word == "between" => Some(BetweenOptions {
            lower_strict: bound_named(lower)?,
            upper_strict: bound_named(upper)?,
        }),
        _ => None,
    }
}

impl ScalarFnVTableExt for Between {
    ghost use Rattle.std.specs.Option.{option_map};
    ghost use Rattle.vortex_interface.specs.Shipped as shipped;
    ghost use Rattle.vortex_functions.specs.Words.{between_named};

    ghost ships = { shipped.Between };

    ghost names = { λ words. option_map shipped.Between (between_named words) };

    fn bind<C: ScalarFnVTable>(&self, options: BetweenOptions) -> ScalarFnRef<C> {
        ScalarFnRef::Between(options)
    }

    fn named(&self, words: &[&str]) -> Option<BetweenOptions> {
        between_named(words)
    }
}
