//! The options of a function that has none.
ghost use Rattle.std.specs.Prelude.{◌≡◌};

use std::fmt;

/// No options; they print as nothing.
#[derive(Clone, Debug, PartialEq, Eq, Hash, Drop)]
pub struct EmptyOptions;

impl fmt::Display for EmptyOptions {
    ghost use Rattle.std.specs.Prelude.{Some, []};

    ghost output = { λ _. Some [] };

    fn fmt<W: fmt::Write>(&self, _f: &mut fmt::Formatter<W>) -> fmt::Result {
        Ok(())
    }
}
