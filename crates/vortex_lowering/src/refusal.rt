//! Why operands are not lowered.
ghost use Rattle.std.specs.Prelude.{◌≡◌};
ghost use Rattle.vortex_lowering.specs.declared.refusal.Refusal.TheVariants.{Binding};

use vortex_columns::VortexError;
use vortex_logical::kind::Kind;
use vortex_logical::operand::Operand;

/// Why operands are not lowered.
#[derive(Debug, Drop)]
pub enum Refusal {
    /// The two have no kind in common.
    NoCommonKind(Operand, Operand),
    /// The two meet, but not by shipped functions: floats of two widths, a float beside another
    /// number, and a whole number that is not of `i64` beside a decimal.
    NotShipped(Operand, Operand),
    /// The text is none of the kind.
    NotOfKind(Kind),
    /// The column is not of the type that stores the kind.
    NotStored(Kind),
    /// A tree is not of the type of its stored values (E3), or an allocation fails (E9).
    Binding(VortexError),
}

impl From<VortexError> for Refusal {
    ghost from_gives = { λ e r. r ≡ Binding e };

    fn from(error: VortexError) -> Refusal {
        Refusal::Binding(error)
    }
}
