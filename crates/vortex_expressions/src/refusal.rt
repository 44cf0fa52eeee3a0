//! Errors of expressions without syntax errors.
ghost use Rattle.std.specs.Prelude.{◌≡◌};
ghost use Rattle.vortex_errors.specs.declared.error.VortexError.TheVariants.{OutOfMemory};
ghost use Rattle.vortex_expressions.specs.declared.refusal.Refusal.TheVariants.{Binding};
ghost use Rattle.vortex_expressions.specs.declared.refusal.BindStop.TheVariants.{Refused};

use std::alloc::{AllocError, AllocFailed};
use vortex_columns::VortexError;
use vortex_logical::kind::Kind;

/// Why an expression without syntax errors fails.
#[derive(Debug, Drop)]
pub enum Refusal {
    /// A text or a name is not UTF-8.
    NotUtf8,
    /// No type has that name.
    UnknownType,
    /// The literal has no value in its type: the type does not hold the number, or has values of
    /// another kind.
    NotHeld,
    /// Null is next to nothing that has a type.
    UntypedNull,
    /// The escape is more than one character.
    NoEscape,
    /// No cast leads to that type.
    NoCast,
    /// No function has that name.
    NoFunction,
    /// A value of that kind is where none may be.
    OfKind(Kind),
    /// Values of kinds do not go together, a text is none of a kind, or the type of a column does
    /// not store its kind.
    Kinds(vortex_lowering::Refusal),
    /// The scope has no such column (E11), a function does not accept the types (E3), or an
    /// allocation fails (E9).
    Binding(VortexError),
}

/// Why a step is not taken.
#[derive(Drop)]
pub(crate) enum BindStop {
    Refused(Refusal),
    /// An item that it takes is absent.
    Missing,
}

impl From<VortexError> for BindStop {
    ghost from_gives = { λ e s. s ≡ Refused (Binding e) };

    fn from(error: VortexError) -> BindStop {
        BindStop::Refused(Refusal::Binding(error))
    }
}

impl From<AllocError> for BindStop {
    ghost from_gives = { λ _ s. s ≡ Refused (Binding OutOfMemory) };

    fn from(_error: AllocError) -> BindStop {
        BindStop::Refused(Refusal::Binding(VortexError::OutOfMemory))
    }
}

impl<T: Drop> From<AllocFailed<T>> for BindStop {
    ghost from_gives = { λ _ s. s ≡ Refused (Binding OutOfMemory) };

    fn from(_error: AllocFailed<T>) -> BindStop {
        BindStop::Refused(Refusal::Binding(VortexError::OutOfMemory))
    }
}
