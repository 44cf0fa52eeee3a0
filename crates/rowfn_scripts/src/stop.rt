//! Why a script stops at a line.
ghost use Rattle.std.specs.Prelude.{◌≡◌};
ghost use Rattle.vortex_errors.specs.declared.error.VortexError.TheVariants.{OutOfMemory};
ghost use Rattle.rowfn_scripts.specs.declared.stop.Stop.TheVariants.{Refused};

use crate::ending::End;
use std::alloc::{AllocError, AllocFailed};
use vortex_columns::VortexError;

/// Why a script stops at a line.
#[derive(Drop)]
pub enum Stop {
    /// A call fails, or memory ran out.
    Refused(VortexError),
    Malformed,
}

impl Stop {
    ghost use Rattle.rowfn_scripts.specs.Stepping.{end_of};

    /// The ending of a script that stops at this line.
    pub fn ending(self, line: usize) -> End
        ensures { result ≡ end_of self line }
    {
        match self {
            Stop::Refused(error) => End::Refused(error),
            Stop::Malformed => End::Malformed(line),
        }
    }
}

impl From<VortexError> for Stop {
    ghost from_gives = { λ e s. s ≡ Refused e };

    fn from(error: VortexError) -> Stop {
        Stop::Refused(error)
    }
}

impl From<AllocError> for Stop {
    ghost from_gives = { λ _ s. s ≡ Refused OutOfMemory };

    fn from(_error: AllocError) -> Stop {
        Stop::Refused(VortexError::OutOfMemory)
    }
}

impl<T: Drop> From<AllocFailed<T>> for Stop {
    ghost from_gives = { λ _ s. s ≡ Refused OutOfMemory };

    fn from(_error: AllocFailed<T>) -> Stop {
        Stop::Refused(VortexError::OutOfMemory)
    }
}
