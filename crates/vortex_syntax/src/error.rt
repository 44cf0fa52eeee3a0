//! Syntax errors.
ghost use Rattle.std.specs.Prelude.{◌≡◌};
ghost use Rattle.vortex_syntax.specs.declared.error.SyntaxError.TheVariants.{OutOfMemory};

use crate::expected::Expected;
use std::alloc::{AllocError, AllocFailed};

/// Why a text is no expression.
#[derive(Clone, Copy, Debug, PartialEq, Eq)]
pub enum SyntaxError {
    /// No token begins at that byte.
    NoToken(usize),
    /// No expression continues with the token at that byte, or none ends where the text ends. With
    /// what was expected there, which is tested, not proved.
    Unexpected(usize, Expected),
    /// Brackets nest too deep at that byte.
    TooDeep(usize),
    OutOfMemory,
}

impl SyntaxError {
    ghost use Rattle.vortex_syntax.specs.Errors.{byte_of};

    /// The byte of the text, unless memory ran out.
    pub fn byte(&self) -> Option<usize>
        ensures { result ≡ byte_of self.now }
    {
        match self {
            SyntaxError::NoToken(byte)
            | SyntaxError::Unexpected(byte, _)
            | SyntaxError::TooDeep(byte) => Some(*byte),
            SyntaxError::OutOfMemory => None,
        }
    }
}

impl From<AllocError> for SyntaxError {
    ghost from_gives = { λ _ e. e ≡ OutOfMemory };

    fn from(_error: AllocError) -> SyntaxError {
        SyntaxError::OutOfMemory
    }
}

impl<T: Drop> From<AllocFailed<T>> for SyntaxError {
    ghost from_gives = { λ _ e. e ≡ OutOfMemory };

    fn from(_error: AllocFailed<T>) -> SyntaxError {
        SyntaxError::OutOfMemory
    }
}
