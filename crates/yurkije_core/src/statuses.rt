//! The numbers that the C interface has for what is refused.
ghost use Rattle.std.specs.Prelude.{◌≡◌};
ghost use Rattle.vortex_errors.specs.Errors.{number_of};
ghost use Rattle.yurkije_core.specs.Statuses.{kinds_status, refusal_status, reason_status};
ghost use Rattle.yurkije_core.specs.Statuses.{program_status, fault_status, run_status};

use crate::reading::ProgramError;
use crate::running::BatchRunError;
use vortex_columns::VortexError;
use vortex_expressions::{Reason, Refusal};
use yurkije_columns::statuses::column_status;

/// 1 to 13 for E1 to E13.
fn error_status(error: &VortexError) -> u32
    ensures { result ≡ number_of error.now }
{
    error.number() as u32
}

/// The number of values of kinds that do not go together.
fn kinds_status(refusal: &vortex_lowering::Refusal) -> u32
    ensures { result ≡ kinds_status refusal.now }
{
    match refusal {
        vortex_lowering::Refusal::NoCommonKind(_, _) => 3,
        vortex_lowering::Refusal::NotShipped(_, _) => 3,
        vortex_lowering::Refusal::NotOfKind(_) => 119,
        vortex_lowering::Refusal::NotStored(_) => 3,
        vortex_lowering::Refusal::Binding(error) => error_status(error),
    }
}

/// The number of a text that is well written and refused.
fn refusal_status(refusal: &Refusal) -> u32
    ensures { result ≡ refusal_status refusal.now }
{
    match refusal {
        Refusal::NotUtf8 => 110,
        Refusal::UnknownType => 113,
        Refusal::NotHeld => 114,
        Refusal::UntypedNull => 115,
        Refusal::NoEscape => 116,
        Refusal::NoCast => 117,
        Refusal::NoFunction => 118,
        Refusal::OfKind(_) => 3,
        Refusal::Kinds(refusal) => kinds_status(refusal),
        Refusal::Binding(error) => error_status(error),
    }
}

/// The number of a text that is no expression.
fn reason_status(reason: &Reason) -> u32
    ensures { result ≡ reason_status reason.now }
{
    match reason {
        Reason::NoToken => 112,
        Reason::Unexpected(_) => 112,
        Reason::TooDeep => 112,
        Reason::Refused(refusal) => refusal_status(refusal),
    }
}

/// The number of a text that is no program.
pub fn program_status(error: &ProgramError) -> u32
    ensures { result ≡ program_status error.now }
{
    match error {
        ProgramError::NotUtf8 => 110,
        ProgramError::Text(error) => reason_status(&error.reason),
    }
}

/// The number of a run of a program that returns nothing.
fn fault_status(error: &vortex_program::RunError) -> u32
    ensures { result ≡ fault_status error.now }
{
    match error {
        vortex_program::RunError::Fault {
            row: _,
            answer: _,
            error,
        } => error_status(error),
        vortex_program::RunError::Refused(error) => error_status(error),
        vortex_program::RunError::OutOfMemory => 9,
    }
}

/// The number of a run over a batch that returns nothing.
pub fn run_status(error: &BatchRunError) -> u32
    ensures { result ≡ run_status error.now }
{
    match error {
        BatchRunError::Batch(error) => column_status(error.fault),
        BatchRunError::Program(error) => fault_status(error),
    }
}
