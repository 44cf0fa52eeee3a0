//! How a script ends.
ghost use Rattle.std.specs.Prelude.{◌≡◌, string_bytes};
ghost use Rattle.vortex_errors.specs.Answers.{AnswersUnlessMemory};
ghost use Rattle.rowfn_scripts.specs.Endings.{status_of, fault_line_of};

use std::alloc::Global;
use vortex_columns::{VortexError, VortexResult};

/// How a script ends.
#[derive(Drop)]
pub enum End {
    /// Every line was read.
    Done,
    /// A call failed, or memory ran out.
    Refused(VortexError),
    /// The line of this number, counted from 1, is malformed.
    Malformed(usize),
}

/// 0 for a script that was read to its end, 1 for an error, 2 for a malformed line.
pub fn status(ending: &End) -> u8
    ensures { result ≡ status_of ending.now }
{
    match ending {
        End::Done => 0,
        End::Refused(_) => 1,
        End::Malformed(_) => 2,
    }
}

/// The line that a program prints for the ending: the error by its name, or the malformed line by
/// its number; none for `Done`. E9 where an allocation fails.
pub fn fault_line(alloc: Global, ending: &End) -> VortexResult<String>
    ensures { AnswersUnlessMemory result (λ text. string_bytes text ≡ fault_line_of ending.now) }
{
    match ending {
        End::Done => Ok(String::new(alloc)),
        End::Refused(error) => Ok(format!(in alloc; "error: {}\n", error.name())?),
        End::Malformed(line) => Ok(format!(in alloc; "line {line}: malformed\n")?),
    }
}
