//! The faults of formats, and of texts that do not fit them.
ghost use Rattle.std.specs.Prelude.{◌≡◌, None};
ghost use Rattle.std.specs.Option.{option_map};
ghost use Rattle.vortex_interface.specs.Outcomes.{custom, faults};
ghost use Rattle.vortex_sql_rows.specs.AnsweredRows.{AnswersRow};
ghost use Rattle.vortex_sql_rows.specs.Faults.{fault_of, faults_by};
ghost use Rattle.vortex_sql_rows.specs.declared.faults.RowFault.TheVariants.{OtherValues};
ghost use Rattle.vortex_sql_date_formats.specs.FormatFaults as specs;

use vortex_columns::{Cell, VortexError, VortexResult};
use vortex_sql_rows::faults::RowFault;

/// The number that E10 has where a format is none that is taken: those of `RowFault`, of a root and
/// of `make_date` are before it.
pub const UNKNOWN_FORMAT: u64 = 38;

/// The number that E10 has where a text does not fit its format.
pub const OTHER_FORMAT: u64 = 39;

/// The text of the fault with that number, if it is one of these two.
pub fn format_fault_text(number: u64) -> Option<&'static str>
    ensures { option_map (λ t. t.now) result ≡ specs.format_fault_text number }
{
    if number == UNKNOWN_FORMAT {
        Some("date format that is not known")
    } else if number == OTHER_FORMAT {
        Some("text that does not fit its date format")
    } else {
        None
    }
}

/// No other fault of a row has one of these numbers.
pub fn format_numbers_are_their_own()
    ensures unknown { fault_of specs.unknown_format ≡ None }
    ensures other { fault_of specs.other_format ≡ None }
{}

/// The fault of a format that is none that is taken.
pub(crate) fn unknown_format<'a>() -> VortexResult<Cell<'a>>
    ensures { AnswersRow (faults (custom specs.unknown_format)) result }
{
    Err(VortexError::Custom(UNKNOWN_FORMAT))
}

/// The fault of a text that does not fit its format.
pub(crate) fn other_format<'a>() -> VortexResult<Cell<'a>>
    ensures { AnswersRow (faults (custom specs.other_format)) result }
{
    Err(VortexError::Custom(OTHER_FORMAT))
}

/// The fault of values that no call passes.
pub(crate) fn other_values<'a>() -> VortexResult<Cell<'a>>
    ensures { AnswersRow (faults_by OtherValues) result }
{
    Err(VortexError::Custom(RowFault::OtherValues.number()))
}
