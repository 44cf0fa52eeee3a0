//! The faults of numbers that no character has, and of places before the first character.
ghost use Rattle.std.specs.Prelude.{◌≡◌, None};
ghost use Rattle.std.specs.Option.{option_map};
ghost use Rattle.vortex_interface.specs.Outcomes.{custom, faults};
ghost use Rattle.vortex_sql_rows.specs.AnsweredRows.{MakesRow};
ghost use Rattle.vortex_sql_rows.specs.Faults.{fault_of, faults_by};
ghost use Rattle.vortex_sql_rows.specs.declared.faults.RowFault.TheVariants.{OtherValues};
ghost use Rattle.vortex_sql_characters.specs.CharacterFaults as specs;

use vortex_columns::{VortexError, VortexResult};
use vortex_sql_rows::faults::RowFault;

/// The number that E10 has where `chr` is passed a number that no character has: those of
/// `RowFault`, of a root, of `make_date` and of formats are before it.
pub const NO_CHARACTER: u64 = 40;

/// The number that E10 has where `overlay` is passed a place before the first character.
pub const NO_PLACE: u64 = 41;

/// The text of the fault with that number, if it is one of these two.
pub fn character_fault_text(number: u64) -> Option<&'static str>
    ensures { option_map (λ t. t.now) result ≡ specs.character_fault_text number }
{
    if number == NO_CHARACTER {
        Some("no character has that number")
    } else if number == NO_PLACE {
        Some("place before the first character in overlay")
    } else {
        None
    }
}

/// No other fault of a row has one of these numbers.
pub fn character_numbers_are_their_own()
    ensures character { fault_of specs.no_character ≡ None }
    ensures place { fault_of specs.no_place ≡ None }
{}

/// The fault of a number that no character has.
pub(crate) fn no_character() -> VortexResult<Option<String>>
    ensures { MakesRow (faults (custom specs.no_character)) result }
{
    Err(VortexError::Custom(NO_CHARACTER))
}

/// The fault of a place before the first character.
pub(crate) fn no_place() -> VortexResult<Option<String>>
    ensures { MakesRow (faults (custom specs.no_place)) result }
{
    Err(VortexError::Custom(NO_PLACE))
}

/// The fault of values that no call passes.
pub(crate) fn no_text() -> VortexResult<Option<String>>
    ensures { MakesRow (faults_by OtherValues) result }
{
    Err(VortexError::Custom(RowFault::OtherValues.number()))
}
