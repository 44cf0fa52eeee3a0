//! The numbers of a row that functions take, and its faults.
ghost use Rattle.std.specs.Prelude.{◌≡◌, ◌≤◌, ◌^◌, IfSome};
ghost use Rattle.std.specs.Int.{IsInRange};
ghost use Rattle.vortex_types.specs.declared.dtype.PType.TheVariants.{I64};
ghost use Rattle.vortex_sql_rows.specs.declared.faults.RowFault.TheVariants.{OtherValues};
ghost use Rattle.vortex_sql_rows.specs.AnsweredRows.{AnswersRow, MakesRow};
ghost use Rattle.vortex_sql_rows.specs.Faults.{faults_by};
ghost use Rattle.vortex_sql_rows.specs.Integers.{checked};
ghost use Rattle.vortex_sql_kind_texts.specs.StoredRows.{digits_in, from_to};

use vortex_columns::{Cell, PType, VortexError, VortexResult};
use vortex_logical::digits::DecimalDigits;
use vortex_sql_rows::faults::RowFault;
use vortex_sql_rows::ranges::is_in;

/// The number, if it has 64 bits.
pub(crate) fn stored_in(number: i128) -> Option<i64>
    ensures { result ≡ checked I64 number }
{
    if is_in(PType::I64, number) {
        Some(number as i64)
    } else {
        None
    }
}

/// The number, if it is one from the least to the greatest.
pub(crate) fn from_to(least: u32, greatest: u32, number: i128) -> Option<u32>
    ensures value { result ≡ from_to least greatest number }
    ensures bound { IfSome result (λ n. n ≤ greatest) }
    ensures least { IfSome result (λ n. least ≤ n) }
{
    if i128::from(least) <= number && number <= i128::from(greatest) {
        Some(number as u32)
    } else {
        None
    }
}

/// Ten to the power `places`.
#[tactic(auto, using(crate::specs::StoredRows::ten_bound, crate::specs::StoredRows::ten_positive))]
pub(crate) fn power_of(places: u32) -> u64
    requires { places ≤ 18 }
    ensures value { result ≡ 10 ^ places }
    ensures range { IsInRange 1 1000000000000000000 result }
{
    10u64.pow(places)
}

/// The digits of decimals of that precision and scale, if there are such decimals.
pub(crate) fn digits_in(precision: i128, scale: i128) -> Option<DecimalDigits>
    ensures { result ≡ digits_in precision scale }
{
    let precision = from_to(1, 18, precision)?;
    let scale = from_to(0, 18, scale)?;
    if scale <= precision {
        DecimalDigits::try_new(precision, scale)
    } else {
        None
    }
}

/// The fault of values that the function does not take.
pub(crate) fn other_values<'a>() -> VortexResult<Cell<'a>>
    ensures { AnswersRow (faults_by OtherValues) result }
{
    Err(VortexError::Custom(RowFault::OtherValues.number()))
}

/// The fault of a function that makes texts.
pub(crate) fn no_text(fault: RowFault) -> VortexResult<Option<String>>
    ensures { MakesRow (faults_by fault) result }
{
    Err(VortexError::Custom(fault.number()))
}
