//! Rows that are lent have values of their types.
ghost use Rattle.std.specs.Prelude.{◌≡◌, IsTrue, IfSome, All, map, ℕ};
ghost use Rattle.vortex_types.specs.declared.dtype.PType.TheVariants.{I32, I64};
ghost use Rattle.vortex_types.specs.Typing.{FitsPType};
ghost use Rattle.vortex_columns.specs.ColumnView.{AreTyped};
ghost use Rattle.vortex_arrow.specs.Columns.{arrow_column};
ghost use Rattle.vortex_arrow.specs.Floats.{wide_key, narrow_key};
ghost use Rattle.yurkije_columns.specs.Batches.{batch_column};

use vortex_arrow::{ArrowColumn, ArrowValues};
use vortex_columns::NativePType;
use vortex_float_bits::{narrow_key, wide_key};
use vortex_types::ints::learn_ranges;

/// Proves to the caller that the key of each pattern has 64 bits. Changes nothing.
fn learn_wide_keys(patterns: &[i64])
    ensures { All (FitsPType I64) (map wide_key patterns.now) }
{
    for pattern in patterns {
        let _ = wide_key(*pattern).to_i128();
    }
}

/// The same of 32 bits.
fn learn_narrow_keys(patterns: &[i32])
    ensures { All (FitsPType I32) (map narrow_key patterns.now) }
{
    for pattern in patterns {
        let _ = narrow_key(*pattern).to_i128();
    }
}

/// Whether a column is of truth values or of what integers stand for. Then its rows have its type:
/// the loops that prove it change nothing, and the compiler leaves them out.
fn learn_rows(column: &ArrowColumn<'_>) -> bool
    ensures { IsTrue result
        → AreTyped (arrow_column column.now).dtype (arrow_column column.now).rows }
{
    match column.values {
        ArrowValues::Bool(_) => {}
        ArrowValues::Int8(xs) => learn_ranges(xs),
        ArrowValues::Int16(xs) => learn_ranges(xs),
        ArrowValues::Int32(xs) => learn_ranges(xs),
        ArrowValues::Int64(xs) => learn_ranges(xs),
        ArrowValues::UInt8(xs) => learn_ranges(xs),
        ArrowValues::UInt16(xs) => learn_ranges(xs),
        ArrowValues::UInt32(xs) => learn_ranges(xs),
        ArrowValues::UInt64(xs) => learn_ranges(xs),
        ArrowValues::Date(days) => learn_ranges(days),
        ArrowValues::Timestamp(times) => learn_ranges(times),
        ArrowValues::Decimal { values, .. } => learn_ranges(values),
        ArrowValues::Float64(patterns) => learn_wide_keys(patterns),
        ArrowValues::Float32(patterns) => learn_narrow_keys(patterns),
        _ => return false,
    }
    true
}

/// The same of a column that may be unread.
fn learn_if_read(column: &Option<ArrowColumn<'_>>) -> bool
    ensures { IsTrue result → (n : ℕ) → AreTyped (batch_column n column.now).dtype
        (batch_column n column.now).rows }
{
    match column {
        Some(column) => learn_rows(column),
        None => true,
    }
}

/// Whether all columns that are read are of truth values or of what integers stand for. Then the
/// rows of each have its type.
pub fn are_typed(columns: &[Option<ArrowColumn<'_>>]) -> bool
    ensures { IsTrue result → (n : ℕ) → All (λ c. AreTyped c.dtype c.rows)
        (map (batch_column n) columns.now) }
{
    for k in 0..columns.len() {
        if !learn_if_read(&columns[k]) {
            return false;
        }
    }
    true
}
