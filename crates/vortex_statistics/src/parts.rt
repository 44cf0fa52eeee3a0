//! The parts of statistics, unchecked.

use crate::end::End;
use vortex_columns::DType;

/// The parts of statistics, of which `Statistics::try_new` makes them; none for what is not known.
#[derive(Drop)]
pub struct Parts {
    /// The type.
    pub dtype: DType,
    /// How many rows there are.
    pub rows: Option<u64>,
    /// How many of them are null.
    pub nulls: Option<u64>,
    /// No value is below it.
    pub low: Option<End>,
    /// No value is above it.
    pub high: Option<End>,
    /// Whether the ends say nothing of NaN, as those of Parquet and Iceberg. No type has NaN so
    /// far.
    pub skips_nan: bool,
}
