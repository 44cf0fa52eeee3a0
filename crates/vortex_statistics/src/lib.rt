//! What is known of a column without its rows: counts of rows and nulls, and ends of the values.
#![tactic(auto)]

mod checks;
pub mod end;
mod extremes;
mod kinds;
pub mod parts;
pub mod statistics;

pub use end::End;
pub use parts::Parts;
pub use statistics::Statistics;
pub use vortex_columns::{Column, DType, ScalarValue, VortexError, VortexResult};
