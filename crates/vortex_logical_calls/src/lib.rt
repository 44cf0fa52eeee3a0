//! Calls of SQL's operators on values with kinds: dates, timestamps, decimals and floats.
#![tactic(auto)]

pub mod alignment;
pub mod bounds;
mod call;
pub mod comparison;
pub mod computation;
pub mod conversions;
pub mod intervals;
pub mod laws;
pub mod literals;
pub mod spans;

pub use alignment::{align, meet_next};
pub use bounds::between;
pub use comparison::compare;
pub use computation::compute;
pub use intervals::{Interval, elapsed, elapses, interval_of, shift};
pub use literals::{kind_beside, literal, number_kind};
pub use spans::{compute_spans, counted, move_instant};
pub use vortex_lowering::{Lowered, Refusal};
