//! What is known of the values of a function in every row of a group: whether a row may be null,
//! and ends between which the other values lie.
#![tactic(auto)]

pub mod bound;
pub mod calls;
mod comparing;
mod computing;
mod described;
pub mod functions;
pub mod laws;
pub mod like;
pub mod range;
mod truths;
mod typed;

pub use bound::Bound;
pub use calls::{between_range, binary_range, cast_range, not_range, null_test_range};
pub use functions::default_range;
pub use like::like_range;
pub use range::Range;
