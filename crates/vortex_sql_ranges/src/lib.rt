//! What is known of calls of SQL's functions in every row of a group, by the ranges of their
//! arguments.
#![tactic(auto)]

pub mod choices;
pub mod distinct;
pub mod laws;
pub mod listed;
pub mod monotone;
pub mod truth_tests;

pub use choices::coalesce_range;
pub use distinct::distinct_range;
pub use listed::in_list_range;
pub use monotone::{is_monotone, monotone_range};
pub use truth_tests::test_range;
