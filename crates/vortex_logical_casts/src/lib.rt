//! Which functions a cast between kinds is, and which a decimal is rounded by: data, so that what
//! calls them applies any of them alike.
#![tactic(auto)]

pub mod casts;
pub mod roundings;
pub mod steps;

pub use casts::{decimal_steps, float_steps, integer_steps, text_steps, written_steps};
pub use roundings::{Rounded, decimal_rounding, float_rounding, is_rounding};
pub use steps::{More, Step, Steps};
