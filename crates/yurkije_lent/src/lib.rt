//! Trees over the columns of a batch where a caller's buffers lie: comparisons, BETWEEN, null tests,
//! arithmetic and what joins them, without a copy of a value.
#![tactic(auto)]

mod between;
mod calls;
mod compare;
mod execute;
mod float_arithmetic;
mod float_bounds;
mod float_lanes;
mod float_words;
mod floats;
mod integer_types;
mod integers;
mod null_tests;
mod numeric;
pub mod operand;
mod types;
mod validity;

pub use execute::{execute_lent, is_direct, leaves_fit};
pub use operand::Operand;
pub use types::are_typed;
