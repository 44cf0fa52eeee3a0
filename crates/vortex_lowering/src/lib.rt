//! Calls over logical operands, as calls of the proved functions over stored integers.
#![tactic(auto)]

pub mod aligning;
pub mod bounding;
pub mod comparing;
pub mod computing;
mod lengthen;
pub mod operand;
pub mod refusal;
mod scale;

pub use aligning::align;
pub use bounding::between;
pub use comparing::compare;
pub use computing::{add, multiply, subtract};
pub use operand::Lowered;
pub use refusal::Refusal;
