//! Types of columns, integers of each type, values of scalars, and the errors of the crates below.
#![tactic(auto)]

pub mod dtype;
pub mod ints;
pub mod laws;
pub mod scalar_value;

pub use dtype::text::write_separator;
pub use dtype::{DType, Nullability, PType, StructFields};
pub use ints::{Ints, NativePType};
pub use scalar_value::ScalarValue;
pub use vortex_errors::{
    Arity, ExecutionCtx, MismatchPlace, NumericOperator, OperatorText, VortexError, VortexResult,
    arity, context, error,
};
