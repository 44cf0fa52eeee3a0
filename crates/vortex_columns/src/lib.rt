//! Columns of typed rows, scalars, and cells borrowed from both; with the types of the crates
//! below.
#![tactic(auto)]

pub mod cell;
pub mod column;
mod lists;
pub mod scalar;
pub mod text;
pub mod typing;
pub mod valid_rows;
pub mod validity;
mod value_text;

pub use cell::{Cell, Sequence, cell_of};
pub use column::{BoolRows, Column, IntRows, TextRows};
pub use scalar::Scalar;
pub use valid_rows::{ValidRows, both_valid};
pub use validity::Validity;
pub use vortex_bits::{BitBuffer, BitView, bits};
pub use vortex_types::{
    Arity, DType, ExecutionCtx, Ints, MismatchPlace, NativePType, Nullability, NumericOperator,
    OperatorText, PType, ScalarValue, StructFields, VortexError, VortexResult, arity, context,
    dtype, error, ints, scalar_value, write_separator,
};
pub use vortex_views::{BinaryView, BinaryViews, ResolvedViews, ViewsBuilder};
