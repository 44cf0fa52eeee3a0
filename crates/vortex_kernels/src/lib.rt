//! Kernels over whole columns, with the operators of the crate below.
#![tactic(auto)]

pub mod arithmetic_integer;
pub mod between;
pub mod boolean;
pub mod bounds;
pub mod cast;
pub mod checked_loops;
pub mod compare;
pub mod comparisons;
pub mod constant_operand;
mod faults;
mod integer_types;
pub mod kleene;
mod kleene_validity;
pub mod lanes;
mod lists;
pub mod null_tests;
pub mod numbers;
pub mod numeric;
mod numeric_column;
pub mod pairs;
pub mod products;
mod quotients;
mod records;
pub mod row_operation;
mod spans;
mod truths;
mod validity;
mod validity_words;

pub use arithmetic_integer::{ArithmeticInteger, apply_checked};
pub use between::execute_between;
pub use boolean::{
    execute_boolean, execute_not, kleene_boolean_buffer_scalar, kleene_boolean_buffers,
};
pub use cast::execute_cast;
pub use compare::{execute_compare, scalar_cmp};
pub use kleene::kleene_words;
pub use null_tests::{execute_is_not_null, execute_is_null};
pub use numeric::execute_numeric;
pub use vortex_operators::{
    BetweenOptions, CompareOperator, Operator, StrictComparison, operators,
};
