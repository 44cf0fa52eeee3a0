//! Row functions as values, and expression trees over them. Re-exports the names of the interface
//! and of the shipped functions.
#![tactic(auto)]

pub mod array;
mod between;
mod binary;
mod cast;
pub mod custom;
pub mod erased;
pub mod expression;
pub mod ext;
pub mod function_values;
mod like;
mod not;
mod null_tests;
pub mod tree;
pub mod typed;
pub mod value_laws;
pub mod walk;

pub use array::ArrayRef;
pub use custom::NoCustom;
pub use erased::{ScalarFnRef, ScalarFnSignature};
pub use expression::BoundExpression;
pub use ext::ScalarFnVTableExt;
pub use function_values::ScalarFnOptions;
pub use tree::{Leaf, Tree};
pub use typed::TypedScalarFnInstance;
pub use vortex_interface::{
    Arity, ChildName, EmptyOptions, ExecutionArgs, ScalarFnId, ScalarFnVTable, VecExecutionArgs,
    laws,
};
pub use vortex_like::LikeOptions;
pub use vortex_shipped::{Between, Binary, Cast, CastOptions, IsNotNull, IsNull, Like, Not};
