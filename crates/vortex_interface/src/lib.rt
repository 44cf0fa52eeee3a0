//! The interface of row functions, the inputs of their calls, and laws of what functions mean.
#![tactic(auto)]

pub mod args;
pub mod laws;
pub mod options;
pub mod printing;
pub mod vtable;

pub use args::VecExecutionArgs;
pub use options::EmptyOptions;
pub use printing::argument_text;
pub use vortex_columns::Arity;
pub use vtable::{ChildName, ExecutionArgs, ScalarFnId, ScalarFnVTable};
