//! Arrays other than plain columns: calls over arrays, with those of the shipped functions; encoded
//! columns, their kernels, and the adaptors through which a call uses a kernel; the dictionary,
//! which stores each value once, and functions that run over its values instead of the rows.
#![tactic(auto)]

pub mod boolean;
pub mod call;
pub mod compare;
pub mod dictionary;
pub mod encoded;
pub mod functions;
pub mod laws;

pub use boolean::{BooleanExecuteAdaptor, BooleanKernel};
pub use call::ScalarFnArray;
pub use compare::{CompareExecuteAdaptor, CompareKernel};
pub use dictionary::DictColumn;
pub use encoded::EncodedColumn;
pub use functions::{BetweenCall, BinaryCall, LikeCall, NullTestCall, UnaryCall};
pub use vortex_functions::ArrayRef;
