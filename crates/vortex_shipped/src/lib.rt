//! The shipped row functions, one module each: what a call returns, its type, its marks and its
//! text.
#![tactic(auto)]

pub mod between;
pub mod binary;
pub mod cast;
pub mod laws;
pub mod like;
pub mod not;
pub mod null_tests;
mod option_bytes;
mod texts;

pub use between::Between;
pub use binary::Binary;
pub use cast::{Cast, CastOptions};
pub use like::Like;
pub use not::Not;
pub use null_tests::{IsNotNull, IsNull, NullTestOf};
