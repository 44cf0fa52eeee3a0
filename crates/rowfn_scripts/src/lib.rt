//! Scripts over columns: what they print, and how they end.
#![tactic(auto)]

pub mod ending;
pub mod laws;
mod scope;
pub mod script;
pub mod session;
pub mod stop;

pub use ending::{End, fault_line, status};
pub use script::{Outcome, interpret};
pub use session::Session;
pub use stop::Stop;
