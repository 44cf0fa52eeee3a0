//! Records of CSV from a reader, through a program, to a writer: read in batches, whose fields become
//! columns, and answered batch by batch.
#![tactic(auto)]

mod answering;
mod cast_texts;
pub mod columns;
pub mod errors;
pub mod explained;
mod filter;
mod header;
pub mod laws;
mod messages;
mod names;
mod output;
mod parts;
pub mod printing;
mod reading_back;
pub mod refusals;
pub mod request;
pub mod settings;
mod showing;
pub mod stream;
mod truths;
pub mod watched;

pub use columns::{FieldsError, read_columns};
pub use errors::StreamError;
pub use explained::explain;
pub use names::check_names;
pub use printing::push_field;
pub use refusals::{NoRefusals, Refusals, RefusedRows, refusals_in};
pub use request::Request;
pub use rowfn_csv::Format;
pub use settings::Settings;
pub use stream::{Summary, run};
pub use watched::{Watched, Watcher};
