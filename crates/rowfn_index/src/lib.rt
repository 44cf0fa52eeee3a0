//! What a stream knows of the chunks of a file: where each is, and between which ends its columns
//! lie. By it a filter skips chunks without a true row, and copies those in which each row is true.
#![tactic(auto)]

pub mod agreement;
pub mod chunk;
pub mod digest;
pub mod ends;
mod entries;
pub mod error;
pub mod head;
pub mod laws;
pub mod measured;
pub mod range;
pub mod reading;
pub mod scan;
pub mod steps;
mod writing;

pub use agreement::{check_type, check_words, number_named};
pub use chunk::Chunk;
pub use digest::digest_of;
pub use error::IndexError;
pub use head::{FileFacts, IndexHead, IndexedColumn, reading_words};
pub use measured::{ColumnEnds, column_ends};
pub use range::ChunkFile;
pub use reading::{ChunkTable, index_records, read_chunks, read_head};
pub use scan::Scan;
pub use steps::{Action, Step, chunk_steps};
pub use writing::write_head;
