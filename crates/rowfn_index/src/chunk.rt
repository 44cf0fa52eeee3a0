//! Chunks of a file.

/// Some rows of a file, one after the other.
#[derive(Clone, Copy, Debug, PartialEq, Eq)]
pub struct Chunk {
    /// Where its bytes begin in the file.
    pub offset: u64,
    /// How many bytes it has.
    pub bytes: u64,
    /// How many rows it has.
    pub rows: u64,
    /// Whether its bytes are the lines of its rows, and nothing else.
    pub whole: bool,
    /// The digest of its bytes.
    pub digest: u64,
}
