//! Why an index is not used.
ghost use Rattle.std.specs.Prelude.{◌≡◌};
ghost use Rattle.rowfn_index.specs.Errors.{status_of};

use std::alloc::{AllocError, AllocFailed};
use std::fmt;
use vortex_columns::VortexError;

/// Why an index is not used. Chunks and lines are counted from 1.
#[derive(Drop)]
pub enum IndexError {
    /// The file begins with something else.
    NoIndex,
    /// It is an index of another version.
    OtherVersion(String),
    /// That line of it is none of an index.
    Line(u64),
    /// The index was written with another option of reading than that which is asked.
    OtherOption {
        written: String,
        asked: String,
    },
    /// The index does not have that column.
    NoColumn(String),
    /// A column has another type in the index.
    OtherType {
        name: String,
        written: String,
        asked: String,
    },
    /// A column is at another place in the index; places are counted from 1.
    OtherPlace {
        name: String,
        written: usize,
        asked: usize,
    },
    /// What the index says of a column in a chunk contradicts itself.
    Contradiction {
        chunk: usize,
        name: String,
    },
    /// The file of the rows has another length.
    OtherLength {
        written: u64,
        found: u64,
    },
    /// The header of the rows is another one.
    OtherHeader,
    /// A chunk of the rows has other bytes.
    OtherChunk(usize),
    /// Memory ran out.
    OutOfMemory,
}

impl From<AllocError> for IndexError {
    fn from(_error: AllocError) -> IndexError {
        IndexError::OutOfMemory
    }
}

impl<T: Drop> From<AllocFailed<T>> for IndexError {
    fn from(_error: AllocFailed<T>) -> IndexError {
        IndexError::OutOfMemory
    }
}

/// What is called here refuses only where memory is refused.
impl From<VortexError> for IndexError {
    fn from(_error: VortexError) -> IndexError {
        IndexError::OutOfMemory
    }
}

impl IndexError {
    /// 2 for an index that is not one of these rows, 3 where memory ran out.
    pub fn status(&self) -> u8
        ensures { result ≡ status_of self.now }
    {
        match self {
            IndexError::OutOfMemory => 3,
            _ => 2,
        }
    }
}

/// Writes what a column has in the index.
fn write_column<W: fmt::Write>(f: &mut fmt::Formatter<W>, error: &IndexError) -> fmt::Result {
    match error {
        IndexError::NoColumn(name) => {
            let name = name.as_str();
            write!(f, "column {name} is not in the index")
        }
        IndexError::OtherType {
            name,
            written,
            asked,
        } => {
            let (name, written, asked) = (name.as_str(), written.as_str(), asked.as_str());
            write!(f, "column {name} is {written} in the index, not {asked}")
        }
        IndexError::OtherPlace {
            name,
            written,
            asked,
        } => {
            let name = name.as_str();
            write!(
                f,
                "column {name} is field {written} in the index, not {asked}"
            )
        }
        IndexError::Contradiction { chunk, name } => {
            let name = name.as_str();
            write!(
                f,
                "chunk {chunk}, column {name}: the index contradicts itself"
            )
        }
        _ => f.write_str("out of memory"),
    }
}

/// Writes how the rows are others than those of the index.
fn write_stale<W: fmt::Write>(f: &mut fmt::Formatter<W>, error: &IndexError) -> fmt::Result {
    match error {
        IndexError::OtherLength { written, found } => {
            write!(
                f,
                "the index is of {written} bytes, and the rows have {found}: expected an index of \
                 these rows"
            )
        }
        IndexError::OtherHeader => {
            f.write_str("the header of the rows is another one: expected an index of these rows")
        }
        IndexError::OtherChunk(chunk) => {
            write!(
                f,
                "chunk {chunk} of the rows has changed: expected an index of these rows"
            )
        }
        error => write_column(f, error),
    }
}

/// What is wrong, in one line.
impl fmt::Display for IndexError {
    fn fmt<W: fmt::Write>(&self, f: &mut fmt::Formatter<W>) -> fmt::Result {
        match self {
            IndexError::NoIndex => f.write_str("expected an index, by --write-index"),
            IndexError::OtherVersion(version) => {
                let version = version.as_str();
                write!(f, "an index of version {version}: expected 1")
            }
            IndexError::Line(line) => write!(f, "line {line} is none of an index"),
            IndexError::OtherOption { written, asked } => {
                let (written, asked) = (written.as_str(), asked.as_str());
                write!(f, "the index was written with {written}, not {asked}")
            }
            error => write_stale(f, error),
        }
    }
}
