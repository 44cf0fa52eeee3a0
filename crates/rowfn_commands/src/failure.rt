//! What goes wrong, with its status and its text.

use rowfn_batches::{NoRefusals, StreamError};
use rowfn_index::IndexError;
use rowfn_queries::mixed::is_word;
use rowfn_queries::{MixedColumn, QueryError};
use std::alloc::{AllocError, AllocFailed};
use std::{fmt, io, str};
use vortex_columns::VortexError;

/// What goes wrong.
#[derive(Drop)]
pub enum ProgramError {
    /// The words that ask are refused.
    Query(QueryError),
    /// The same, where the text of the answers names a file.
    QueryOfFile(QueryError, String),
    /// The same, where the text of the answers is like the name of a file, and there is none.
    QueryOfNoFile(QueryError, String),
    /// The words compare a column, whose fields are dates in another form, with a date in quotes.
    Compared(MixedColumn),
    /// The rows end.
    Stream(StreamError),
    /// The rows end at a field that is none of its column's type, which the first rows gave it.
    Inferred(StreamError),
    /// A call faults in a row, of an expression that chooses among parts.
    Chosen(StreamError),
    /// The file of that name, of the rows or of the expression, cannot be read.
    Input(String, io::Error),
    /// The file of the expression is not UTF-8.
    NoText(String),
    /// There is no file in which bad rows are reported.
    NoRefusals(NoRefusals),
    /// Bad rows cannot be reported there, in the file of that name or on standard error.
    Reporting(String, io::Error),
    /// So many rows were refused, and left out.
    LeftOut(u64),
    /// The rows have no column that an index could describe.
    NoColumns,
    /// The index in the file of that name is not used.
    Index(String, IndexError),
}

impl From<QueryError> for ProgramError {
    fn from(error: QueryError) -> ProgramError {
        ProgramError::Query(error)
    }
}

impl From<StreamError> for ProgramError {
    fn from(error: StreamError) -> ProgramError {
        ProgramError::Stream(error)
    }
}

impl From<NoRefusals> for ProgramError {
    fn from(error: NoRefusals) -> ProgramError {
        ProgramError::NoRefusals(error)
    }
}

impl From<AllocError> for ProgramError {
    fn from(_error: AllocError) -> ProgramError {
        ProgramError::Stream(StreamError::OutOfMemory)
    }
}

impl<T: Drop> From<AllocFailed<T>> for ProgramError {
    fn from(_error: AllocFailed<T>) -> ProgramError {
        ProgramError::Stream(StreamError::OutOfMemory)
    }
}

/// Want of memory: what is called here refuses nothing else.
impl From<VortexError> for ProgramError {
    fn from(_error: VortexError) -> ProgramError {
        ProgramError::Stream(StreamError::OutOfMemory)
    }
}

impl ProgramError {
    /// 1 for a fault of the expression, and where rows were left out, 2 for input that does not
    /// fit, 3 for reading, writing and memory, 4 for an expression that is wrong.
    pub(crate) fn status(&self) -> u8 {
        match self {
            ProgramError::Query(error)
            | ProgramError::QueryOfFile(error, _)
            | ProgramError::QueryOfNoFile(error, _) => error.status(),
            ProgramError::Stream(error)
            | ProgramError::Inferred(error)
            | ProgramError::Chosen(error) => error.status(),
            ProgramError::Input(_, _)
            | ProgramError::NoRefusals(_)
            | ProgramError::Reporting(_, _) => 3,
            ProgramError::NoText(_) | ProgramError::Compared(_) => 4,
            ProgramError::LeftOut(_) => 1,
            ProgramError::NoColumns => 2,
            ProgramError::Index(_, error) => error.status(),
        }
    }

    /// Whether nobody reads the output any more.
    pub(crate) fn is_closed_pipe(&self) -> bool {
        match self {
            ProgramError::Stream(StreamError::Writing(error)) => {
                error.kind() == io::ErrorKind::BrokenPipe
            }
            _ => false,
        }
    }
}

/// Whether a field is no UTF-8, of whatever type its column is.
fn is_no_utf8(error: &StreamError) -> bool {
    match error {
        StreamError::Misfit {
            field: Some(bytes),
            ..
        } => str::from_utf8(bytes).is_err(),
        _ => false,
    }
}

/// What went wrong, in one line.
impl fmt::Display for ProgramError {
    fn fmt<W: fmt::Write>(&self, f: &mut fmt::Formatter<W>) -> fmt::Result {
        match self {
            ProgramError::Query(error) => write!(f, "{error}"),
            ProgramError::QueryOfFile(error, name) => {
                let name = name.as_str();
                write!(f, "{error}; {name} is a file: expected it after --input")
            }
            ProgramError::QueryOfNoFile(error, name) => {
                let name = name.as_str();
                write!(f, "{error}; there is no file {name}")
            }
            ProgramError::Compared(column) => {
                let name = column.name.as_str();
                write!(
                    f,
                    "{column}; next to a date in quotes its texts would compare by their bytes "
                )?;
                if is_word(name) {
                    write!(f, "(--columns '{name} utf8')")
                } else {
                    write!(f, "(--columns '{name:?} utf8')")
                }
            }
            ProgramError::Stream(error) => write!(f, "{error}"),
            ProgramError::Chosen(error) => { write!(f, "{error}; all parts of CASE are computed") }
            ProgramError::Inferred(error) if is_no_utf8(error) => write!(f, "{error}"),
            ProgramError::Inferred(error) => {
                write!(
                    f,
                    "{error}, its type by the first rows: expected it in --columns"
                )
            }
            ProgramError::Input(name, error) => {
                let name = name.as_str();
                write!(f, "reading {name}: {error}")
            }
            ProgramError::NoText(name) => {
                let name = name.as_str();
                write!(f, "{name}: the expression is not UTF-8")
            }
            ProgramError::NoRefusals(error) => write!(f, "{error}"),
            ProgramError::Reporting(name, error) => {
                let name = name.as_str();
                write!(f, "writing {name}: {error}")
            }
            ProgramError::LeftOut(count) => write!(f, "rows left out {count}"),
            ProgramError::NoColumns => f.write_str("--write-index: the rows have no columns"),
            ProgramError::Index(name, error) => {
                let name = name.as_str();
                write!(f, "{name}: {error}")
            }
        }
    }
}
