//! Why words ask nothing of rows.
ghost use Rattle.std.specs.Prelude.{◌≡◌};
ghost use Rattle.rowfn_queries.specs.Errors.{is_memory, is_out_of_memory, words_status, status_of};

use crate::column_type::ColumnType;
use crate::mixed::MixedColumn;
use crate::scope::{DeclarationError, ScopeReason};
use std::alloc::{AllocError, AllocFailed};
use std::{fmt, io};
use vortex_columns::{DType, VortexError};
use vortex_expressions::TextError;
use vortex_logical::kind::Kind;

/// Where a text stands among the words of a program.
#[derive(Clone, Copy, Debug, PartialEq, Eq)]
pub enum TextPlace {
    /// The answers.
    Expression,
    /// The condition.
    Where,
}

/// The word behind which the text stands.
impl fmt::Display for TextPlace {
    fn fmt<W: fmt::Write>(&self, f: &mut fmt::Formatter<W>) -> fmt::Result {
        f.write_str(match self {
            TextPlace::Expression => "expression",
            TextPlace::Where => "--where",
        })
    }
}

/// Why an input has no header, from which columns take their names.
#[derive(Clone, Copy, Debug, PartialEq, Eq)]
pub enum HeaderFault {
    /// The input has no record.
    Missing,
    /// It ends within quotes.
    Open,
    /// A field of it has more bytes than that.
    TooLong(usize),
}

/// What is wrong, in words.
impl fmt::Display for HeaderFault {
    fn fmt<W: fmt::Write>(&self, f: &mut fmt::Formatter<W>) -> fmt::Result {
        match self {
            HeaderFault::Missing => f.write_str("header: the input is empty"),
            HeaderFault::Open => f.write_str("header: a quote is not closed"),
            HeaderFault::TooLong(limit) => {
                write!(
                    f,
                    "header: a field has more bytes than the {limit} of --max-field"
                )
            }
        }
    }
}

/// Why words ask nothing of rows.
#[derive(Drop)]
pub enum QueryError {
    /// A text is refused, with its place in it; and, if a column's type is why, the column that has
    /// numbers and is text.
    Unread(TextPlace, TextError, Option<MixedColumn>),
    /// The columns that are declared are refused.
    Columns(DeclarationError),
    /// The condition is no truth value, but of that type.
    NoTruth(ColumnType),
    /// The input has no header.
    Header(HeaderFault),
    /// The header could not be read.
    Reading(io::Error),
    /// E9: memory ran out.
    OutOfMemory,
}

impl From<AllocError> for QueryError {
    ghost use Rattle.rowfn_queries.specs.declared.error.QueryError.TheVariants.{OutOfMemory};
    ghost use Rattle.std.specs.Prelude.{◌≡◌};

    ghost from_gives = { λ _ e. e ≡ OutOfMemory };

    fn from(_error: AllocError) -> QueryError {
        QueryError::OutOfMemory
    }
}

impl<T: Drop> From<AllocFailed<T>> for QueryError {
    ghost use Rattle.rowfn_queries.specs.declared.error.QueryError.TheVariants.{OutOfMemory};
    ghost use Rattle.std.specs.Prelude.{◌≡◌};

    ghost from_gives = { λ _ e. e ≡ OutOfMemory };

    fn from(_error: AllocFailed<T>) -> QueryError {
        QueryError::OutOfMemory
    }
}

/// Want of memory: what is called here refuses nothing else.
impl From<VortexError> for QueryError {
    ghost use Rattle.rowfn_queries.specs.declared.error.QueryError.TheVariants.{OutOfMemory};
    ghost use Rattle.std.specs.Prelude.{◌≡◌};

    ghost from_gives = { λ _ e. e ≡ OutOfMemory };

    fn from(_error: VortexError) -> QueryError {
        QueryError::OutOfMemory
    }
}

/// Whether a reason is want of memory.
fn is_memory(reason: ScopeReason) -> bool
    ensures { result ≡ is_memory reason }
{
    matches!(reason, ScopeReason::OutOfMemory)
}

/// The status of words that are wrong, unless memory ran out.
fn words_status(is_out_of_memory: bool) -> u8
    ensures { result ≡ words_status is_out_of_memory }
{
    if is_out_of_memory { 3 } else { 4 }
}

impl QueryError {
    /// Whether memory ran out, and nothing is wrong with the words as far as is known.
    pub fn is_out_of_memory(&self) -> bool
        ensures { result ≡ is_out_of_memory self.now }
    {
        match self {
            QueryError::Unread(_, error, _) => error.is_out_of_memory(),
            QueryError::Columns(error) => is_memory(error.reason),
            QueryError::OutOfMemory => true,
            QueryError::NoTruth(_) | QueryError::Header(_) | QueryError::Reading(_) => false,
        }
    }

    /// 2 for a header that is none, 3 for reading and want of memory, 4 for words that are wrong.
    pub fn status(&self) -> u8
        ensures { result ≡ status_of self.now }
    {
        match self {
            QueryError::Header(_) => 2,
            QueryError::Reading(_) | QueryError::OutOfMemory => 3,
            QueryError::Unread(_, error, _) => words_status(error.is_out_of_memory()),
            QueryError::Columns(error) => words_status(is_memory(error.reason)),
            QueryError::NoTruth(_) => 4,
        }
    }
}

/// Whether the values are whole numbers, and nothing else that integers stand for.
fn is_whole(column: &ColumnType) -> bool {
    matches!(column.dtype, DType::Primitive(_, _)) && matches!(column.kind, Kind::Plain)
}

/// Which text is refused, and why, in one line.
impl fmt::Display for QueryError {
    fn fmt<W: fmt::Write>(&self, f: &mut fmt::Formatter<W>) -> fmt::Result {
        match self {
            error if error.is_out_of_memory() => f.write_str("out of memory"),
            QueryError::Unread(place, error, None) => write!(f, "{place}: {error}"),
            QueryError::Unread(place, error, Some(mixed)) => {
                write!(f, "{place}: {error}; {mixed}")
            }
            QueryError::Columns(error) => write!(f, "--columns: {error}"),
            QueryError::NoTruth(column) => {
                write!(f, "--where: expected a truth value, not {column}")?;
                f.write_str(if is_whole(column) {
                    ": write n <> 0"
                } else {
                    ""
                })
            }
            QueryError::Header(fault) => write!(f, "{fault}"),
            QueryError::Reading(error) => write!(f, "reading: {error}"),
            QueryError::OutOfMemory => f.write_str("out of memory"),
        }
    }
}
