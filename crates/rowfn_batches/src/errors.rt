//! What ends a stream, with its status and its text.

use crate::messages::{message_bytes, message_text, write_bytes, write_cast, write_error};
use rowfn_csv::RecordError;
use std::alloc::{AllocError, AllocFailed};
use std::{fmt, io, str};
use vortex_columns::{DType, VortexError};
use vortex_logical::kind::Kind;

/// What ends a stream before the end of its input. Records are counted from 1, without the header.
#[derive(Drop)]
pub enum StreamError {
    /// A call of an answer faults in a row; of a cast with the text that it cannot read, if that is
    /// known.
    Fault {
        row: u64,
        error: VortexError,
        text: Option<String>,
    },
    /// A call of an answer is refused, whatever the row.
    Refused(VortexError),
    /// The value of an answer, by its name, has no text of its kind: a date past the year 9999, or
    /// a decimal of too many digits.
    NoText {
        row: u64,
        name: String,
        kind: Kind,
    },
    /// A field that is no value of its column; nothing where it is a null.
    Misfit {
        row: u64,
        column: String,
        kind: Kind,
        dtype: DType,
        field: Option<Vec<u8>>,
    },
    /// The texts of a column or of an answer, by its name, take more bytes in a batch than a column
    /// holds.
    TextsTooLong(String),
    /// A declared column that the header does not name.
    ColumnMissing(String),
    /// A declared column that the header names twice.
    ColumnTwice(String),
    /// A declared column, by its name, is to stand at a place, counted from 0, behind the fields of
    /// the header.
    PlaceMissing {
        name: String,
        place: usize,
        found: usize,
    },
    /// A row of more or fewer fields than the header, or than declared columns where there is none.
    Width {
        row: u64,
        wanted: usize,
        found: usize,
    },
    /// The last row ends within quotes.
    OpenQuote {
        row: u64,
    },
    /// The header ends within quotes.
    OpenHeader,
    /// A row of which a field has more bytes than that.
    FieldTooLong {
        row: u64,
        limit: usize,
    },
    /// A header of which a field has more bytes than that.
    HeaderTooLong(usize),
    /// The input could not be read.
    Reading(io::Error),
    /// The output could not be written.
    Writing(io::Error),
    /// Two answers have that name.
    AnswerTwice(String),
    /// The only answer, of that name, may be null, and the line of such a row would be passed over
    /// where it is read.
    RowsLost(String),
    /// An answer has the name of a column of the input, before whose answers the input's fields are
    /// written.
    NameTaken(String),
    /// Memory ran out.
    OutOfMemory,
}

impl From<RecordError> for StreamError {
    ghost use Rattle.rowfn_batches.specs.Endings.{read_ending};
    ghost use Rattle.std.specs.Prelude.{◌≡◌};

    ghost from_gives = { λ error e. e ≡ read_ending error };

    fn from(error: RecordError) -> StreamError {
        match error {
            RecordError::Io(error) => StreamError::Reading(error),
            RecordError::OutOfMemory => StreamError::OutOfMemory,
        }
    }
}

impl From<AllocError> for StreamError {
    ghost use Rattle.rowfn_batches.specs.declared.errors.StreamError.TheVariants.{OutOfMemory};
    ghost use Rattle.std.specs.Prelude.{◌≡◌};

    ghost from_gives = { λ _ e. e ≡ OutOfMemory };

    fn from(_error: AllocError) -> StreamError {
        StreamError::OutOfMemory
    }
}

impl<T: Drop> From<AllocFailed<T>> for StreamError {
    ghost use Rattle.rowfn_batches.specs.declared.errors.StreamError.TheVariants.{OutOfMemory};
    ghost use Rattle.std.specs.Prelude.{◌≡◌};

    ghost from_gives = { λ _ e. e ≡ OutOfMemory };

    fn from(_error: AllocFailed<T>) -> StreamError {
        StreamError::OutOfMemory
    }
}

impl StreamError {
    ghost use Rattle.rowfn_batches.specs.Endings.{status_of, row_told, row_left_out};
    ghost use Rattle.std.specs.Prelude.{◌≡◌};

    /// 1 for a fault of an answer, 2 for input that does not fit, 3 for reading, writing and memory, 4
    /// for names or answers that cannot be written.
    pub fn status(&self) -> u8
        ensures { result ≡ status_of self.now }
    {
        match self {
            StreamError::Fault { .. } | StreamError::Refused(_) | StreamError::NoText { .. } => 1,
            StreamError::Misfit { .. }
            | StreamError::TextsTooLong(_)
            | StreamError::ColumnMissing(_)
            | StreamError::ColumnTwice(_)
            | StreamError::PlaceMissing { .. }
            | StreamError::Width { .. }
            | StreamError::OpenQuote { .. }
            | StreamError::OpenHeader
            | StreamError::FieldTooLong { .. }
            | StreamError::HeaderTooLong(_) => 2,
            StreamError::Reading(_) | StreamError::Writing(_) | StreamError::OutOfMemory => 3,
            StreamError::AnswerTwice(_) | StreamError::RowsLost(_) | StreamError::NameTaken(_) => 4,
        }
    }

    /// The number of the row that is refused, where one is.
    pub fn row(&self) -> Option<u64>
        ensures { result ≡ row_told self.now }
    {
        match self {
            StreamError::Fault { row, .. } => Some(*row),
            StreamError::NoText { row, .. } => Some(*row),
            StreamError::Misfit { row, .. } => Some(*row),
            StreamError::Width { row, .. } => Some(*row),
            StreamError::OpenQuote { row } => Some(*row),
            StreamError::FieldTooLong { row, .. } => Some(*row),
            _ => None,
        }
    }

    /// The number of the row that is refused, where rows behind it can be read: not where a field is
    /// too long, as its end was not looked for.
    pub fn left_out(&self) -> Option<u64>
        ensures { result ≡ row_left_out self.now }
    {
        match self {
            StreamError::FieldTooLong { .. } => None,
            error => error.row(),
        }
    }

    /// Whether the reason has a comma, as the name of a decimal has.
    pub(crate) fn has_comma(&self) -> bool {
        match self {
            StreamError::Misfit { kind, .. } | StreamError::NoText { kind, .. } => {
                matches!(kind, Kind::Decimal(_))
            }
            _ => false,
        }
    }

    /// Writes why a row is refused, without its number, its column and its field.
    pub(crate) fn write_reason<W: fmt::Write>(&self, f: &mut fmt::Formatter<W>) -> fmt::Result {
        match self {
            StreamError::Fault { error, .. } => write_error(f, error),
            StreamError::NoText { kind, .. } => write!(f, "the result is no {kind}"),
            StreamError::Misfit {
                kind: Kind::Plain,
                dtype,
                field,
                ..
            } => {
                write!(f, "is no {dtype:?}")?;
                write_encoding(f, dtype, field)
            }
            StreamError::Misfit { kind, .. } => write!(f, "is no {kind}"),
            StreamError::Width { wanted, found, .. } => {
                let ending = if *found == 1 { "" } else { "s" };
                write!(f, "{found} field{ending} instead of {wanted}")
            }
            StreamError::FieldTooLong { limit, .. } => write_too_long(f, *limit),
            StreamError::HeaderTooLong(limit) => write_too_long(f, *limit),
            _ => f.write_str("a quote is not closed"),
        }
    }
}

/// Writes what helps where a field of a text is no UTF-8.
fn write_encoding<W: fmt::Write>(
    f: &mut fmt::Formatter<W>,
    dtype: &DType,
    field: &Option<Vec<u8>>,
) -> fmt::Result {
    match (dtype, field) {
        (DType::Utf8(_), Some(_)) => f.write_str(" (iconv -f latin1 -t utf8)"),
        _ => Ok(()),
    }
}

/// Writes that a field is longer than a limit.
fn write_too_long<W: fmt::Write>(f: &mut fmt::Formatter<W>, limit: usize) -> fmt::Result {
    write!(f, "a field has more bytes than the {limit} of --max-field")
}

/// Writes the beginning of a field in quotes, or that it is a null.
fn write_field<W: fmt::Write>(f: &mut fmt::Formatter<W>, field: Option<&[u8]>) -> fmt::Result {
    let Some(bytes) = field else {
        return f.write_str("null");
    };
    let is_cut = if let Ok(text) = str::from_utf8(bytes) {
        let (told, is_cut) = message_text(text);
        write!(f, "{told:?}")?;
        is_cut
    } else {
        let (told, is_cut) = message_bytes(bytes);
        f.write_str("\"")?;
        write_bytes(f, told)?;
        f.write_str("\"")?;
        is_cut
    };
    f.write_str(if is_cut { ".." } else { "" })
}

/// Writes what the input has that does not fit.
fn write_input<W: fmt::Write>(f: &mut fmt::Formatter<W>, error: &StreamError) -> fmt::Result {
    match error {
        StreamError::Misfit {
            row,
            column,
            field,
            ..
        } => {
            let column = column.as_str();
            write!(f, "row {row}, column {column}: ")?;
            write_field(f, field.as_ref().map(|bytes| bytes.as_slice()))?;
            f.write_str(" ")?;
            error.write_reason(f)
        }
        StreamError::NoText { row, name, .. } => {
            let name = name.as_str();
            write!(f, "row {row}, answer {name}: ")?;
            error.write_reason(f)
        }
        StreamError::TextsTooLong(name) => {
            let name = name.as_str();
            write!(f, "column {name}: texts too long for a batch")
        }
        StreamError::ColumnMissing(name) => {
            let name = name.as_str();
            write!(f, "header: column {name} is missing")
        }
        StreamError::ColumnTwice(name) => {
            let name = name.as_str();
            write!(f, "header: column {name} occurs twice")
        }
        StreamError::PlaceMissing { name, place, found } => {
            let (name, place) = (name.as_str(), place.saturating_add(1));
            write!(
                f,
                "header: {found} fields, but column {name} is field {place}"
            )
        }
        StreamError::Fault {
            row,
            error,
            text: Some(text),
        } => {
            write!(f, "row {row}: ")?;
            write_cast(f, error, text.as_str())
        }
        StreamError::OpenHeader | StreamError::HeaderTooLong(_) => {
            f.write_str("header: ")?;
            error.write_reason(f)
        }
        StreamError::Width { row, wanted, found } => {
            write!(f, "row {row}: ")?;
            error.write_reason(f)?;
            f.write_str(if *found < *wanted {
                "; --ragged fit reads missing fields as null"
            } else {
                "; --ragged fit takes further fields that are empty"
            })?;
            f.write_str(", --errors skip leaves such rows out")
        }
        error => {
            let row = error.row().unwrap_or(0);
            write!(f, "row {row}: ")?;
            error.write_reason(f)
        }
    }
}

/// Writes what is wrong with the answers.
fn write_answers<W: fmt::Write>(f: &mut fmt::Formatter<W>, error: &StreamError) -> fmt::Result {
    match error {
        StreamError::AnswerTwice(name) => {
            let name = name.as_str();
            write!(
                f,
                "two answers are named {name}: expected another name for one, by as"
            )
        }
        StreamError::RowsLost(name) => {
            let name = name.as_str();
            write!(f, "the only answer, {name}, may be null, an empty line: ")?;
            f.write_str("expected --null TEXT or --blank-lines null")
        }
        StreamError::NameTaken(name) => {
            let name = name.as_str();
            write!(
                f,
                "--append: a column is named {name}: expected another name, by as"
            )
        }
        error => write_input(f, error),
    }
}

/// The place, and what is wrong there.
impl fmt::Display for StreamError {
    fn fmt<W: fmt::Write>(&self, f: &mut fmt::Formatter<W>) -> fmt::Result {
        match self {
            StreamError::Refused(error) => write_error(f, error),
            StreamError::Reading(error) => write!(f, "reading: {error}"),
            StreamError::Writing(error) => write!(f, "writing: {error}"),
            StreamError::OutOfMemory => f.write_str("out of memory"),
            error => write_answers(f, error),
        }
    }
}
