//! What is refused, by name.
ghost use Rattle.std.specs.Prelude.{◌≡◌};
ghost use Rattle.vortex_arrow.specs.declared.error.ArrowError.TheVariants.{OutOfMemory};

use std::alloc::{AllocError, AllocFailed};
use std::fmt;
use thiserror::Error;

/// What is wrong with the bytes of a text or a byte string in its row.
#[derive(Clone, Copy, Debug, Drop, PartialEq, Eq)]
pub enum ValueFault {
    /// An offset is negative, or below the one before it.
    OffsetsFall,
    /// An offset is past the end of the data.
    PastData,
    /// A view names a buffer that is not there, or bytes past its end.
    ViewOutOfRange,
    /// A view tells other first bytes than its buffer has.
    PrefixDiffers,
    /// A value within its view is not followed by zeros.
    NotPadded,
}

/// Why a borrowed column is refused.
#[derive(Clone, Copy, Debug, Drop, PartialEq, Eq)]
pub enum ArrowError {
    /// The validity has fewer bits than offset and length say.
    ValidityTooShort,
    /// There are fewer values, views, or bits of values.
    ValuesTooShort,
    /// There are fewer offsets than one more than offset and length say.
    OffsetsTooShort,
    /// A row is null in a column that is not nullable.
    UnexpectedNull { row: usize },
    /// A row's text or byte string is not where its offsets or its view say.
    InvalidValue { row: usize, fault: ValueFault },
    /// A row that is not null is no UTF-8.
    NotUtf8 { row: usize },
    /// A text of more than 4,294,967,295 bytes, or texts that take too many buffers of so many.
    TooLong,
    /// A growth was refused.
    OutOfMemory,
}

impl ValueFault {
    ghost use Rattle.vortex_arrow.specs.Texts.{fault_text};

    /// What is wrong, in words.
    fn text(&self) -> &'static str
        ensures { result.now ≡ fault_text self.now }
    {
        match self {
            ValueFault::OffsetsFall => "offsets fall",
            ValueFault::PastData => "an offset is past the end of the data",
            ValueFault::ViewOutOfRange => "a view is out of range",
            ValueFault::PrefixDiffers => "a view's prefix differs from its buffer",
            ValueFault::NotPadded => "a view is not padded with zeros",
        }
    }
}

impl std::error::Error for ValueFault {}

impl fmt::Display for ValueFault {
    ghost use Rattle.std.specs.Prelude.{Some};
    ghost use Rattle.vortex_arrow.specs.Texts.{fault_text};

    ghost output = { λ fault. Some (fault_text fault) };

    fn fmt<W: fmt::Write>(&self, f: &mut fmt::Formatter<W>) -> fmt::Result {
        f.write_str(self.text())
    }
}

impl std::error::Error for ArrowError {}

impl fmt::Display for ArrowError {
    ghost use Rattle.std.specs.Prelude.{Some};
    ghost use Rattle.vortex_arrow.specs.Texts.{arrow_text};

    ghost output = { λ error. Some (arrow_text error) };

    fn fmt<W: fmt::Write>(&self, f: &mut fmt::Formatter<W>) -> fmt::Result {
        match self {
            ArrowError::ValidityTooShort => f.write_str("validity is too short"),
            ArrowError::ValuesTooShort => f.write_str("values are too short"),
            ArrowError::OffsetsTooShort => f.write_str("offsets are too short"),
            ArrowError::UnexpectedNull { row } => {
                write!(f, "row {row}: null in a column that is not nullable")
            }
            ArrowError::InvalidValue { row, fault } => write!(f, "row {row}: {fault}"),
            ArrowError::NotUtf8 { row } => write!(f, "row {row}: not UTF-8"),
            ArrowError::TooLong => f.write_str("texts are too long"),
            ArrowError::OutOfMemory => f.write_str("out of memory"),
        }
    }
}

/// Why a column is not copied.
#[derive(Clone, Copy, Debug, Drop, PartialEq, Eq, Error)]
pub enum CopyError {
    /// The column has another type than the buffers.
    #[error("the column is of another type")]
    OtherType,
    /// There are fewer bytes of validity than the rows take.
    #[error("validity is too short")]
    ValidityTooShort,
    /// There are fewer values, or bytes of truth values.
    #[error("values are too short")]
    ValuesTooShort,
    /// There are fewer offsets than one more than the rows.
    #[error("offsets are too short")]
    OffsetsTooShort,
    /// There are fewer bytes of data than the rows have.
    #[error("data are too short")]
    DataTooShort,
    /// The rows have more bytes than the offsets can tell.
    #[error("values are too long for the offsets")]
    TooLong,
}

impl From<AllocError> for ArrowError {
    ghost from_gives = { λ _ e. e ≡ OutOfMemory };

    fn from(_error: AllocError) -> ArrowError {
        ArrowError::OutOfMemory
    }
}

impl<T: Drop> From<AllocFailed<T>> for ArrowError {
    ghost from_gives = { λ _ e. e ≡ OutOfMemory };

    fn from(_error: AllocFailed<T>) -> ArrowError {
        ArrowError::OutOfMemory
    }
}
