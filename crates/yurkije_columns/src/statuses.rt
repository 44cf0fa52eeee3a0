//! The numbers that the C interface has for what is refused of columns, fields and outputs.
ghost use Rattle.std.specs.Prelude.{◌≡◌};
ghost use Rattle.yurkije_columns.specs.Statuses.{scope_status, value_status, arrow_status};
ghost use Rattle.yurkije_columns.specs.Statuses.{copy_status, column_status};

use crate::batch::ColumnFault;
use crate::fields::ScopeFault;
use vortex_arrow::{ArrowError, CopyError, ValueFault};

/// The number of a field that is wrong.
pub fn scope_status(fault: ScopeFault) -> u32
    ensures { result ≡ scope_status fault }
{
    match fault {
        ScopeFault::OutOfMemory => 9,
        ScopeFault::UnknownKind => 102,
        ScopeFault::NotUtf8 => 110,
        ScopeFault::NameTwice => 111,
    }
}

/// The number of a value that is not where its buffers say.
fn value_status(fault: ValueFault) -> u32
    ensures { result ≡ value_status fault }
{
    match fault {
        ValueFault::OffsetsFall => 125,
        ValueFault::PastData => 126,
        ValueFault::ViewOutOfRange => 127,
        ValueFault::PrefixDiffers => 128,
        ValueFault::NotPadded => 129,
    }
}

/// The number of buffers that no column is made of.
pub fn arrow_status(error: ArrowError) -> u32
    ensures { result ≡ arrow_status error }
{
    match error {
        ArrowError::OutOfMemory => 9,
        ArrowError::ValidityTooShort => 120,
        ArrowError::ValuesTooShort => 121,
        ArrowError::OffsetsTooShort => 122,
        ArrowError::UnexpectedNull { row: _ } => 124,
        ArrowError::InvalidValue { row: _, fault } => value_status(fault),
        ArrowError::NotUtf8 { row: _ } => 130,
        ArrowError::TooLong => 131,
    }
}

/// The number of a copy that is refused.
pub fn copy_status(error: CopyError) -> u32
    ensures { result ≡ copy_status error }
{
    match error {
        CopyError::OtherType => 103,
        CopyError::ValidityTooShort => 120,
        CopyError::ValuesTooShort => 121,
        CopyError::OffsetsTooShort => 122,
        CopyError::DataTooShort => 123,
        CopyError::TooLong => 131,
    }
}

/// The number of a column of a batch that is wrong.
pub fn column_status(fault: ColumnFault) -> u32
    ensures { result ≡ column_status fault }
{
    match fault {
        ColumnFault::OtherLength { rows: _ } => 2,
        ColumnFault::Missing => 11,
        ColumnFault::Unasked => 11,
        ColumnFault::OtherType => 11,
        ColumnFault::Unread(error) => arrow_status(error),
    }
}
