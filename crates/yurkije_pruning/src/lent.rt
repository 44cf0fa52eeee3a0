//! Statistics of groups of rows, as a C caller lends them.

use yurkije_columns::BorrowedColumn;

/// What is known of a field in each of several groups of rows: columns with an item a group, of
/// which a null says nothing. A column without rows says nothing of any group.
#[repr(C)]
#[derive(Clone, Copy)]
pub struct BorrowedStatistics<'a> {
    /// No value of the group is below its item, which has the field's type.
    pub low: BorrowedColumn<'a>,
    /// And none is above it.
    pub high: BorrowedColumn<'a>,
    /// How many rows of the group are null, of u64.
    pub nulls: BorrowedColumn<'a>,
}
