//! The numbers that exports answer of themselves.

/// Nothing is refused.
pub(crate) const OK: u32 = 0;

/// E9: memory ran out.
pub(crate) const OUT_OF_MEMORY: u32 = 9;

/// The handle holds nothing, or something else.
pub(crate) const EMPTY_HANDLE: u32 = 100;

/// There is no answer, or no field, of that number.
pub(crate) const NO_SUCH_NUMBER: u32 = 101;

/// A kind that is none.
pub(crate) const UNKNOWN_KIND: u32 = 102;

/// A text has more bytes than there is room.
pub(crate) const ROOM_TOO_SMALL: u32 = 104;
