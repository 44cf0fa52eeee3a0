//! Why a text declares no columns.
ghost use Rattle.std.specs.Prelude.{◌≡◌};
ghost use Rattle.rowfn_queries.specs.declared.scope.ScopeReason.TheVariants.{OutOfMemory};

use crate::places::MOST_COLUMNS;
use std::alloc::{AllocError, AllocFailed};
use std::fmt;
use vortex_columns::VortexError;

/// Why a text declares no columns.
#[derive(Clone, Copy, Debug, PartialEq, Eq)]
pub enum ScopeReason {
    /// No word and no sign begins there.
    NoToken,
    /// No name stands there.
    NoName,
    /// No place of a column has that number: they are counted from 1.
    NoPlace,
    /// No `as` follows the place of a column.
    NoAs,
    /// No type stands there.
    NoType,
    /// Neither a comma nor the end stands there.
    NoComma,
    /// No type has that name.
    UnknownType,
    /// A column before it has the name.
    NameTwice,
    /// A name is not UTF-8.
    NotUtf8,
    /// E9: memory ran out.
    OutOfMemory,
}

impl From<AllocError> for ScopeReason {
    ghost from_gives = { λ _ e. e ≡ OutOfMemory };

    fn from(_error: AllocError) -> ScopeReason {
        ScopeReason::OutOfMemory
    }
}

impl<T: Drop> From<AllocFailed<T>> for ScopeReason {
    ghost from_gives = { λ _ e. e ≡ OutOfMemory };

    fn from(_error: AllocFailed<T>) -> ScopeReason {
        ScopeReason::OutOfMemory
    }
}

/// Want of memory: what is called here refuses nothing else.
impl From<VortexError> for ScopeReason {
    ghost from_gives = { λ _ e. e ≡ OutOfMemory };

    fn from(_error: VortexError) -> ScopeReason {
        ScopeReason::OutOfMemory
    }
}

/// Why a text declares no columns, and where: by its line and its character in that line, both
/// counted from 1, with what stands there. Want of memory is at no place.
#[derive(Drop)]
pub struct DeclarationError {
    pub reason: ScopeReason,
    pub line: usize,
    pub column: usize,
    pub(crate) found: String,
}

impl ScopeReason {
    /// What was expected, where no column goes on.
    fn expected(self) -> &'static str {
        match self {
            ScopeReason::NoName => "the name of a column, or its place and as",
            ScopeReason::NoAs => "as and a name after the place of a column",
            ScopeReason::NoType => "a type after the name, as i64, utf8? or decimal(12,2)",
            _ => "a comma or the end",
        }
    }
}

impl DeclarationError {
    /// Where the mark of null goes, where it stands apart.
    fn nullable_hint(&self) -> &'static str {
        if self.found.as_str() == "\"?\"" {
            "; a type has null with ? right behind its word: i64?, decimal?(12,2)"
        } else {
            ""
        }
    }
}

/// `line 1, column 9: ..`, and what was found and expected there, in one line.
impl fmt::Display for DeclarationError {
    fn fmt<W: fmt::Write>(&self, f: &mut fmt::Formatter<W>) -> fmt::Result {
        let (line, column, found) = (self.line, self.column, self.found.as_str());
        if self.reason == ScopeReason::OutOfMemory {
            return f.write_str("out of memory");
        }
        write!(f, "line {line}, column {column}: ")?;
        match self.reason {
            ScopeReason::NoToken => {
                write!(f, "no word and no sign begins with {found}")?;
                f.write_str(self.nullable_hint())
            }
            ScopeReason::UnknownType => {
                write!(
                    f,
                    "no type {found}; types are bool, utf8, i8, i16, i32, i64, u8, u16, u32, u64, "
                )?;
                f.write_str(
                    "f32, f64, date, timestamp and decimal(p,s) of p digits, 1 to 18, s of ",
                )?;
                f.write_str(
                    "them after the point, or SQL's int, text, ..; with ? where they have null: ",
                )?;
                f.write_str("f64?, decimal?(p,s)")
            }
            ScopeReason::NoPlace => {
                write!(
                    f,
                    "no column has the place {found}; the first is 1, the last {MOST_COLUMNS}"
                )
            }
            ScopeReason::NameTwice => write!(f, "column {found} is declared twice"),
            ScopeReason::NotUtf8 => f.write_str("a name is not UTF-8"),
            reason => {
                let expected = reason.expected();
                write!(f, "found {found}, expected {expected}")
            }
        }
    }
}
