//! The kinds that texts are cast to, and those that are cast to texts.
ghost use Rattle.std.specs.Prelude.{◌≡◌};
ghost use Rattle.vortex_sql_kind_texts.specs.StoredKinds as specs;

use vortex_columns::PType;
use vortex_logical::kind::Kind;
use vortex_sql_rows::faults::RowFault;

/// What a text is cast to, but for decimals, which `TextToDecimal` has.
#[derive(Clone, Copy, Debug, PartialEq, Eq)]
pub enum StoredKind {
    Date,
    Timestamp,
    F64,
    F32,
}

/// What is cast to a text, but for decimals, which `DecimalToText` has, and floats (`FloatToText`).
#[derive(Clone, Copy, Debug, PartialEq, Eq)]
pub enum WrittenKind {
    Date,
    Timestamp,
}

impl StoredKind {
    pub fn kind(self) -> Kind
        ensures { result ≡ specs.kind_of self }
    {
        match self {
            StoredKind::Date => Kind::Date,
            StoredKind::Timestamp => Kind::Timestamp,
            StoredKind::F64 => Kind::F64,
            StoredKind::F32 => Kind::F32,
        }
    }

    /// The type of the stored integers.
    pub fn ptype(self) -> PType
        ensures { result ≡ specs.ptype_of self }
    {
        match self {
            StoredKind::Date => PType::I32,
            StoredKind::Timestamp => PType::I64,
            StoredKind::F64 => PType::I64,
            StoredKind::F32 => PType::I32,
        }
    }

    /// The fault of a text that is none of the kind.
    pub fn fault(self) -> RowFault
        ensures { result ≡ specs.fault_of self }
    {
        match self {
            StoredKind::Date => RowFault::NoDate,
            StoredKind::Timestamp => RowFault::NoTimestamp,
            StoredKind::F64 => RowFault::NoFloat,
            StoredKind::F32 => RowFault::NoFloat,
        }
    }
}

impl WrittenKind {
    pub fn kind(self) -> Kind
        ensures { result ≡ specs.written_kind_of self }
    {
        match self {
            WrittenKind::Date => Kind::Date,
            WrittenKind::Timestamp => Kind::Timestamp,
        }
    }

    /// The type of the stored integers.
    pub fn ptype(self) -> PType
        ensures { result ≡ specs.written_ptype_of self }
    {
        match self {
            WrittenKind::Date => PType::I32,
            WrittenKind::Timestamp => PType::I64,
        }
    }

    /// The fault of a stored integer that has no text.
    pub fn fault(self) -> RowFault
        ensures { result ≡ specs.range_fault_of self }
    {
        match self {
            WrittenKind::Date => RowFault::DateRange,
            WrittenKind::Timestamp => RowFault::TimestampRange,
        }
    }
}
