//! Kinds of values, by the numbers that callers have for them.
ghost use Rattle.std.specs.Prelude.{◌≡◌, MatchOption, slice_get, None, Some};
ghost use Rattle.vortex_types.specs.TypeOf.{type_of, allows_null};
ghost use Rattle.vortex_types.specs.LogicalTypes.{is_nullable};
ghost use Rattle.yurkije_columns.specs.Kinds.{kind_numbered, kind_type, type_number, integer_number};
ghost use Rattle.yurkije_columns.specs.Kinds.{decimal_numbered, decimal_number, kind_number, number_at};
ghost use Rattle.yurkije_columns.specs.Kinds.{logical_number, logical_kind, reported_number};
ghost use Rattle.yurkije_columns.specs.Kinds.{decimal_or_plain};

use vortex_columns::{DType, Nullability, PType};
use vortex_logical::digits::DecimalDigits;
use vortex_logical::kind::Kind as LogicalKind;

/// A kind of values, and the layout of a column of them.
#[derive(Clone, Copy, Debug, PartialEq, Eq)]
pub enum Kind {
    Bool,
    I8,
    I16,
    I32,
    I64,
    U8,
    U16,
    U32,
    U64,
    /// Texts by offsets of 32 bits.
    Utf8,
    /// Texts by offsets of 64 bits.
    LargeUtf8,
    /// Texts by views of 16 bytes.
    Utf8View,
    /// Byte strings, likewise.
    Binary,
    LargeBinary,
    BinaryView,
    /// Floats of 64 bits, whose patterns lie in the slice of `i64`.
    F64,
    /// Floats of 32 bits, whose patterns lie in the slice of `i32`.
    F32,
    /// Days since 1970-01-01, as `i32`.
    Date,
    /// Microseconds since 1970-01-01T00:00:00, as `i64`.
    Timestamp,
    /// Decimals of at most so many digits, the last `scale` of them after the point: the integers
    /// of their digits without the point, as `i64`.
    Decimal { precision: u8, scale: u8 },
}

/// The type of an answer or of a field, as C has it.
#[repr(C)]
#[derive(Clone, Copy, Drop)]
pub struct Type {
    /// The number of its kind: 10 of texts, 13 of byte strings, from 16 on of floats, dates,
    /// timestamps and decimals, and 0 of a type that has no kind.
    pub kind: u32,
    pub nullable: bool,
}

/// The kind of decimals that has that number: 20, 256 for each digit, and 65,536 for each that
/// stands after the point.
fn decimal_numbered(number: u32) -> Option<Kind>
    ensures { result ≡ decimal_numbered number }
{
    let precision = number / 256 % 256;
    let scale = number / 65536;
    if number % 256 == 20 && 1 <= precision && precision <= 18 && scale <= precision {
        Some(Kind::Decimal {
            precision: precision as u8,
            scale: scale as u8,
        })
    } else {
        None
    }
}

/// The kind of that number, from 1 on; none where no kind has it.
pub fn kind_numbered(number: u32) -> Option<Kind>
    ensures { result ≡ kind_numbered number }
{
    if number >= 20 {
        return decimal_numbered(number);
    }
    match number {
        1 => Some(Kind::Bool),
        2 => Some(Kind::I8),
        3 => Some(Kind::I16),
        4 => Some(Kind::I32),
        5 => Some(Kind::I64),
        6 => Some(Kind::U8),
        7 => Some(Kind::U16),
        8 => Some(Kind::U32),
        9 => Some(Kind::U64),
        10 => Some(Kind::Utf8),
        11 => Some(Kind::LargeUtf8),
        12 => Some(Kind::Utf8View),
        13 => Some(Kind::Binary),
        14 => Some(Kind::LargeBinary),
        15 => Some(Kind::BinaryView),
        16 => Some(Kind::F64),
        17 => Some(Kind::F32),
        18 => Some(Kind::Date),
        19 => Some(Kind::Timestamp),
        _ => None,
    }
}

/// Whether null is one of the values.
pub(crate) fn nullability(nullable: bool) -> Nullability
    ensures { allows_null result ≡ nullable }
{
    if nullable {
        Nullability::Nullable
    } else {
        Nullability::NonNullable
    }
}

impl Kind {
    /// The type of values of the kind.
    pub fn dtype(self, nullable: bool) -> DType
        ensures { type_of result ≡ kind_type self nullable }
    {
        let nullability = nullability(nullable);
        match self {
            Kind::Bool => DType::Bool(nullability),
            Kind::I8 => DType::Primitive(PType::I8, nullability),
            Kind::I16 => DType::Primitive(PType::I16, nullability),
            Kind::I32 => DType::Primitive(PType::I32, nullability),
            Kind::I64 => DType::Primitive(PType::I64, nullability),
            Kind::U8 => DType::Primitive(PType::U8, nullability),
            Kind::U16 => DType::Primitive(PType::U16, nullability),
            Kind::U32 => DType::Primitive(PType::U32, nullability),
            Kind::U64 => DType::Primitive(PType::U64, nullability),
            Kind::Utf8 | Kind::LargeUtf8 | Kind::Utf8View => DType::Utf8(nullability),
            Kind::Binary | Kind::LargeBinary | Kind::BinaryView => DType::Binary(nullability),
            Kind::F32 | Kind::Date => DType::Primitive(PType::I32, nullability),
            Kind::F64 | Kind::Timestamp => DType::Primitive(PType::I64, nullability),
            Kind::Decimal { .. } => DType::Primitive(PType::I64, nullability),
        }
    }

    /// The number of what the values mean; 0 where that is what their type says.
    pub fn logical_number(self) -> u32
        ensures { result ≡ logical_number self }
    {
        match self {
            Kind::F64 => 16,
            Kind::F32 => 17,
            Kind::Date => 18,
            Kind::Timestamp => 19,
            Kind::Decimal { precision, scale } => decimal_number(precision, scale),
            _ => 0,
        }
    }

    /// What the values mean.
    pub fn logical_kind(self) -> LogicalKind
        ensures { result ≡ logical_kind self }
    {
        match self {
            Kind::F64 => LogicalKind::F64,
            Kind::F32 => LogicalKind::F32,
            Kind::Date => LogicalKind::Date,
            Kind::Timestamp => LogicalKind::Timestamp,
            Kind::Decimal { precision, scale } => decimal_or_plain(precision, scale),
            _ => LogicalKind::Plain,
        }
    }
}

/// The number of the kind of decimals of so many digits.
pub(crate) fn decimal_number(precision: u8, scale: u8) -> u32
    ensures { result ≡ decimal_number precision scale }
{
    20 + 256 * precision as u32 + 65536 * scale as u32
}

/// Decimals of so many digits, if there are such.
fn decimal_or_plain(precision: u8, scale: u8) -> LogicalKind
    ensures { result ≡ decimal_or_plain precision scale }
{
    match DecimalDigits::try_new(precision as u32, scale as u32) {
        Some(digits) => LogicalKind::Decimal(digits),
        None => LogicalKind::Plain,
    }
}

/// The number of what values mean; 0 where that is what their type says.
pub fn kind_number(kind: &LogicalKind) -> u32
    ensures { result ≡ kind_number kind.now }
{
    match kind {
        LogicalKind::Plain => 0,
        LogicalKind::F64 => 16,
        LogicalKind::F32 => 17,
        LogicalKind::Date => 18,
        LogicalKind::Timestamp => 19,
        LogicalKind::Decimal(digits) => 20 + 256 * digits.precision() + 65536 * digits.scale(),
    }
}

/// The kind at a place in a list.
fn listed_kind(kinds: &[LogicalKind], place: usize) -> Option<&LogicalKind>
    ensures { MatchOption result (slice_get kinds.now place ≡ None)
        (λ k. slice_get kinds.now place ≡ Some k.now) }
{
    kinds.get(place)
}

/// The number of what the values at a place mean. Those behind the list are plain.
pub fn number_at(kinds: &[LogicalKind], place: usize) -> u32
    ensures { result ≡ number_at kinds.now place }
{
    match listed_kind(kinds, place) {
        Some(kind) => kind_number(kind),
        None => 0,
    }
}

/// The number of the kind of integers of a type.
fn integer_number(ptype: PType) -> u32
    ensures { result ≡ integer_number ptype }
{
    match ptype {
        PType::I8 => 2,
        PType::I16 => 3,
        PType::I32 => 4,
        PType::I64 => 5,
        PType::U8 => 6,
        PType::U16 => 7,
        PType::U32 => 8,
        PType::U64 => 9,
    }
}

/// The number of the first kind of that type; 0 where it has none.
fn type_number(dtype: &DType) -> u32
    ensures { result ≡ type_number (type_of dtype.now) }
{
    match dtype {
        DType::Bool(_) => 1,
        DType::Primitive(ptype, _) => integer_number(*ptype),
        DType::Utf8(_) => 10,
        DType::Binary(_) => 13,
        _ => 0,
    }
}

/// What is told of a type whose values have the meaning of that number; 0 where that is what the
/// type says.
pub fn reported_type(number: u32, dtype: &DType) -> Type
    ensures kind { result.kind ≡ reported_number number (type_of dtype.now) }
    ensures nullable { result.nullable ≡ is_nullable (type_of dtype.now) }
{
    Type {
        kind: if number == 0 {
            type_number(dtype)
        } else {
            number
        },
        nullable: dtype.is_nullable(),
    }
}
