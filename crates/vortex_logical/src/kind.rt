//! The kinds of logical types, the types that store them, and their names.
ghost use Rattle.std.specs.Prelude.{◌≡◌};
ghost use Rattle.vortex_logical.specs.Kinds.{kind_named, decimal_named, digits_named, decimal_kind};
ghost use Rattle.vortex_logical.specs.Kinds.{digit_of, teen_of, NamesAreReadBack};

use crate::digits::DecimalDigits;
use std::fmt;
use vortex_types::{DType, Nullability, PType};

/// What the values of a stored column mean.
#[derive(Clone, Copy, Debug, PartialEq, Eq)]
pub enum Kind {
    /// What the stored column has itself.
    Plain,
    /// Days since 1970-01-01.
    Date,
    /// Microseconds since 1970-01-01T00:00:00.
    Timestamp,
    /// A number of so many digits, as the integer of its digits without the point.
    Decimal(DecimalDigits),
    /// A float of 64 bits, as `keys` has it.
    F64,
    /// A float of 32 bits.
    F32,
}

impl Kind {
    ghost use Rattle.std.specs.Option.{option_map};
    ghost use Rattle.vortex_types.specs.TypeOf.{allows_null, type_of};
    ghost use Rattle.vortex_logical.specs.Kinds.{stored_ptype, stored_type, decimal_digits};

    /// The integer type of the stored values; none of a plain column, which has a type of its own.
    pub fn stored_ptype(&self) -> Option<PType>
        ensures { result ≡ stored_ptype self.now }
    {
        match self {
            Kind::Plain => None,
            Kind::Date | Kind::F32 => Some(PType::I32),
            Kind::Timestamp | Kind::Decimal(_) | Kind::F64 => Some(PType::I64),
        }
    }

    /// The digits of a decimal.
    pub fn decimal_digits(&self) -> Option<DecimalDigits>
        ensures { result ≡ decimal_digits self.now }
    {
        match self {
            Kind::Decimal(digits) => Some(*digits),
            _ => None,
        }
    }

    /// The type of the stored column.
    pub fn stored_type(&self, nullability: Nullability) -> Option<DType>
        ensures { option_map (λ t. type_of t) result
            ≡ stored_type self.now (allows_null nullability) }
    {
        let ptype = self.stored_ptype()?;
        Some(DType::Primitive(ptype, nullability))
    }
}

impl fmt::Display for Kind {
    ghost use Rattle.std.specs.Prelude.{Some};
    ghost use Rattle.vortex_logical.specs.Kinds.{kind_name};

    ghost output = { λ kind. Some (kind_name kind) };

    fn fmt<W: fmt::Write>(&self, f: &mut fmt::Formatter<W>) -> fmt::Result {
        match self {
            Kind::Plain => write!(f, "plain"),
            Kind::Date => write!(f, "date"),
            Kind::Timestamp => write!(f, "timestamp"),
            Kind::Decimal(digits) => {
                let precision = digits.precision();
                let scale = digits.scale();
                write!(f, "decimal({precision},{scale})")
            }
            Kind::F64 => write!(f, "f64"),
            Kind::F32 => write!(f, "f32"),
        }
    }
}

fn read_digit(byte: u8) -> Option<u32>
    ensures { result ≡ digit_of byte }
{
    if byte.is_ascii_digit() {
        Some((byte - b'0') as u32)
    } else {
        None
    }
}

/// A number from 10 to 19.
fn read_teen(ten: u8, byte: u8) -> Option<u32>
    ensures { result ≡ teen_of ten byte }
{
    if ten == b'1' {
        Some(10 + read_digit(byte)?)
    } else {
        None
    }
}

fn decimal_kind(precision: u32, scale: u32) -> Option<Kind>
    ensures { result ≡ decimal_kind precision scale }
{
    Some(Kind::Decimal(DecimalDigits::try_new(precision, scale)?))
}

/// The kind of what follows `decimal(` in a name.
fn digits_named(bytes: &[u8]) -> Option<Kind>
    ensures { result ≡ digits_named bytes.now }
{
    match bytes {
        [precision, b',', scale, b')'] => decimal_kind(
            read_digit(*precision)?,
            read_digit(*scale)?,
        ),
        [ten, precision, b',', scale, b')'] => {
            decimal_kind(read_teen(*ten, *precision)?, read_digit(*scale)?)
        }
        [ten, precision, b',', tens, scale, b')'] => {
            decimal_kind(read_teen(*ten, *precision)?, read_teen(*tens, *scale)?)
        }
        _ => None,
    }
}

/// The kind of that name: `date`, `timestamp`, `f64`, `f32`, or `decimal` with its digits as in
/// `decimal(12,2)`. A plain column is named by its type, and not here.
pub fn kind_named(name: &str) -> Option<Kind>
    ensures { result ≡ kind_named name.now }
{
    if name == "date" {
        Some(Kind::Date)
    } else if name == "timestamp" {
        Some(Kind::Timestamp)
    } else if name == "f64" {
        Some(Kind::F64)
    } else if name == "f32" {
        Some(Kind::F32)
    } else {
        decimal_named(name.as_bytes())
    }
}

fn decimal_named(name: &[u8]) -> Option<Kind>
    ensures { result ≡ decimal_named name.now }
{
    if name.starts_with(b"decimal(") {
        digits_named(&name[8..])
    } else {
        None
    }
}

/// The name of a kind is read back as the kind.
pub fn names_are_read_back()
    ensures { NamesAreReadBack }
{}
