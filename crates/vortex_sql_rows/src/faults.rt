//! Why a row faults. E10 has the number, and this module its text.
ghost use Rattle.std.specs.Prelude.{◌≡◌, Some};
ghost use Rattle.vortex_sql_rows.specs.Faults.{fault_number, fault_of, fault_text};
ghost use Rattle.vortex_sql_rows.specs.declared.faults.RowFault.TheVariants.{OutOfRange, NoInteger};

use vortex_columns::PType;

/// Why a row of a function faults.
#[derive(Clone, Copy, Debug, PartialEq, Eq)]
pub enum RowFault {
    /// The divisor of `%`, or of a quotient of floats, is zero.
    ZeroDivisor,
    /// The type of an integer has no absolute value of it.
    AbsOverflow,
    /// The length that `substr` is passed is negative.
    NegativeLength,
    /// A text would be longer than a text may be.
    TextTooLong,
    /// The type does not have the result. No function's result is outside of its type.
    IntegerOutOfRange,
    /// A shift by fewer than zero places, or by as many as the type has bits, or more.
    ShiftCount,
    /// A text in a cast is no truth value.
    NoTruth,
    /// The values are not of the types that the function takes. No call passes such values.
    OtherValues,
    /// The number of the field that `split_part` is passed is zero.
    FieldZero,
    /// A text is no regular expression.
    NoPattern,
    /// The result of a function on finite floats is infinite.
    FloatOverflow,
    /// The result of a function on floats that are not zero is zero.
    FloatUnderflow,
    /// A text in a cast is no date.
    NoDate,
    /// A text in a cast is no timestamp.
    NoTimestamp,
    /// A text in a cast is no float.
    NoFloat,
    /// A text in a cast is no decimal of the scale.
    NoDecimal,
    /// A decimal of the precision does not have the number.
    DecimalDigits,
    /// The calendar of dates does not have the day.
    DateRange,
    /// The calendar of timestamps does not have the time.
    TimestampRange,
    /// The type of a cast does not have the integer.
    OutOfRange(PType),
    /// A text in a cast is no number of the type.
    NoInteger(PType),
}

/// The number of a cast's fault.
fn range_number(ptype: PType) -> u64
    ensures { result ≡ fault_number (OutOfRange ptype) }
{
    match ptype {
        PType::I8 => 11,
        PType::I16 => 12,
        PType::I32 => 13,
        PType::I64 => 14,
        PType::U8 => 15,
        PType::U16 => 16,
        PType::U32 => 17,
        PType::U64 => 18,
    }
}

fn range_text(ptype: PType) -> &'static str
    ensures { result.now ≡ fault_text (OutOfRange ptype) }
{
    match ptype {
        PType::I8 => "integer out of range in cast to i8",
        PType::I16 => "integer out of range in cast to i16",
        PType::I32 => "integer out of range in cast to i32",
        PType::I64 => "integer out of range in cast to i64",
        PType::U8 => "integer out of range in cast to u8",
        PType::U16 => "integer out of range in cast to u16",
        PType::U32 => "integer out of range in cast to u32",
        PType::U64 => "integer out of range in cast to u64",
    }
}

/// The number of the fault of a text in a cast.
fn cast_number(ptype: PType) -> u64
    ensures { result ≡ fault_number (NoInteger ptype) }
{
    match ptype {
        PType::I8 => 21,
        PType::I16 => 22,
        PType::I32 => 23,
        PType::I64 => 24,
        PType::U8 => 25,
        PType::U16 => 26,
        PType::U32 => 27,
        PType::U64 => 28,
    }
}

fn cast_text(ptype: PType) -> &'static str
    ensures { result.now ≡ fault_text (NoInteger ptype) }
{
    match ptype {
        PType::I8 => "text that is no i8 number in cast",
        PType::I16 => "text that is no i16 number in cast",
        PType::I32 => "text that is no i32 number in cast",
        PType::I64 => "text that is no i64 number in cast",
        PType::U8 => "text that is no u8 number in cast",
        PType::U16 => "text that is no u16 number in cast",
        PType::U32 => "text that is no u32 number in cast",
        PType::U64 => "text that is no u64 number in cast",
    }
}

impl RowFault {
    /// The number that E10 has.
    pub fn number(self) -> u64
        ensures { result ≡ fault_number self }
    {
        match self {
            RowFault::ZeroDivisor => 1,
            RowFault::AbsOverflow => 2,
            RowFault::NegativeLength => 3,
            RowFault::TextTooLong => 4,
            RowFault::IntegerOutOfRange => 5,
            RowFault::ShiftCount => 6,
            RowFault::NoTruth => 7,
            RowFault::OtherValues => 8,
            RowFault::FieldZero => 9,
            RowFault::NoPattern => 10,
            RowFault::FloatOverflow => 19,
            RowFault::FloatUnderflow => 20,
            RowFault::NoDate => 31,
            RowFault::NoTimestamp => 32,
            RowFault::NoFloat => 33,
            RowFault::NoDecimal => 34,
            RowFault::DecimalDigits => 35,
            RowFault::DateRange => 36,
            RowFault::TimestampRange => 37,
            RowFault::OutOfRange(ptype) => range_number(ptype),
            RowFault::NoInteger(ptype) => cast_number(ptype),
        }
    }

    /// The fault with that number.
    pub fn of_number(number: u64) -> Option<RowFault>
        ensures { result ≡ fault_of number }
    {
        match number {
            1 => Some(RowFault::ZeroDivisor),
            2 => Some(RowFault::AbsOverflow),
            3 => Some(RowFault::NegativeLength),
            4 => Some(RowFault::TextTooLong),
            5 => Some(RowFault::IntegerOutOfRange),
            6 => Some(RowFault::ShiftCount),
            7 => Some(RowFault::NoTruth),
            8 => Some(RowFault::OtherValues),
            9 => Some(RowFault::FieldZero),
            10 => Some(RowFault::NoPattern),
            11 => Some(RowFault::OutOfRange(PType::I8)),
            12 => Some(RowFault::OutOfRange(PType::I16)),
            13 => Some(RowFault::OutOfRange(PType::I32)),
            14 => Some(RowFault::OutOfRange(PType::I64)),
            15 => Some(RowFault::OutOfRange(PType::U8)),
            16 => Some(RowFault::OutOfRange(PType::U16)),
            17 => Some(RowFault::OutOfRange(PType::U32)),
            18 => Some(RowFault::OutOfRange(PType::U64)),
            19 => Some(RowFault::FloatOverflow),
            20 => Some(RowFault::FloatUnderflow),
            21 => Some(RowFault::NoInteger(PType::I8)),
            22 => Some(RowFault::NoInteger(PType::I16)),
            23 => Some(RowFault::NoInteger(PType::I32)),
            24 => Some(RowFault::NoInteger(PType::I64)),
            25 => Some(RowFault::NoInteger(PType::U8)),
            26 => Some(RowFault::NoInteger(PType::U16)),
            27 => Some(RowFault::NoInteger(PType::U32)),
            28 => Some(RowFault::NoInteger(PType::U64)),
            31 => Some(RowFault::NoDate),
            32 => Some(RowFault::NoTimestamp),
            33 => Some(RowFault::NoFloat),
            34 => Some(RowFault::NoDecimal),
            35 => Some(RowFault::DecimalDigits),
            36 => Some(RowFault::DateRange),
            37 => Some(RowFault::TimestampRange),
            _ => None,
        }
    }

    /// The fault in words, for messages.
    pub fn text(self) -> &'static str
        ensures { result.now ≡ fault_text self }
    {
        match self {
            RowFault::ZeroDivisor => "division by zero",
            RowFault::AbsOverflow => "integer overflow in abs",
            RowFault::NegativeLength => "negative length in substr",
            RowFault::TextTooLong => "text of more than 4294967295 bytes",
            RowFault::IntegerOutOfRange => "integer out of range",
            RowFault::ShiftCount => {
                "shift by a count that is not from 0 to the bits of the type less 1"
            }
            RowFault::NoTruth => "text that is no truth value in cast to bool",
            RowFault::OtherValues => "values of other types than the function takes",
            RowFault::FieldZero => "field 0 in split_part, where the first field is 1",
            RowFault::NoPattern => "text that is no regular expression",
            RowFault::FloatOverflow => "value out of range: overflow",
            RowFault::FloatUnderflow => "value out of range: underflow",
            RowFault::NoDate => "text that is no date in cast",
            RowFault::NoTimestamp => "text that is no timestamp in cast",
            RowFault::NoFloat => "text that is no f64 number in cast",
            RowFault::NoDecimal => "text that is no decimal of that scale in cast",
            RowFault::DecimalDigits => "number of more digits than the decimal has in cast",
            RowFault::DateRange => "date out of range",
            RowFault::TimestampRange => "timestamp out of range",
            RowFault::OutOfRange(ptype) => range_text(ptype),
            RowFault::NoInteger(ptype) => cast_text(ptype),
        }
    }
}

/// A fault is read back from its number.
pub fn numbers_tell_faults(fault: RowFault)
    ensures { fault_of (fault_number fault) ≡ Some fault }
{
    match fault {
        RowFault::ZeroDivisor => {}
        RowFault::AbsOverflow => {}
        RowFault::NegativeLength => {}
        RowFault::TextTooLong => {}
        RowFault::IntegerOutOfRange => {}
        RowFault::ShiftCount => {}
        RowFault::NoTruth => {}
        RowFault::OtherValues => {}
        RowFault::FieldZero => {}
        RowFault::NoPattern => {}
        RowFault::FloatOverflow => {}
        RowFault::FloatUnderflow => {}
        RowFault::NoDate => {}
        RowFault::NoTimestamp => {}
        RowFault::NoFloat => {}
        RowFault::NoDecimal => {}
        RowFault::DecimalDigits => {}
        RowFault::DateRange => {}
        RowFault::TimestampRange => {}
        RowFault::OutOfRange(PType::I8) => {}
        RowFault::OutOfRange(PType::I16) => {}
        RowFault::OutOfRange(PType::I32) => {}
        RowFault::OutOfRange(PType::I64) => {}
        RowFault::OutOfRange(PType::U8) => {}
        RowFault::OutOfRange(PType::U16) => {}
        RowFault::OutOfRange(PType::U32) => {}
        RowFault::OutOfRange(PType::U64) => {}
        RowFault::NoInteger(PType::I8) => {}
        RowFault::NoInteger(PType::I16) => {}
        RowFault::NoInteger(PType::I32) => {}
        RowFault::NoInteger(PType::I64) => {}
        RowFault::NoInteger(PType::U8) => {}
        RowFault::NoInteger(PType::U16) => {}
        RowFault::NoInteger(PType::U32) => {}
        RowFault::NoInteger(PType::U64) => {}
    }
}
