//! The names and the ranges of the integer types.
ghost use Rattle.std.specs.Prelude.{◌≡◌, ◌↔◌, IsTrue};

use super::PType;
use std::fmt;

impl PType {
    ghost use Rattle.vortex_types.specs.Typing.{FitsPType};
    ghost use Rattle.vortex_types.specs.TypeTexts.{ptype_text};

    /// The type's name, as Rust writes it: `i8` to `u64`.
    pub fn text(&self) -> &'static str
        ensures { result.now ≡ ptype_text self.now }
    {
        match self {
            PType::I8 => "i8",
            PType::I16 => "i16",
            PType::I32 => "i32",
            PType::I64 => "i64",
            PType::U8 => "u8",
            PType::U16 => "u16",
            PType::U32 => "u32",
            PType::U64 => "u64",
        }
    }

    /// Whether a number is in the range of the type.
    pub fn holds(&self, n: i128) -> bool
        ensures { IsTrue result ↔ FitsPType self.now n }
    {
        match self {
            PType::I8 => -128 <= n && n <= 127,
            PType::I16 => -32768 <= n && n <= 32767,
            PType::I32 => -2147483648 <= n && n <= 2147483647,
            PType::I64 => -9223372036854775808 <= n && n <= 9223372036854775807,
            PType::U8 => 0 <= n && n <= 255,
            PType::U16 => 0 <= n && n <= 65535,
            PType::U32 => 0 <= n && n <= 4294967295,
            PType::U64 => 0 <= n && n <= 18446744073709551615,
        }
    }
}

impl fmt::Display for PType {
    ghost use Rattle.std.specs.Prelude.{Some};
    ghost use Rattle.vortex_types.specs.TypeTexts.{ptype_text};

    ghost output = { λ ptype. Some (ptype_text ptype) };

    fn fmt<W: fmt::Write>(&self, f: &mut fmt::Formatter<W>) -> fmt::Result {
        write!(f, "{}", self.text())
    }
}
