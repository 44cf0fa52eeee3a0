//! Readers of texts as stored integers, one for each kind.
ghost use Rattle.std.specs.Prelude.{◌≡◌, option_map};
ghost use Rattle.vortex_logical.specs.Cells.{stored_of_text};

use vortex_columns::NativePType;
use vortex_logical::dates::read_date;
use vortex_logical::decimals::read_decimal;
use vortex_logical::digits::DecimalDigits;
use vortex_logical::keys::{key_of_f32, key_of_f64};
use vortex_logical::timestamps::read_timestamp;

/// Reads the texts of one kind as the integers that stand for them.
pub(crate) trait KindReader<T: NativePType> {
    ghost use Rattle.vortex_logical.specs.declared.kind.Kind.{Kind};

    ghost kind: { Self → Kind };

    /// The integer of a text; none if it is no text of the kind.
    fn read(&self, text: &[u8]) -> Option<T>
        ensures { option_map T.number result ≡ stored_of_text (kind self.now) text.now };
}

#[derive(Clone, Copy)]
pub(crate) struct Dates {}

#[derive(Clone, Copy)]
pub(crate) struct Timestamps {}

#[derive(Clone, Copy)]
pub(crate) struct Decimals {
    pub(crate) digits: DecimalDigits,
}

/// Floats of 64 bits.
#[derive(Clone, Copy)]
pub(crate) struct WideFloats {}

/// Floats of 32 bits.
#[derive(Clone, Copy)]
pub(crate) struct ShortFloats {}

impl KindReader<i32> for Dates {
    ghost use Rattle.vortex_logical.specs.declared.kind.Kind.TheVariants.{Date};

    ghost kind = { λ _. Date };

    #[inline(always)]
    fn read(&self, text: &[u8]) -> Option<i32> {
        read_date(text)
    }
}

impl KindReader<i64> for Timestamps {
    ghost use Rattle.vortex_logical.specs.declared.kind.Kind.TheVariants.{Timestamp};

    ghost kind = { λ _. Timestamp };

    #[inline(always)]
    fn read(&self, text: &[u8]) -> Option<i64> {
        read_timestamp(text)
    }
}

impl KindReader<i64> for Decimals {
    ghost use Rattle.vortex_logical.specs.declared.kind.Kind.TheVariants.{Decimal};

    ghost kind = { λ reader. Decimal reader.digits };

    #[inline(always)]
    fn read(&self, text: &[u8]) -> Option<i64> {
        read_decimal(self.digits, text)
    }
}

impl KindReader<i64> for WideFloats {
    ghost use Rattle.vortex_logical.specs.declared.kind.Kind.TheVariants.{F64};

    ghost kind = { λ _. F64 };

    #[inline(always)]
    fn read(&self, text: &[u8]) -> Option<i64> {
        match fast_float::parse::<f64, &[u8]>(text) {
            Ok(float) => Some(key_of_f64(float)),
            Err(_) => None,
        }
    }
}

impl KindReader<i32> for ShortFloats {
    ghost use Rattle.vortex_logical.specs.declared.kind.Kind.TheVariants.{F32};

    ghost kind = { λ _. F32 };

    #[inline(always)]
    fn read(&self, text: &[u8]) -> Option<i32> {
        match fast_float::parse::<f32, &[u8]>(text) {
            Ok(float) => Some(key_of_f32(float)),
            Err(_) => None,
        }
    }
}
