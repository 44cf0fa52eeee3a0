//! Floats of 64 and of 32 bits: their patterns, and how their texts are laid out.
ghost use Rattle.std.specs.Prelude.{◌≡◌, ◌≤◌, ◌<◌};
ghost use Rattle.vortex_float_texts.specs.Widths as specs;

use vortex_logical::kind::Kind;

/// Floats of 64 or of 32 bits.
#[derive(Clone, Copy, Debug, PartialEq, Eq)]
pub enum Width {
    F64,
    F32,
}

impl Width {
    pub fn kind(self) -> Kind
        ensures { result ≡ specs.kind_of self }
    {
        match self {
            Width::F64 => Kind::F64,
            Width::F32 => Kind::F32,
        }
    }

    /// The pattern of the infinity.
    pub(crate) fn infinity(self) -> u64
        ensures { result ≡ specs.infinity self }
    {
        match self {
            Width::F64 => 9_218_868_437_227_405_312,
            Width::F32 => 2_139_095_040,
        }
    }

    /// The least pattern with a significand of all its bits.
    pub(crate) fn hidden(self) -> u64
        ensures value { result ≡ specs.hidden self }
        ensures some { 0 < result }
    {
        match self {
            Width::F64 => 4_503_599_627_370_496,
            Width::F32 => 8_388_608,
        }
    }

    /// How much larger its least exponent is than that of 64 bits.
    pub(crate) fn least(self) -> u64
        ensures { result ≡ specs.least self }
    {
        match self {
            Width::F64 => 0,
            Width::F32 => 925,
        }
    }

    /// How many digits stand before a point, at most, without an exponent.
    pub(crate) fn whole_digits(self) -> u64
        ensures value { result ≡ specs.whole_digits self }
        ensures few { result ≤ 16 }
    {
        match self {
            Width::F64 => 16,
            Width::F32 => 13,
        }
    }

    /// How many zeros stand after a point, at most, without an exponent.
    pub(crate) fn leading_zeros(self) -> u64
        ensures value { result ≡ specs.leading_zeros self }
        ensures few { result ≤ 5 }
    {
        match self {
            Width::F64 => 4,
            Width::F32 => 5,
        }
    }

    /// How many digits are left out, at most.
    pub(crate) fn places(self) -> u32
        ensures value { result ≡ specs.places self }
        ensures few { result ≤ 18 }
    {
        match self {
            Width::F64 => 18,
            Width::F32 => 10,
        }
    }
}
