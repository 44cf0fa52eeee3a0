//! How many digits a decimal has.
ghost use Rattle.std.specs.Prelude.{◌≡◌, SomeIff};

use std::marker::Model;

/// At most `precision` digits, 1 to 18, of which the last `scale` stand after the point.
#[derive(Clone, Copy, Debug, PartialEq, Eq)]
pub struct DecimalDigits {
    precision: u32,
    scale: u32,
}

impl Model for DecimalDigits {
    ghost use Rattle.vortex_logical.specs.Digits.{Digits, AreDigits};

    ghost Value = { Digits };

    ghost view = { λ d. record { precision = d.precision; scale = d.scale } };

    ghost invariant = { λ d. AreDigits (record { precision = d.precision; scale = d.scale }) };

    ghost inverse = { λ d. record { precision = d.precision; scale = d.scale } };
}

impl DecimalDigits {
    ghost use Rattle.vortex_logical.specs.Digits.{AreDigits, digits_of};

    /// None unless there are 1 to 18 digits, and no more after the point.
    pub fn try_new(precision: u32, scale: u32) -> Option<DecimalDigits>
        ensures { SomeIff result
            (AreDigits (digits_of precision scale)) (digits_of precision scale) }
    {
        if 1 <= precision && precision <= 18 && scale <= precision {
            Some(DecimalDigits { precision, scale })
        } else {
            None
        }
    }

    /// How many digits there are at most, 1 to 18.
    pub fn precision(&self) -> u32
        ensures value { result ≡ self.now.precision }
        ensures digits { AreDigits self.now }
    {
        self.precision
    }

    /// How many digits stand after the point, at most the precision.
    pub fn scale(&self) -> u32
        ensures value { result ≡ self.now.scale }
        ensures digits { AreDigits self.now }
    {
        self.scale
    }
}
