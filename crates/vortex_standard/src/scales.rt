//! How many digits of a decimal are after the point.
ghost use Rattle.std.specs.Prelude.{◌≡◌, Some, ℕ};
ghost use Rattle.vortex_standard.specs.Scales.{scale_number, scale_of};

/// How many digits of a decimal are after the point: 0 to 18.
#[derive(Clone, Copy, Debug, PartialEq, Eq)]
pub enum DecimalScale {
    S0,
    S1,
    S2,
    S3,
    S4,
    S5,
    S6,
    S7,
    S8,
    S9,
    S10,
    S11,
    S12,
    S13,
    S14,
    S15,
    S16,
    S17,
    S18,
}

impl DecimalScale {
    /// The number of digits.
    pub fn number(self) -> u8
        ensures { result ≡ scale_number self }
    {
        match self {
            DecimalScale::S0 => 0,
            DecimalScale::S1 => 1,
            DecimalScale::S2 => 2,
            DecimalScale::S3 => 3,
            DecimalScale::S4 => 4,
            DecimalScale::S5 => 5,
            DecimalScale::S6 => 6,
            DecimalScale::S7 => 7,
            DecimalScale::S8 => 8,
            DecimalScale::S9 => 9,
            DecimalScale::S10 => 10,
            DecimalScale::S11 => 11,
            DecimalScale::S12 => 12,
            DecimalScale::S13 => 13,
            DecimalScale::S14 => 14,
            DecimalScale::S15 => 15,
            DecimalScale::S16 => 16,
            DecimalScale::S17 => 17,
            DecimalScale::S18 => 18,
        }
    }

    /// The scale of that many digits, if they are at most 18.
    pub fn of_number(number: u32) -> Option<DecimalScale>
        ensures { result ≡ scale_of number }
    {
        match number {
            0 => Some(DecimalScale::S0),
            1 => Some(DecimalScale::S1),
            2 => Some(DecimalScale::S2),
            3 => Some(DecimalScale::S3),
            4 => Some(DecimalScale::S4),
            5 => Some(DecimalScale::S5),
            6 => Some(DecimalScale::S6),
            7 => Some(DecimalScale::S7),
            8 => Some(DecimalScale::S8),
            9 => Some(DecimalScale::S9),
            10 => Some(DecimalScale::S10),
            11 => Some(DecimalScale::S11),
            12 => Some(DecimalScale::S12),
            13 => Some(DecimalScale::S13),
            14 => Some(DecimalScale::S14),
            15 => Some(DecimalScale::S15),
            16 => Some(DecimalScale::S16),
            17 => Some(DecimalScale::S17),
            18 => Some(DecimalScale::S18),
            _ => None,
        }
    }
}

/// A scale is that of its number, and no other number's.
#[tactic(auto, using(crate::specs::Scales::scale_back, crate::specs::Scales::number_back))]
pub fn numbers_are_scales()
    ensures back { (s : DecimalScale) → scale_of (scale_number s) ≡ Some s }
    ensures only { (n : ℕ) (s : DecimalScale) → scale_of n ≡ Some s → scale_number s ≡ n }
{}
