//! Division of numbers of up to 16 bits by one number, by multiplication with its inverse in lanes of
//! 16 bits.
ghost use Rattle.std.specs.Prelude.{◌≡◌, ◌+◌, ◌*◌, ◌/◌, ◌<◌, ◌≤◌, ◌^◌, pos, int_div, unsigned_abs};
ghost use Rattle.vortex_checked.specs.Reciprocal.{IsReciprocal};

/// The position of the highest bit of `divisor - 1`.
fn shift_of_16(divisor: u16) -> u32
    requires { 1 < divisor }
    ensures below { 2 ^ result < divisor }
    ensures most { divisor ≤ 2 * 2 ^ result }
    ensures place { result < 16 }
{
    15 - (divisor - 1).leading_zeros()
}

/// A divisor of numbers of 16 bits, above 1. The inverse has a 17th bit, which is not stored.
#[derive(Clone, Copy)]
pub struct Divisor16 {
    divisor: u16,
    inverse: u16,
    shift: u32,
    ghost some: { 1 < divisor },
    ghost place: { shift < 16 },
    ghost exact: { IsReciprocal (2 ^ 16) (2 ^ 17 * 2 ^ shift) divisor (2 ^ 16 + inverse) },
}

impl Divisor16 {
    pub fn new(divisor: u16) -> Divisor16
        requires { 1 < divisor }
        ensures { result.divisor ≡ divisor }
    {
        let shift = shift_of_16(divisor);
        let wide = u32::from(divisor);
        let scaled = ((2u32 << shift) - wide) << 16;
        let inverse = ((scaled + (wide - 1)) / wide) as u16;
        Divisor16 {
            divisor,
            inverse,
            shift,
        }
    }

    #[inline(always)]
    pub fn quotient(&self, number: u16) -> u16
        ensures { result ≡ number / self.now.divisor }
    {
        let high = ((u32::from(number) * u32::from(self.inverse)) >> 16) as u16;
        (high + (number - high) / 2) >> self.shift
    }
}

/// A divisor above 1 of sizes up to `2 ^ 15`.
#[derive(Clone, Copy)]
pub struct SizeDivisor16 {
    divisor: u16,
    inverse: u16,
    shift: u32,
    ghost some: { 1 < divisor },
    ghost place: { shift < 16 },
    ghost exact: { IsReciprocal (2 ^ 15 + 1) (2 ^ 16 * 2 ^ shift) divisor inverse },
}

impl SizeDivisor16 {
    pub fn new(divisor: u16) -> SizeDivisor16
        requires some { 1 < divisor }
        requires most { divisor ≤ 2 ^ 15 }
        ensures { result.divisor ≡ divisor }
    {
        let shift = shift_of_16(divisor);
        let wide = u32::from(divisor);
        let inverse = ((((1u32 << shift) << 16) + (wide - 1)) / wide) as u16;
        SizeDivisor16 {
            divisor,
            inverse,
            shift,
        }
    }

    #[inline(always)]
    pub fn quotient(&self, number: u16) -> u16
        requires { number ≤ 2 ^ 15 }
        ensures { result ≡ number / self.now.divisor }
    {
        (((u32::from(number) * u32::from(self.inverse)) >> 16) as u16) >> self.shift
    }
}

/// A divisor of signed numbers of 16 bits: not 0, 1 or -1. Quotients are truncated toward zero.
#[derive(Clone, Copy)]
pub struct SignedDivisor16 {
    divisor: i16,
    size: SizeDivisor16,
    ghost same: { size.divisor ≡ unsigned_abs divisor },
}

impl SignedDivisor16 {
    pub fn new(divisor: i16) -> SignedDivisor16
        requires { 1 < unsigned_abs divisor }
        ensures { result.divisor ≡ divisor }
    {
        SignedDivisor16 {
            divisor,
            size: SizeDivisor16::new(divisor.unsigned_abs()),
        }
    }

    #[inline(always)]
    pub fn quotient(&self, number: i16) -> i16
        ensures { result ≡ int_div number self.now.divisor }
    {
        let size = self.size.quotient(number.unsigned_abs()) as i16;
        if (number < 0) == (self.divisor < 0) {
            size
        } else {
            -size
        }
    }
}
