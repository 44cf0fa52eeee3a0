//! Division by one number, by multiplication with its inverse.
ghost use Rattle.std.specs.Prelude.{◌≡◌, ◌+◌, ◌*◌, ◌/◌, ◌<◌, ◌≤◌, ◌^◌, pos, int_div, unsigned_abs};
ghost use Rattle.vortex_checked.specs.Reciprocal.{IsReciprocal};

/// The position of the highest bit of `divisor - 1`.
fn shift_of(divisor: u64) -> u32
    requires { 1 < divisor }
    ensures below { 2 ^ result < divisor }
    ensures most { divisor ≤ 2 * 2 ^ result }
    ensures place { result < 64 }
{
    63 - (divisor - 1).leading_zeros()
}

/// The same for 32 bits.
fn shift_of_32(divisor: u32) -> u32
    requires { 1 < divisor }
    ensures below { 2 ^ result < divisor }
    ensures most { divisor ≤ 2 * 2 ^ result }
    ensures place { result < 32 }
{
    31 - (divisor - 1).leading_zeros()
}

/// A divisor of numbers of 64 bits, above 1. The inverse has a 65th bit, which is not stored.
#[derive(Clone, Copy)]
pub struct Divisor64 {
    divisor: u64,
    inverse: u64,
    shift: u32,
    ghost some: { 1 < divisor },
    ghost place: { shift < 64 },
    ghost exact: { IsReciprocal (2 ^ 64) (2 ^ 65 * 2 ^ shift) divisor (2 ^ 64 + inverse) },
}

impl Divisor64 {
    pub fn new(divisor: u64) -> Divisor64
        requires { 1 < divisor }
        ensures { result.divisor ≡ divisor }
    {
        let shift = shift_of(divisor);
        let wide = u128::from(divisor);
        let scaled = ((2u128 << shift) - wide) << 64;
        let inverse = ((scaled + (wide - 1)) / wide) as u64;
        Divisor64 {
            divisor,
            inverse,
            shift,
        }
    }

    #[inline(always)]
    pub fn quotient(&self, number: u64) -> u64
        ensures { result ≡ number / self.now.divisor }
    {
        let high = ((u128::from(number) * u128::from(self.inverse)) >> 64) as u64;
        (high + (number - high) / 2) >> self.shift
    }
}

/// A divisor above 1 of sizes up to `2 ^ 63`.
#[derive(Clone, Copy)]
pub struct SizeDivisor64 {
    divisor: u64,
    inverse: u64,
    shift: u32,
    ghost some: { 1 < divisor },
    ghost place: { shift < 64 },
    ghost exact: { IsReciprocal (2 ^ 63 + 1) (2 ^ 64 * 2 ^ shift) divisor inverse },
}

impl SizeDivisor64 {
    pub fn new(divisor: u64) -> SizeDivisor64
        requires some { 1 < divisor }
        requires most { divisor ≤ 2 ^ 63 }
        ensures { result.divisor ≡ divisor }
    {
        let shift = shift_of(divisor);
        let wide = u128::from(divisor);
        let inverse = ((((1u128 << shift) << 64) + (wide - 1)) / wide) as u64;
        SizeDivisor64 {
            divisor,
            inverse,
            shift,
        }
    }

    #[inline(always)]
    pub fn quotient(&self, number: u64) -> u64
        requires { number ≤ 2 ^ 63 }
        ensures { result ≡ number / self.now.divisor }
    {
        (((u128::from(number) * u128::from(self.inverse)) >> 64) as u64) >> self.shift
    }
}

/// A divisor of numbers of 32 bits, above 1. The inverse has a 33rd bit, which is not stored.
#[derive(Clone, Copy)]
pub struct Divisor32 {
    divisor: u32,
    inverse: u32,
    shift: u32,
    ghost some: { 1 < divisor },
    ghost place: { shift < 32 },
    ghost exact: { IsReciprocal (2 ^ 32) (2 ^ 33 * 2 ^ shift) divisor (2 ^ 32 + inverse) },
}

impl Divisor32 {
    pub fn new(divisor: u32) -> Divisor32
        requires { 1 < divisor }
        ensures { result.divisor ≡ divisor }
    {
        let shift = shift_of_32(divisor);
        let wide = u64::from(divisor);
        let scaled = ((2u64 << shift) - wide) << 32;
        let inverse = ((scaled + (wide - 1)) / wide) as u32;
        Divisor32 {
            divisor,
            inverse,
            shift,
        }
    }

    #[inline(always)]
    pub fn quotient(&self, number: u32) -> u32
        ensures { result ≡ number / self.now.divisor }
    {
        let high = ((u64::from(number) * u64::from(self.inverse)) >> 32) as u32;
        (high + (number - high) / 2) >> self.shift
    }
}

/// A divisor above 1 of sizes up to `2 ^ 31`.
#[derive(Clone, Copy)]
pub struct SizeDivisor32 {
    divisor: u32,
    inverse: u32,
    shift: u32,
    ghost some: { 1 < divisor },
    ghost place: { shift < 32 },
    ghost exact: { IsReciprocal (2 ^ 31 + 1) (2 ^ 32 * 2 ^ shift) divisor inverse },
}

impl SizeDivisor32 {
    pub fn new(divisor: u32) -> SizeDivisor32
        requires some { 1 < divisor }
        requires most { divisor ≤ 2 ^ 31 }
        ensures { result.divisor ≡ divisor }
    {
        let shift = shift_of_32(divisor);
        let wide = u64::from(divisor);
        let inverse = ((((1u64 << shift) << 32) + (wide - 1)) / wide) as u32;
        SizeDivisor32 {
            divisor,
            inverse,
            shift,
        }
    }

    #[inline(always)]
    pub fn quotient(&self, number: u32) -> u32
        requires { number ≤ 2 ^ 31 }
        ensures { result ≡ number / self.now.divisor }
    {
        (((u64::from(number) * u64::from(self.inverse)) >> 32) as u32) >> self.shift
    }
}

/// A divisor of signed numbers of 64 bits: not 0, 1 or -1. Quotients are truncated toward zero.
#[derive(Clone, Copy)]
pub struct SignedDivisor64 {
    divisor: i64,
    size: SizeDivisor64,
    ghost same: { size.divisor ≡ unsigned_abs divisor },
}

impl SignedDivisor64 {
    pub fn new(divisor: i64) -> SignedDivisor64
        requires { 1 < unsigned_abs divisor }
        ensures { result.divisor ≡ divisor }
    {
        SignedDivisor64 {
            divisor,
            size: SizeDivisor64::new(divisor.unsigned_abs()),
        }
    }

    #[inline(always)]
    pub fn quotient(&self, number: i64) -> i64
        ensures { result ≡ int_div number self.now.divisor }
    {
        let size = self.size.quotient(number.unsigned_abs()) as i64;
        if (number < 0) == (self.divisor < 0) {
            size
        } else {
            -size
        }
    }
}

/// A divisor of signed numbers of 32 bits: not 0, 1 or -1. Quotients are truncated toward zero.
#[derive(Clone, Copy)]
pub struct SignedDivisor32 {
    divisor: i32,
    size: SizeDivisor32,
    ghost same: { size.divisor ≡ unsigned_abs divisor },
}

impl SignedDivisor32 {
    pub fn new(divisor: i32) -> SignedDivisor32
        requires { 1 < unsigned_abs divisor }
        ensures { result.divisor ≡ divisor }
    {
        SignedDivisor32 {
            divisor,
            size: SizeDivisor32::new(divisor.unsigned_abs()),
        }
    }

    #[inline(always)]
    pub fn quotient(&self, number: i32) -> i32
        ensures { result ≡ int_div number self.now.divisor }
    {
        let size = self.size.quotient(number.unsigned_abs()) as i32;
        if (number < 0) == (self.divisor < 0) {
            size
        } else {
            -size
        }
    }
}
