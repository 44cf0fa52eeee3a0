//! What sets have: integers of one type, or texts.
ghost use Rattle.std.specs.Prelude.{◌≡◌};
ghost use Rattle.vortex_sets.specs.ItemSets.{fnv, lower_bits};

use vortex_types::NativePType;

/// A value that sets have, with the key by which it finds its bucket.
pub trait SetItem: Copy + Drop {
    ghost use Rattle.std.specs.Prelude.{◌≡◌, ℕ, false};
    ghost use Rattle.vortex_sets.specs.ItemSets.{is_same_item};
    ghost use Rattle.vortex_types.specs.Values.{Value, is_null};

    ghost value: { Self → Value };

    ghost key: { Value → ℕ };

    /// Whether both are the same value.
    fn is_same(self, other: Self) -> bool
        ensures { result ≡ is_same_item (value self) (value other) };

    /// A number by which values are spread over buckets.
    fn key(self) -> u64
        ensures { result ≡ key (value self) };

    ghost never_null: { (x : Self) → is_null (value x) ≡ false };
}

/// An integer of a set.
#[derive(Clone, Copy, Drop)]
pub struct IntItem<T: NativePType> {
    pub number: T,
}

/// The lower 64 bits of a number.
#[inline(always)]
fn lower_bits(number: i128) -> u64
    ensures { result ≡ lower_bits number }
{
    (number.cast_unsigned() & 0xFFFF_FFFF_FFFF_FFFF) as u64
}

impl<T: NativePType> SetItem for IntItem<T> {
    ghost use Rattle.std.specs.Prelude.{refl};
    ghost use Rattle.vortex_sets.specs.ItemSets.{number_key};
    ghost use Rattle.vortex_types.specs.Values.{number};

    ghost value = { λ x. number (T.number x.number) };

    ghost key = { number_key };

    ghost never_null = { λ x. refl };

    #[inline(always)]
    fn is_same(self, other: IntItem<T>) -> bool {
        self.number.to_i128() == other.number.to_i128()
    }

    #[inline(always)]
    fn key(self) -> u64 {
        lower_bits(self.number.to_i128())
    }
}

/// A text of a set, with its key.
#[derive(Clone, Copy, Drop)]
pub struct TextItem<'a> {
    bytes: &'a [u8],
    key: u64,
    ghost keyed: { key ≡ fnv bytes.now },
}

/// The hash of Fowler, Noll and Vo (FNV-1a).
#[inline]
fn fnv(bytes: &[u8]) -> u64
    ensures { result ≡ fnv bytes.now }
{
    let mut hash = 0xcbf2_9ce4_8422_2325u64;
    for byte in bytes {
        hash = (hash ^ u64::from(*byte)).wrapping_mul(0x100_0000_01b3);
    }
    hash
}

impl<'a> TextItem<'a> {
    /// A text by its bytes.
    #[inline]
    pub fn new(bytes: &'a [u8]) -> TextItem<'a>
        ensures { result.bytes.now ≡ bytes.now }
    {
        let key = fnv(bytes);
        TextItem { bytes, key }
    }
}

impl<'a> SetItem for TextItem<'a> {
    ghost use Rattle.std.specs.Prelude.{refl};
    ghost use Rattle.vortex_sets.specs.ItemSets.{text_key};
    ghost use Rattle.vortex_types.specs.Values.{text};

    ghost value = { λ x. text x.bytes.now };

    ghost key = { text_key };

    ghost never_null = { λ x. refl };

    #[inline(always)]
    fn is_same(self, other: TextItem<'a>) -> bool {
        self.key == other.key && self.bytes == other.bytes
    }

    #[inline(always)]
    fn key(self) -> u64 {
        self.key
    }
}
