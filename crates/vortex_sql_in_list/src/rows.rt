//! The rows of a column as items of sets.
ghost use Rattle.std.specs.Prelude.{◌≡◌, ◌<◌, length, map, slice_index_or};

use vortex_columns::{NativePType, ResolvedViews};
use vortex_sets::{IntItem, SetItem, TextItem};

/// An item for each row.
pub(crate) trait ItemRows<I: SetItem>: Drop {
    ghost use Rattle.std.specs.Prelude.{◌≡◌, ◌<◌, List, length, slice_index_or};
    ghost use Rattle.vortex_types.specs.Values.{Value, null};

    ghost values: { Self → List Value };

    fn item(&self, i: usize) -> I
        requires { i < length (values self.now) }
        ensures { I.value result ≡ slice_index_or (values self.now) i null };
}

/// Integers, one a row.
#[derive(Drop)]
pub(crate) struct IntRows<'a, T: NativePType> {
    pub(crate) numbers: &'a [T],
}

impl<'a, T: NativePType> ItemRows<IntItem<T>> for IntRows<'a, T> {
    ghost use Rattle.vortex_types.specs.Values.{number};

    ghost values = { λ r. map (λ x. number (T.number x)) r.numbers.now };

    #[inline(always)]
    fn item(&self, i: usize) -> IntItem<T> {
        IntItem {
            number: self.numbers[i],
        }
    }
}

/// Texts, one a row.
#[derive(Drop)]
pub(crate) struct TextRows<'a> {
    pub(crate) texts: ResolvedViews<'a>,
}

impl<'a> ItemRows<TextItem<'a>> for TextRows<'a> {
    ghost use Rattle.vortex_types.specs.Values.{text};
    ghost use Rattle.vortex_views.specs.BorrowedValues.{borrowed_values};

    ghost values = { λ r. map text (borrowed_values r.texts) };

    #[inline]
    fn item(&self, i: usize) -> TextItem<'a> {
        TextItem::new(self.texts.bytes(i))
    }
}
