//! Lists of two columns compared by their elements, in place: the kind of the elements and the form
//! of the lists are chosen before the rows.
ghost use Rattle.std.specs.Prelude.{◌≡◌, length};
ghost use Rattle.vortex_kernels.specs.Words.{AnswersUnlessMemory, AreComparisons, AreHeld};
ghost use Rattle.vortex_kernels.specs.Words.{LiesIn, AreListed, part_order, list_orders};

use crate::comparisons::Comparison;
use crate::integer_types::with_integer;
use crate::lanes::LaneInteger;
use crate::pairs::{Pairs, hold_in_cells, hold_in_pairs};
use std::alloc::Global;
use std::cmp::Ordering;
use vortex_columns::{BitBuffer, Column, DType, PType, ValidRows, VortexResult};

/// The elements of two columns of lists.
pub(crate) trait Elements: Copy {
    ghost use Rattle.std.specs.Prelude.{◌≡◌, ◌<◌, List, length};
    ghost use Rattle.vortex_types.specs.Values.{Value};
    ghost use Rattle.vortex_types.specs.Order.{compare_values};
    ghost use Rattle.vortex_kernels.specs.Words.{row};

    ghost left: { Self → List Value };

    ghost right: { Self → List Value };

    /// The order of element `i` of the left side and element `j` of the right one.
    fn order(&self, i: usize, j: usize) -> Ordering
        requires left_in { i < length (left self.now) }
        requires right_in { j < length (right self.now) }
        ensures { result ≡ compare_values (row (left self.now) i) (row (right self.now) j) };
}

/// Elements of any type, borrowed.
#[derive(Clone, Copy)]
struct CellElements<'a> {
    left: &'a Column,
    right: &'a Column,
}

impl Elements for CellElements<'_> {
    ghost left = { λ e. e.left.now.rows };

    ghost right = { λ e. e.right.now.rows };

    fn order(&self, i: usize, j: usize) -> Ordering {
        self.left.compare_rows(i, self.right, j)
    }
}

/// Integers, of which none is null.
#[derive(Clone, Copy)]
struct IntElements<'a, T: LaneInteger> {
    left: &'a [T],
    right: &'a [T],
}

impl<T: LaneInteger> Elements for IntElements<'_, T> {
    ghost use Rattle.std.specs.Prelude.{map};
    ghost use Rattle.vortex_kernels.specs.Words.{number};

    ghost left = { λ e. map number (map T.NativePType.number e.left.now) };

    ghost right = { λ e. map number (map T.NativePType.number e.right.now) };

    fn order(&self, i: usize, j: usize) -> Ordering {
        self.left[i].total_compare(self.right[j])
    }
}

/// Where the list of each row is among the elements.
pub(crate) trait Ranges: Copy {
    ghost use Rattle.std.specs.Prelude.{◌≡◌, ◌+◌, ◌^◌, ◌<◌, ℕ};

    ghost has_row: { Self → ℕ → Type 0 };

    ghost start: { Self → ℕ → ℕ };

    ghost size: { Self → ℕ → ℕ };

    /// Its first element, and its length.
    fn range(&self, i: usize) -> (usize, usize)
        requires row { has_row self.now i }
        requires place { start self.now i + size self.now i < 2 ^ 64 }
        ensures start { result.0 ≡ start self.now i }
        ensures size { result.1 ≡ size self.now i };
}

/// Lists at any position.
#[derive(Clone, Copy)]
struct ListedRanges<'a> {
    offsets: &'a [usize],
    sizes: &'a [usize],
}

impl Ranges for ListedRanges<'_> {
    ghost use Rattle.std.specs.Prelude.{◌<◌, length, slice_index};

    ghost has_row = { λ r i. (i < length r.offsets.now) × (i < length r.sizes.now) };

    ghost start = { λ r i. slice_index r.offsets.now i };

    ghost size = { λ r i. slice_index r.sizes.now i };

    fn range(&self, i: usize) -> (usize, usize) {
        (self.offsets[i], self.sizes[i])
    }
}

/// Lists of one size, one after another.
#[derive(Clone, Copy)]
struct FixedRanges {
    size: usize,
}

impl Ranges for FixedRanges {
    ghost use Rattle.std.specs.Prelude.{◌*◌};
    ghost use Rattle.std.specs.Bool.{⊤};

    ghost has_row = { λ r i. ⊤ };

    ghost start = { λ r i. r.size * i };

    ghost size = { λ r i. r.size };

    fn range(&self, i: usize) -> (usize, usize) {
        (self.size * i, self.size)
    }
}

/// The order of two lists, each that many elements from an index on: of their first different
/// elements, else of their lengths.
fn compare_parts<E: Elements>(
    elements: &E,
    left: usize,
    left_count: usize,
    right: usize,
    right_count: usize,
) -> Ordering
    requires left { LiesIn left left_count (E.left elements.now) }
    requires right { LiesIn right right_count (E.right elements.now) }
    ensures { result
        ≡ part_order (E.left elements.now) left left_count (E.right elements.now) right right_count }
{
    for k in 0..left_count.min(right_count) {
        let order = elements.order(left + k, right + k);
        if order.is_ne() {
            return order;
        }
    }
    left_count.cmp(&right_count)
}

/// Pairs of lists.
#[derive(Clone, Copy)]
struct ListPairs<E: Elements, R: Ranges> {
    elements: E,
    left: R,
    right: R,
}

impl<E: Elements, R: Ranges> Pairs for ListPairs<E, R> {
    ghost use Rattle.vortex_kernels.specs.Words.{LiesIn, part_order};

    ghost has_pair = { λ p i. (R.has_row p.left i × R.has_row p.right i)
        × (LiesIn (R.start p.left i) (R.size p.left i) (E.left p.elements)
        × LiesIn (R.start p.right i) (R.size p.right i) (E.right p.elements)) };

    ghost order = { λ p i. part_order (E.left p.elements) (R.start p.left i) (R.size p.left i)
        (E.right p.elements) (R.start p.right i) (R.size p.right i) };

    fn holds_at<P: Comparison>(&self, i: usize) -> bool {
        let (left, left_count) = self.left.range(i);
        let (right, right_count) = self.right.range(i);
        if left_count != right_count && P::holds(Ordering::Less) == P::holds(Ordering::Greater) {
            // lists of two lengths differ
            return P::holds(Ordering::Less);
        }
        P::holds(compare_parts(&self.elements, left, left_count, right, right_count))
    }
}

/// The lists of two columns: their elements, and the position of each row's list.
#[derive(Clone, Copy)]
struct Lists<'a, R: Ranges> {
    left_elements: &'a Column,
    left: R,
    right_elements: &'a Column,
    right: R,
}

/// Whether the comparison is true in each row, of lists of elements of any type.
fn hold_in_cell_lists<P: Comparison, R: Ranges>(
    alloc: Global,
    lists: Lists<'_, R>,
    len: usize,
) -> VortexResult<BitBuffer>
    requires left { AreListed len R.has_row R.start R.size lists.left lists.left_elements.now.rows }
    requires right { AreListed len R.has_row R.start R.size lists.right
        lists.right_elements.now.rows }
    ensures { AnswersUnlessMemory result (AreHeld P.operator (list_orders R.start R.size
        lists.entry.left lists.entry.left_elements.now.rows lists.entry.right
        lists.entry.right_elements.now.rows) len) }
{
    let pairs = ListPairs {
        elements: CellElements {
            left: lists.left_elements,
            right: lists.right_elements,
        },
        left: lists.left,
        right: lists.right,
    };
    hold_in_pairs::<P, ListPairs<CellElements, R>>(alloc, pairs, len)
}

/// The same for lists of integers, which are read as such if none is null.
fn hold_in_int_lists<P: Comparison, R: Ranges, T: LaneInteger>(
    alloc: Global,
    lists: Lists<'_, R>,
    len: usize,
) -> VortexResult<BitBuffer>
    requires left { AreListed len R.has_row R.start R.size lists.left lists.left_elements.now.rows }
    requires right { AreListed len R.has_row R.start R.size lists.right
        lists.right_elements.now.rows }
    ensures { AnswersUnlessMemory result (AreHeld P.operator (list_orders R.start R.size
        lists.entry.left lists.entry.left_elements.now.rows lists.entry.right
        lists.entry.right_elements.now.rows) len) }
{
    let lhs = lists.left_elements;
    let rhs = lists.right_elements;
    match (
        lhs.ints::<T>(),
        rhs.ints::<T>(),
        lhs.valid_rows(),
        rhs.valid_rows(),
    ) {
        (Some(left), Some(right), ValidRows::Every, ValidRows::Every) => {
            let pairs = ListPairs {
                elements: IntElements::<T> { left, right },
                left: lists.left,
                right: lists.right,
            };
            hold_in_pairs::<P, ListPairs<IntElements<T>, R>>(alloc, pairs, len)
        }
        _ => hold_in_cell_lists::<P, R>(alloc, lists, len),
    }
}

/// The same for lists of elements; their kind is chosen before the rows.
fn hold_in_list_rows<P: Comparison, R: Ranges>(
    alloc: Global,
    lists: Lists<'_, R>,
    len: usize,
) -> VortexResult<BitBuffer>
    requires left { AreListed len R.has_row R.start R.size lists.left lists.left_elements.now.rows }
    requires right { AreListed len R.has_row R.start R.size lists.right
        lists.right_elements.now.rows }
    ensures { AnswersUnlessMemory result (AreHeld P.operator (list_orders R.start R.size
        lists.entry.left lists.entry.left_elements.now.rows lists.entry.right
        lists.entry.right_elements.now.rows) len) }
{
    match lists.left_elements.dtype() {
        DType::Primitive(ptype, _) => {
            with_integer!(*ptype, hold_in_int_lists::<P, R, _>(alloc, lists, len))
        }
        _ => hold_in_cell_lists::<P, R>(alloc, lists, len),
    }
}

/// Whether the comparison is true in each row in which both sides have a value, of columns of
/// lists.
pub(crate) fn hold_in_lists<P: Comparison>(
    alloc: Global,
    lhs: &Column,
    rhs: &Column,
) -> VortexResult<BitBuffer>
    requires { length lhs.now.rows ≡ length rhs.now.rows }
    ensures { AnswersUnlessMemory result
        (AreComparisons P.operator lhs.now.rows rhs.now.rows) }
{
    let (Some(left), Some(right)) = (lhs.list_parts(), rhs.list_parts()) else {
        return hold_in_cells::<P>(alloc, lhs, rhs);
    };
    // so that the indices are known not to overflow
    let _left_count = left.0.len();
    let _right_count = right.0.len();
    let lists = Lists {
        left_elements: left.0,
        left: ListedRanges {
            offsets: left.1,
            sizes: left.2,
        },
        right_elements: right.0,
        right: ListedRanges {
            offsets: right.1,
            sizes: right.2,
        },
    };
    hold_in_list_rows::<P, ListedRanges>(alloc, lists, lhs.len())
}

/// The same for columns of lists of one size.
pub(crate) fn hold_in_fixed_lists<P: Comparison>(
    alloc: Global,
    lhs: &Column,
    rhs: &Column,
) -> VortexResult<BitBuffer>
    requires { length lhs.now.rows ≡ length rhs.now.rows }
    ensures { AnswersUnlessMemory result
        (AreComparisons P.operator lhs.now.rows rhs.now.rows) }
{
    let (Some((left, left_size)), Some((right, right_size))) = (
        lhs.fixed_parts(),
        rhs.fixed_parts(),
    ) else {
        return hold_in_cells::<P>(alloc, lhs, rhs);
    };
    // so that the indices are known not to overflow
    let _left_count = left.len();
    let _right_count = right.len();
    let lists = Lists {
        left_elements: left,
        left: FixedRanges {
            size: left_size as usize,
        },
        right_elements: right,
        right: FixedRanges {
            size: right_size as usize,
        },
    };
    hold_in_list_rows::<P, FixedRanges>(alloc, lists, lhs.len())
}
