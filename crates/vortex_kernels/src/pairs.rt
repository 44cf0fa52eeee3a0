//! The values of two columns row by row, and the result of a comparison for each pair.
ghost use Rattle.std.specs.Prelude.{◌≡◌, ◌<◌, ◌+◌, ◌^◌, ℕ, true, map, length};
ghost use Rattle.std.specs.Prelude.{IsSome, IfSome, IfNone};
ghost use Rattle.std.specs.declared.cmp.Ordering.{Ordering};
ghost use Rattle.vortex_kernels.specs.Words.{AnswersUnlessMemory, number, truth, truth_of};
ghost use Rattle.vortex_kernels.specs.Words.{is_text_type, row, borrowed_values, holds, row_orders};
ghost use Rattle.vortex_kernels.specs.Words.{int_orders, int_orders_with, bit_orders};
ghost use Rattle.vortex_kernels.specs.Words.{bit_orders_with, byte_orders, byte_orders_with};
ghost use Rattle.vortex_kernels.specs.Words.{constant_value, bit};
ghost use Rattle.vortex_kernels.specs.Words.{AreHeld, IsConstantOf, IsConstantBytes};
ghost use Rattle.vortex_kernels.specs.Words.{AreComparisons, IsIntegerType, IsNullColumn};

use crate::comparisons::Comparison;
use crate::integer_types::with_integer;
use crate::lanes::LaneInteger;
use crate::lists::{hold_in_fixed_lists, hold_in_lists};
use crate::spans::{SpanBits, collect_spans};
use std::alloc::Global;
use std::marker::PhantomData;
use vortex_bits::{RowBits, collect_rows, zip_bits, zip_bits_with};
use vortex_columns::{
    BitBuffer, Cell, Column, DType, NativePType, PType, ResolvedViews, VortexResult,
};
use vortex_views::ConstantBytes;

/// Pairs of values, a left and a right one for each row.
pub trait Pairs: Copy {
    ghost has_pair: { Self → ℕ → Type 0 };

    /// The order of the values in a row. Arbitrary under a null.
    ghost order: { Self → ℕ → Ordering };

    /// Whether the comparison is true for a pair.
    fn holds_at<P: Comparison>(&self, i: usize) -> bool
        requires { has_pair self.now i }
        ensures { result ≡ holds P.operator (order self.now i) };
}

/// Pairs of which 64 are compared at once.
pub trait SpanPairs: Pairs {
    /// Whether the comparison is true for pairs `at` to `at + 63`, the first as the least
    /// significant bit.
    fn hold_from<P: Comparison>(&self, at: usize) -> u64
        requires place { at + 64 < 2 ^ 64 }
        requires pairs { (j : ℕ) → j < 64 → Self.has_pair self.now (at + j) }
        ensures { (j : ℕ) → j < 64
            → bit result j ≡ holds P.operator (Self.order self.now (at + j)) };
}

/// Whether the comparison is true for each pair.
#[derive(Clone, Copy)]
struct Held<P: Comparison, R: Pairs> {
    pairs: R,
    comparison: PhantomData<P>,
}

impl<P: Comparison, R: Pairs> RowBits for Held<P, R> {
    ghost has_row = { λ h i. R.has_pair h.pairs i };

    ghost row_bit = { λ h i. holds P.operator (R.order h.pairs i) };

    fn bit(&self, i: usize) -> bool {
        self.pairs.holds_at::<P>(i)
    }
}

impl<P: Comparison, R: SpanPairs> SpanBits for Held<P, R> {
    fn span(&self, at: usize) -> u64 {
        self.pairs.hold_from::<P>(at)
    }
}

/// Whether the comparison is true in each row.
pub(crate) fn hold_in_pairs<P: Comparison, R: Pairs>(
    alloc: Global,
    pairs: R,
    len: usize,
) -> VortexResult<BitBuffer>
    requires { (i : ℕ) → i < len → R.has_pair pairs i }
    ensures { AnswersUnlessMemory result (AreHeld P.operator (R.order pairs) len) }
{
    let rows = Held::<P, R> {
        pairs,
        comparison: PhantomData,
    };
    collect_rows(alloc, &rows, len)
}

/// Whether the comparison is true in each row, of pairs of which 64 are compared at once. E9 where
/// memory is refused.
pub fn hold_in_spans<P: Comparison, R: SpanPairs>(
    alloc: Global,
    pairs: R,
    len: usize,
) -> VortexResult<BitBuffer>
    requires { (i : ℕ) → i < len → R.has_pair pairs i }
    ensures { AnswersUnlessMemory result (AreHeld P.operator (R.order pairs) len) }
{
    let rows = Held::<P, R> {
        pairs,
        comparison: PhantomData,
    };
    collect_spans(alloc, &rows, len)
}

/// Rows of any type, borrowed.
#[derive(Clone, Copy)]
struct CellPairs<'a> {
    left: &'a Column,
    right: &'a Column,
}

impl Pairs for CellPairs<'_> {
    ghost has_pair = { λ p i. (i < length p.left.now.rows) × (i < length p.right.now.rows) };

    ghost order = { λ p. row_orders p.left.now.rows p.right.now.rows };

    fn holds_at<P: Comparison>(&self, i: usize) -> bool {
        P::holds(self.left.compare_rows(i, self.right, i))
    }
}

/// The integers of two columns.
#[derive(Clone, Copy)]
pub struct IntPairs<'a, T: LaneInteger> {
    pub left: &'a [T],
    pub right: &'a [T],
}

impl<T: LaneInteger> Pairs for IntPairs<'_, T> {
    ghost has_pair = { λ p i. (i < length p.left.now) × (i < length p.right.now) };

    ghost order = { λ p. int_orders (map T.number p.left.now) (map T.number p.right.now) };

    fn holds_at<P: Comparison>(&self, i: usize) -> bool {
        P::holds(self.left[i].total_compare(self.right[i]))
    }
}

impl<T: LaneInteger> SpanPairs for IntPairs<'_, T> {
    fn hold_from<P: Comparison>(&self, at: usize) -> u64 {
        P::of_integers(&self.left[at..at + 64], &self.right[at..at + 64])
    }
}

/// The integers of a column and a constant.
#[derive(Clone, Copy)]
pub struct IntsAndOne<'a, T: LaneInteger> {
    pub left: &'a [T],
    pub right: T,
}

impl<T: LaneInteger> Pairs for IntsAndOne<'_, T> {
    ghost has_pair = { λ p i. i < length p.left.now };

    ghost order = { λ p. int_orders_with (map T.number p.left.now) (T.number p.right) };

    fn holds_at<P: Comparison>(&self, i: usize) -> bool {
        P::holds(self.left[i].total_compare(self.right))
    }
}

impl<T: LaneInteger> SpanPairs for IntsAndOne<'_, T> {
    fn hold_from<P: Comparison>(&self, at: usize) -> u64 {
        P::of_integers_with(&self.left[at..at + 64], self.right)
    }
}

/// The texts or the byte strings of two columns.
#[derive(Clone, Copy)]
pub(crate) struct BytesPairs<'a> {
    pub(crate) left: ResolvedViews<'a>,
    pub(crate) right: ResolvedViews<'a>,
}

impl Pairs for BytesPairs<'_> {
    ghost has_pair = { λ p i. (i < length (borrowed_values p.left))
        × (i < length (borrowed_values p.right)) };

    ghost order = { λ p. byte_orders (borrowed_values p.left) (borrowed_values p.right) };

    fn holds_at<P: Comparison>(&self, i: usize) -> bool {
        P::holds_of_bytes(&self.left.row(i), &self.right.row(i))
    }
}

/// The texts or the byte strings of a column and a constant.
#[derive(Clone, Copy)]
pub(crate) struct BytesAndOne<'a> {
    pub(crate) left: ResolvedViews<'a>,
    pub(crate) right: ConstantBytes<'a>,
}

impl Pairs for BytesAndOne<'_> {
    ghost has_pair = { λ p i. i < length (borrowed_values p.left) };

    ghost order = { λ p. byte_orders_with (borrowed_values p.left) (constant_value p.right) };

    fn holds_at<P: Comparison>(&self, i: usize) -> bool {
        P::holds_of_bytes(&self.left.row(i), &self.right)
    }
}

/// The same for rows of any type, one by one.
pub(crate) fn hold_in_cells<P: Comparison>(
    alloc: Global,
    lhs: &Column,
    rhs: &Column,
) -> VortexResult<BitBuffer>
    requires { length lhs.now.rows ≡ length rhs.now.rows }
    ensures { AnswersUnlessMemory result
        (AreComparisons P.operator lhs.now.rows rhs.now.rows) }
{
    let len = lhs.len();
    let pairs = CellPairs {
        left: lhs,
        right: rhs,
    };
    hold_in_pairs::<P, CellPairs>(alloc, pairs, len)
}

/// The integer in each row of a constant column of integers of one type, unless it is null.
pub fn constant_int<T: NativePType>(column: &Column) -> Option<T>
    ensures value { IfSome result (λ x. IsConstantOf (number (T.number x)) column.now) }
    ensures null { IfNone result (IsSome column.now.constant
        → IsIntegerType T.ptype column.now.dtype → IsNullColumn column.now) }
{
    let scalar = column.as_constant()?;
    let _ = scalar.dtype();
    match scalar.cell() {
        Cell::Int(number) => T::from_i128(number),
        _ => None,
    }
}

/// The truth value in each row of a constant column of Bool.
pub(crate) fn constant_bool(column: &Column) -> Option<bool>
    ensures value { IfSome result (λ b. IsConstantOf (truth b) column.now) }
    ensures rows { IsSome column.now.constant → (i : ℕ) → i < length column.now.rows
        → truth_of (row column.now.rows i) ≡ result }
{
    column.as_constant()?.as_bool_opt()
}

fn hold_in_ints<P: Comparison, T: LaneInteger>(
    alloc: Global,
    lhs: &Column,
    rhs: &Column,
) -> VortexResult<BitBuffer>
    requires { length lhs.now.rows ≡ length rhs.now.rows }
    ensures { AnswersUnlessMemory result
        (AreComparisons P.operator lhs.now.rows rhs.now.rows) }
{
    let len = lhs.len();
    match (lhs.ints::<T>(), rhs.ints::<T>(), constant_int::<T>(rhs)) {
        (Some(left), Some(right), _) => {
            hold_in_spans::<P, IntPairs<T>>(alloc, IntPairs { left, right }, len)
        }
        (Some(left), None, Some(right)) => {
            hold_in_spans::<P, IntsAndOne<T>>(alloc, IntsAndOne { left, right }, len)
        }
        _ => hold_in_cells::<P>(alloc, lhs, rhs),
    }
}

fn hold_in_bools<P: Comparison>(
    alloc: Global,
    lhs: &Column,
    rhs: &Column,
) -> VortexResult<BitBuffer>
    requires { length lhs.now.rows ≡ length rhs.now.rows }
    ensures { AnswersUnlessMemory result
        (AreComparisons P.operator lhs.now.rows rhs.now.rows) }
{
    match (lhs.bits(), rhs.bits(), constant_bool(rhs)) {
        (Some(left), Some(right), _) => zip_bits::<P>(alloc, left, right),
        (Some(left), None, Some(right)) => zip_bits_with::<P>(alloc, left, right),
        _ => hold_in_cells::<P>(alloc, lhs, rhs),
    }
}

/// Bytes with their words, if a view can have their length.
fn with_words(bytes: &[u8]) -> Option<ConstantBytes<'_>>
    ensures { IfSome result (λ one. constant_value one ≡ bytes.now) }
{
    if bytes.len() <= 4294967295 {
        Some(ConstantBytes::new(bytes))
    } else {
        None
    }
}

/// The bytes of the text or byte string in each row of a constant column.
fn constant_slice(column: &Column) -> Option<&[u8]>
    ensures { IfSome result (λ bs. IsConstantBytes column.now bs.now) }
{
    let scalar = column.as_constant()?;
    let _ = scalar.dtype();
    match scalar.cell() {
        Cell::Text(text) => Some(text.as_bytes()),
        Cell::Bytes(bytes) => Some(bytes),
        _ => None,
    }
}

/// The same, with its words.
pub(crate) fn constant_bytes(column: &Column) -> Option<ConstantBytes<'_>>
    ensures { IfSome result (λ one. IsConstantBytes column.now (constant_value one)) }
{
    with_words(constant_slice(column)?)
}

fn hold_in_bytes<P: Comparison>(
    alloc: Global,
    lhs: &Column,
    rhs: &Column,
) -> VortexResult<BitBuffer>
    requires lengths { length lhs.now.rows ≡ length rhs.now.rows }
    requires kind { is_text_type lhs.now.dtype ≡ is_text_type rhs.now.dtype }
    ensures { AnswersUnlessMemory result
        (AreComparisons P.operator lhs.now.rows rhs.now.rows) }
{
    let len = lhs.len();
    match (lhs.views(), rhs.views(), constant_bytes(rhs)) {
        (Some(left), Some(right), _) => {
            hold_in_pairs::<P, BytesPairs>(alloc, BytesPairs { left, right }, len)
        }
        (Some(left), None, Some(right)) => {
            hold_in_pairs::<P, BytesAndOne>(alloc, BytesAndOne { left, right }, len)
        }
        _ => hold_in_cells::<P>(alloc, lhs, rhs),
    }
}

/// Whether the comparison is true in each row in which both sides have a value; records are
/// compared by cells. The kind and the form of the right side are chosen before the rows; a
/// constant on the left is compared by cells.
pub(crate) fn hold_in_flat<P: Comparison>(
    alloc: Global,
    lhs: &Column,
    rhs: &Column,
) -> VortexResult<BitBuffer>
    requires { length lhs.now.rows ≡ length rhs.now.rows }
    ensures { AnswersUnlessMemory result
        (AreComparisons P.operator lhs.now.rows rhs.now.rows) }
{
    match lhs.dtype() {
        DType::Bool(_) => hold_in_bools::<P>(alloc, lhs, rhs),
        DType::Utf8(_) if rhs.dtype().is_utf8() => hold_in_bytes::<P>(alloc, lhs, rhs),
        DType::Binary(_) if !rhs.dtype().is_utf8() => hold_in_bytes::<P>(alloc, lhs, rhs),
        DType::Primitive(ptype, _) => {
            with_integer!(*ptype, hold_in_ints::<P, _>(alloc, lhs, rhs))
        }
        DType::List(_, _) => hold_in_lists::<P>(alloc, lhs, rhs),
        DType::FixedSizeList(_, _, _) => hold_in_fixed_lists::<P>(alloc, lhs, rhs),
        _ => hold_in_cells::<P>(alloc, lhs, rhs),
    }
}
