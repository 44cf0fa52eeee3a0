//! The stored integers of two sides, and those of the results.
ghost use Rattle.std.specs.Prelude.{◌≡◌, ◌<◌, ℕ, true, false, IfSome};
ghost use Rattle.std.specs.Float.{float_is_finite, float_one};
ghost use Rattle.vortex_errors.specs.Answers.{AnswersUnlessMemory};
ghost use Rattle.vortex_types.specs.Values.{number};
ghost use Rattle.vortex_interface.specs.Outcomes.{gives};
ghost use Rattle.vortex_float_bits.specs.FloatBits.{float_of};
ghost use Rattle.vortex_sql_floats.specs.ArithmeticRows.{arithmetic};
ghost use Rattle.vortex_sql_floats.specs.FloatArithmetic.{applied};
ghost use Rattle.vortex_sql_float_columns.specs.KeyedRows.{AreKeys};
ghost use Rattle.vortex_sql_float_columns.specs.PlainRows.{is_plain, may_fault};

use crate::operations::{Added, Divided, Multiplied, Operation, Subtracted};
use std::alloc::Global;
use vortex_columns::VortexResult;
use vortex_float_bits::{WIDE_NAN, is_finite, is_infinite, is_nan, is_zero, turn_wide};
use vortex_sql_floats::floats::FloatOperator;

/// An integer that stands for a float, for each row.
pub trait Keys {
    ghost use Rattle.std.specs.Prelude.{◌≡◌, ℕ, ℤ};

    ghost has_row: { Self → ℕ → Type 0 };

    /// The integer in a row. Arbitrary under a null.
    ghost key_at: { Self → ℕ → ℤ };

    fn at(&self, i: usize) -> i64
        requires { has_row self.now i }
        ensures { result ≡ key_at self.now i };
}

/// The integers of a column.
#[derive(Clone, Copy)]
pub struct ListedKeys<'a> {
    pub keys: &'a [i64],
}

impl Keys for ListedKeys<'_> {
    ghost use Rattle.std.specs.Prelude.{◌<◌, length, pos, slice_index_or};

    ghost has_row = { λ k i. i < length k.keys.now };

    ghost key_at = { λ k i. slice_index_or k.keys.now i (pos 0) };

    fn at(&self, i: usize) -> i64 {
        self.keys[i]
    }
}

/// One integer in each row.
#[derive(Clone, Copy)]
pub struct OneKey {
    pub key: i64,
}

impl Keys for OneKey {
    ghost use Rattle.std.specs.Bool.{⊤};

    ghost has_row = { λ k i. ⊤ };

    ghost key_at = { λ k i. k.key };

    fn at(&self, _i: usize) -> i64 {
        self.key
    }
}

/// Whether the processor's arithmetic decides the row, of two patterns.
fn is_plain<O: Operation>(x: i64, y: i64) -> bool
    ensures { result ≡ is_plain O.operator (float_of x) (float_of y) }
{
    is_finite(x) & O::is_right_side(y)
}

/// The float of a pattern where the row is plain, else 1.
fn plain_float(pattern: i64, is_plain: bool) -> f64
    requires { is_plain ≡ true → float_is_finite (float_of pattern) ≡ true }
    ensures plain { is_plain ≡ true → result ≡ float_of pattern }
    ensures other { is_plain ≡ false → result ≡ float_one }
{
    if is_plain {
        f64::from_bits(pattern.cast_unsigned())
    } else {
        1.0
    }
}

/// The pattern of the result of a plain row, and any pattern for another row.
fn result_pattern<O: Operation>(x: i64, y: i64) -> i64
    ensures { is_plain O.operator (float_of x) (float_of y) ≡ true
        → float_of result ≡ applied O.operator (float_of x) (float_of y) }
{
    let is_plain = is_plain::<O>(x, y);
    let made = O::applied(plain_float(x, is_plain), plain_float(y, is_plain));
    made.to_bits().cast_signed()
}

/// Whether the row is not plain, or faults.
fn may_fault<O: Operation>(x: i64, y: i64, made: i64) -> bool
    ensures { result ≡ may_fault O.operator (float_of x) (float_of y) (float_of made) }
{
    !is_plain::<O>(x, y) | (is_infinite(made) | (is_zero(made) & O::vanishes(x, y)))
}

/// The integer of the result, and whether the row may fault: then it is any integer. A NaN among
/// the operands makes a NaN and no fault.
fn key_by<O: Operation>(a: i64, b: i64) -> (i64, bool)
    ensures { result.1 ≡ false → arithmetic O.operator a b ≡ gives (number result.0) }
{
    let x = turn_wide(a);
    let y = turn_wide(b);
    let made = result_pattern::<O>(x, y);
    if is_nan(x) | is_nan(y) {
        (WIDE_NAN, false)
    } else {
        (turn_wide(made), may_fault::<O>(x, y, made))
    }
}

/// The integer of each row's result, even under a null, unless one of them may fault.
fn rows_by<O: Operation, L: Keys, R: Keys>(
    alloc: Global,
    left: &L,
    right: &R,
    len: usize,
) -> VortexResult<Option<Vec<i64>>>
    requires left { (i : ℕ) → i < len → L.has_row left.now i }
    requires right { (i : ℕ) → i < len → R.has_row right.now i }
    ensures { AnswersUnlessMemory result (λ made. IfSome made (λ keys.
        AreKeys O.operator (L.key_at left.now) (R.key_at right.now) len keys.items)) }
{
    let mut keys = Vec::with_capacity(alloc, len)?;
    let mut may_fault = false;
    for i in 0..len {
        let (key, flag) = key_by::<O>(left.at(i), right.at(i));
        keys.push_reserved(key);
        may_fault |= flag;
    }
    if may_fault { Ok(None) } else { Ok(Some(keys)) }
}

/// The integer of each row's result, even under a null, unless one of them may fault. An operand
/// that is infinite counts as such. E9 where memory is refused.
pub fn key_rows<L: Keys, R: Keys>(
    alloc: Global,
    operator: FloatOperator,
    left: &L,
    right: &R,
    len: usize,
) -> VortexResult<Option<Vec<i64>>>
    requires left { (i : ℕ) → i < len → L.has_row left.now i }
    requires right { (i : ℕ) → i < len → R.has_row right.now i }
    ensures { AnswersUnlessMemory result (λ made. IfSome made (λ keys.
        AreKeys operator (L.key_at left.now) (R.key_at right.now) len keys.items)) }
{
    match operator {
        FloatOperator::Add => rows_by::<Added, L, R>(alloc, left, right, len),
        FloatOperator::Subtract => rows_by::<Subtracted, L, R>(alloc, left, right, len),
        FloatOperator::Multiply => rows_by::<Multiplied, L, R>(alloc, left, right, len),
        FloatOperator::Divide => rows_by::<Divided, L, R>(alloc, left, right, len),
    }
}
