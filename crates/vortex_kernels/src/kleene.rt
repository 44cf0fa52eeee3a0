//! And and Or by Kleene's tables, 64 rows at a time. A constant decides before the rows.
ghost use Rattle.std.specs.Prelude.{◌≡◌, ◌<◌, ℕ, Bool, Some, true, false, length, is_some};
ghost use Rattle.vortex_types.specs.Values.{truth_or_null};
ghost use Rattle.vortex_operators.specs.Kleene.{decides};
ghost use Rattle.vortex_kernels.specs.Words.{AnswersUnlessMemory, Operator, And, Or, is_boolean};
ghost use Rattle.vortex_kernels.specs.Words.{kleene, present, IsValueOf, bit, allows_null};
ghost use Rattle.vortex_kernels.specs.Words.{validity_of, IsValidity, operand_truth, rows_truth};
ghost use Rattle.vortex_kernels.specs.Words.{HasKleeneRows, HasTruthRows, value_word, bool_type};
ghost use Rattle.vortex_kernels.specs.Words.{AreTruthRows, FitsOperand};

use crate::kleene_validity::kleene_validity;
use crate::operators::Operator;
use crate::truths::{Operand, TruthRows};
use std::alloc::Global;
use vortex_bits::{Both, Either, WordFormula, zip_bits};
use vortex_columns::{
    Column, DType, ExecutionCtx, Nullability, Scalar, ValidRows, Validity, VortexResult,
};

/// The table of one operator in words, chosen before the rows.
pub(crate) trait KleeneTable: WordFormula {
    ghost operator: { Operator };

    ghost boolean: { is_boolean operator ≡ true };

    /// The truth values that decide, whatever the other side.
    fn deciding(values: u64) -> u64
        ensures { (j : ℕ) → j < 64 → bit result j ≡ decides operator (bit values j) };

    /// The formula gives the truth value where there is one, whatever is under nulls.
    ghost table: { (p q a b : Bool)
        → IsValueOf (Self.says a b) (kleene operator (present p a) (present q b)) };
}

impl KleeneTable for Both {
    ghost use Rattle.std.specs.Prelude.{refl};
    ghost use Rattle.vortex_kernels.specs.Kleene.{and_says};

    ghost operator = { And };

    ghost boolean = { refl };

    ghost table = { and_says };

    fn deciding(values: u64) -> u64 {
        !values
    }
}

impl KleeneTable for Either {
    ghost use Rattle.std.specs.Prelude.{refl};
    ghost use Rattle.vortex_kernels.specs.Kleene.{or_says};

    ghost operator = { Or };

    ghost boolean = { refl };

    ghost table = { or_says };

    fn deciding(values: u64) -> u64 {
        values
    }
}

/// Whether there is a truth value, from the values of both sides and which are present.
pub(crate) fn valid_words<K: KleeneTable>(
    left: u64,
    left_valid: u64,
    right: u64,
    right_valid: u64,
) -> u64
    ensures { (j : ℕ) → j < 64 → bit result j
        ≡ is_some (kleene K.operator (present (bit left_valid j) (bit left j))
        (present (bit right_valid j) (bit right j))) }
{
    let decided = (left_valid & K::deciding(left)) | (right_valid & K::deciding(right));
    (left_valid & right_valid) | decided
}

/// And or Or of 64 rows: the values, and which are present. Under a null the value is arbitrary.
pub fn kleene_words(
    operator: Operator,
    left: u64,
    left_valid: u64,
    right: u64,
    right_valid: u64,
) -> (u64, u64)
    requires { is_boolean operator ≡ true }
    ensures values { result.0 ≡ value_word operator left right }
    ensures table { (j : ℕ) → j < 64 → present (bit result.1 j) (bit result.0 j)
        ≡ kleene operator (present (bit left_valid j) (bit left j))
        (present (bit right_valid j) (bit right j)) }
{
    match operator {
        Operator::And => (
            left & right,
            valid_words::<Both>(left, left_valid, right, right_valid),
        ),
        _ => (
            left | right,
            valid_words::<Either>(left, left_valid, right, right_valid),
        ),
    }
}

/// The table's result for two truth values of each row.
fn table_rows<K: KleeneTable + Copy>(
    left: TruthRows<'_>,
    right: TruthRows<'_>,
    nullability: Nullability,
    ctx: &mut ExecutionCtx,
) -> VortexResult<Column>
    requires left { AreTruthRows (length left.bits.now) left }
    requires right { AreTruthRows (length left.bits.now) right }
    requires truths { allows_null nullability ≡ false → (i : ℕ) → i < length left.bits.now
        → is_some (kleene K.operator (rows_truth left i) (rows_truth right i)) ≡ true }
    ensures { AnswersUnlessMemory result
        (HasKleeneRows K.operator (allows_null nullability) (length left.entry.bits.now)
        (rows_truth left.entry) (rows_truth right.entry)) }
{
    let values = zip_bits::<K>(ctx.alloc(), left.bits, right.bits)?;
    let validity = kleene_validity::<K>(ctx.alloc(), left, right, nullability)?;
    Column::try_bool(ctx.alloc(), values, validity)
}

/// The same, by the table of the operator.
fn kleene_rows(
    left: TruthRows<'_>,
    right: TruthRows<'_>,
    operator: Operator,
    nullability: Nullability,
    ctx: &mut ExecutionCtx,
) -> VortexResult<Column>
    requires operator { is_boolean operator ≡ true }
    requires left { AreTruthRows (length left.bits.now) left }
    requires right { AreTruthRows (length left.bits.now) right }
    requires truths { allows_null nullability ≡ false → (i : ℕ) → i < length left.bits.now
        → is_some (kleene operator (rows_truth left i) (rows_truth right i)) ≡ true }
    ensures { AnswersUnlessMemory result
        (HasKleeneRows operator (allows_null nullability) (length left.entry.bits.now)
        (rows_truth left.entry) (rows_truth right.entry)) }
{
    match operator {
        Operator::And => table_rows::<Both>(left, right, nullability, ctx),
        _ => table_rows::<Either>(left, right, nullability, ctx),
    }
}

/// One truth value or null, in a type of that nullability. Null in a type without null (for no
/// rows) becomes false.
fn truth_scalar(truth: Option<bool>, nullability: Nullability) -> Scalar
    ensures dtype { result.dtype ≡ bool_type (allows_null nullability) }
    ensures value { (allows_null nullability ≡ false → is_some truth ≡ true)
        → result.value ≡ truth_or_null truth }
{
    match (truth, nullability) {
        (Some(value), _) => Scalar::bool(value, nullability),
        (None, Nullability::Nullable) => Scalar::null(DType::Bool(nullability)),
        (None, Nullability::NonNullable) => Scalar::bool(false, nullability),
    }
}

/// One truth value, or null, in each row.
fn same_truth(
    truth: Option<bool>,
    len: usize,
    nullability: Nullability,
    ctx: &mut ExecutionCtx,
) -> VortexResult<Column>
    requires { allows_null nullability ≡ false → (i : ℕ) → i < len → is_some truth ≡ true }
    ensures { AnswersUnlessMemory result
        (HasTruthRows (allows_null nullability) len (λ i. truth)) }
{
    Column::constant(ctx.alloc(), truth_scalar(truth, nullability), len)
}

/// A copy of which rows are valid, for a type of that nullability.
fn copied_validity(
    alloc: Global,
    rows: TruthRows<'_>,
    nullability: Nullability,
) -> VortexResult<Validity>
    requires fits { AreTruthRows (length rows.bits.now) rows }
    requires truths { allows_null nullability ≡ false → (i : ℕ) → i < length rows.bits.now
        → is_some (rows_truth rows i) ≡ true }
    ensures { AnswersUnlessMemory result
        (λ v. IsValidity (allows_null nullability) (length rows.entry.bits.now)
        (λ i. is_some (rows_truth rows.entry i)) (validity_of v)) }
{
    match nullability {
        Nullability::NonNullable => Ok(Validity::NonNullable),
        Nullability::Nullable => rows.valid.to_validity(alloc),
    }
}

/// A copy of the rows, in a column of that nullability.
fn copied(
    rows: TruthRows<'_>,
    nullability: Nullability,
    ctx: &mut ExecutionCtx,
) -> VortexResult<Column>
    requires fits { AreTruthRows (length rows.bits.now) rows }
    requires truths { allows_null nullability ≡ false → (i : ℕ) → i < length rows.bits.now
        → is_some (rows_truth rows i) ≡ true }
    ensures { AnswersUnlessMemory result
        (HasTruthRows (allows_null nullability) (length rows.entry.bits.now)
        (rows_truth rows.entry)) }
{
    let values = rows.bits.try_clone(ctx.alloc())?;
    let validity = copied_validity(ctx.alloc(), rows, nullability)?;
    Column::try_bool(ctx.alloc(), values, validity)
}

/// The table's result for one truth value and each row of a side: that value where it decides, else
/// the side's row.
fn kleene_beside(
    value: bool,
    side: Operand<'_>,
    len: usize,
    operator: Operator,
    nullability: Nullability,
    ctx: &mut ExecutionCtx,
) -> VortexResult<Column>
    requires operator { is_boolean operator ≡ true }
    requires fits { FitsOperand len side }
    requires truths { allows_null nullability ≡ false → (i : ℕ) → i < len
        → is_some (operand_truth side i) ≡ true }
    ensures { AnswersUnlessMemory result
        (HasKleeneRows operator (allows_null nullability) len (λ i. Some value)
        (operand_truth side.entry)) }
{
    if operator.is_decided_by(value) {
        return same_truth(Some(value), len, nullability, ctx);
    }
    match side {
        Operand::Rows(rows) => copied(rows, nullability, ctx),
        Operand::One(truth) => same_truth(truth, len, nullability, ctx),
    }
}

/// The table's result for each of `len` rows of two sides, in a column of that nullability.
pub(crate) fn kleene_sides(
    left: Operand<'_>,
    right: Operand<'_>,
    len: usize,
    operator: Operator,
    nullability: Nullability,
    ctx: &mut ExecutionCtx,
) -> VortexResult<Column>
    requires operator { is_boolean operator ≡ true }
    requires left { FitsOperand len left }
    requires right { FitsOperand len right }
    requires truths { allows_null nullability ≡ false → (i : ℕ) → i < len
        → (is_some (operand_truth left i) ≡ true) × (is_some (operand_truth right i) ≡ true) }
    ensures { AnswersUnlessMemory result
        (HasKleeneRows operator (allows_null nullability) len (operand_truth left.entry)
        (operand_truth right.entry)) }
{
    match (left, right) {
        (Operand::One(Some(value)), side) | (side, Operand::One(Some(value))) => {
            kleene_beside(value, side, len, operator, nullability, ctx)
        }
        (Operand::Rows(rows), Operand::One(None)) | (Operand::One(None), Operand::Rows(rows)) => {
            let nulls = TruthRows {
                valid: ValidRows::No,
                ..rows
            };
            kleene_rows(rows, nulls, operator, nullability, ctx)
        }
        (Operand::Rows(left), Operand::Rows(right)) => {
            kleene_rows(left, right, operator, nullability, ctx)
        }
        (Operand::One(None), Operand::One(None)) => same_truth(None, len, nullability, ctx),
    }
}
