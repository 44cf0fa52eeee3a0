//! Truth values that begin anywhere in their bytes, whatever bits are under nulls and around the
//! rows, and words of bits: And, Or, Not and the comparisons answer each pair of true, false and
//! null as Kleene's tables and the order of truth values say.

ghost use Rattle.std.specs.Prelude.{◌≡◌, true};
ghost use Rattle.vortex_operators.specs.Operators.{is_boolean};

use crate::questions::{combined, compared, in_turn, negated, says_in_turn, sure};
use fixtures::{Made, kept, reads};
use std::alloc::Global;
use vortex_columns::{
    BitBuffer, Column, ExecutionCtx, Nullability, Validity, VortexError, VortexResult,
};
use vortex_kernels::{CompareOperator, Operator, kleene_boolean_buffer_scalar, kleene_words};

/// The left side of each pair, by letters: `t`, `f`, and `n` for null.
const LEFT: &str = "tttfffnnn";

/// The right side of each.
const RIGHT: &str = "tfntfntfn";

/// What is asked of two columns.
#[derive(Clone, Copy)]
enum Asked {
    Both,
    Either,
    NotLeft,
    Compared(CompareOperator),
}

/// What each pair answers, false being below true.
const ANSWERS: [(Asked, &str); 9] = [
    (Asked::Both, "tfnfffnfn"),
    (Asked::Either, "ttttfntnn"),
    (Asked::NotLeft, "ffftttnnn"),
    (Asked::Compared(CompareOperator::Eq), "tfnftnnnn"),
    (Asked::Compared(CompareOperator::NotEq), "ftntfnnnn"),
    (Asked::Compared(CompareOperator::Gt), "ftnffnnnn"),
    (Asked::Compared(CompareOperator::Gte), "ttnftnnnn"),
    (Asked::Compared(CompareOperator::Lt), "ffntfnnnn"),
    (Asked::Compared(CompareOperator::Lte), "tfnttnnnn"),
];

/// The byte of at most eight bits.
fn byte_of(bits: &[bool]) -> u8 {
    let mut byte = 0u8;
    for bit in bits.iter().rev() {
        byte = byte << 1 | u8::from(*bit);
    }
    byte
}

/// So many others, the bits, and another byte of others.
fn among(alloc: Global, bits: &[bool], offset: usize, others: bool) -> VortexResult<Vec<bool>> {
    let mut all = vec![in alloc; others; offset]?;
    all.extend_from_slice(bits)?;
    all.extend_from_slice(&[others; 8])?;
    Ok(all)
}

/// Bits from bit `offset` of their bytes on; each bit around them is `others`.
pub(crate) fn bits_from(
    alloc: Global,
    bits: &[bool],
    offset: usize,
    others: bool,
) -> VortexResult<BitBuffer> {
    let all = among(alloc, bits, offset, others)?;
    let mut bytes = Vec::new(alloc);
    for chunk in all.chunks(8) {
        bytes.push(byte_of(chunk))?;
    }
    BitBuffer::new(bytes, offset, bits.len())
}

/// Truth values from that bit on, and from the same bit on which of them there are. Under a null
/// is what is around the rows.
pub(crate) fn truths_from(
    alloc: Global,
    rows: &[Option<bool>],
    offset: usize,
    others: bool,
) -> VortexResult<Column> {
    let mut values = Vec::new(alloc);
    let mut valid = Vec::new(alloc);
    for row in rows {
        values.push(row.unwrap_or(others))?;
        valid.push(row.is_some())?;
    }
    let values = bits_from(alloc, &values, offset, others)?;
    let valid = bits_from(alloc, &valid, offset, others)?;
    Column::try_bool(alloc, values, Validity::Array(valid))
}

/// So many rows of a side, from that bit on.
fn side(alloc: Global, letters: &str, len: usize, offset: usize, others: bool) -> Made {
    let rows = in_turn(alloc, letters, len)?;
    kept(alloc, truths_from(alloc, &rows, offset, others))
}

/// What is answered of two columns.
fn answer(alloc: Global, asked: Asked, left: Made, right: Made) -> Made {
    match asked {
        Asked::Both => combined(alloc, left, Operator::And, right),
        Asked::Either => combined(alloc, left, Operator::Or, right),
        Asked::NotLeft => negated(alloc, left),
        Asked::Compared(operator) => compared(alloc, left, operator, right),
    }
}

/// Whether so many rows answer as they should, the sides beginning in these bits.
fn are_answered(rt: HostRuntime, places: (usize, usize), len: usize) -> VortexResult<bool> {
    let alloc = rt.alloc();
    let (first, second) = places;
    let others = first % 2 == 0;
    for (asked, expected) in ANSWERS {
        let left = side(alloc, LEFT, len, first, others);
        let right = side(alloc, RIGHT, len, second, !others);
        if !says_in_turn(rt, answer(alloc, asked, left, right), expected)? {
            return Ok(false);
        }
    }
    Ok(true)
}

#[test]
fn truth_values_begin_in_any_bit(rt: HostRuntime) {
    for first in 0..16usize {
        let places = (first, first * 5 % 16);
        sure(&rt, are_answered(rt, places, 1));
        sure(&rt, are_answered(rt, places, 64));
        sure(&rt, are_answered(rt, places, 130));
    }
}

/// True, false and null, three times each, with true, false and null in turn; a bit is set under
/// each null.
fn nine_rows(operator: Operator) -> (u64, u64)
    requires { is_boolean operator ≡ true }
{
    kleene_words(
        operator,
        0b111_000_111,
        0b000_111_111,
        0b101_101_101,
        0b011_011_011,
    )
}

#[test]
fn words_follow_kleenes_tables(rt: HostRuntime) {
    assert!(rt; nine_rows(Operator::And) == (0b101_000_101, 0b010_111_011));
    assert!(rt; nine_rows(Operator::Or) == (0b111_101_111, 0b001_011_111));
}

/// True, false and null, or a null scalar.
fn or_null(alloc: Global) -> Made {
    let values = bits_from(alloc, &[true, false, true], 3, true)?;
    let valid = bits_from(alloc, &[true, true, false], 3, false)?;
    if values.len() != valid.len() {
        return Err(VortexError::InvalidColumn);
    }
    kept(
        alloc,
        kleene_boolean_buffer_scalar(
            values,
            Validity::Array(valid),
            None,
            Operator::Or,
            Nullability::Nullable,
            &mut ExecutionCtx::new(alloc),
        ),
    )
}

#[test]
fn a_null_scalar_leaves_what_decides(rt: HostRuntime) {
    sure(&rt, reads(rt, or_null(rt.alloc()), "bool?: true null null"));
}
