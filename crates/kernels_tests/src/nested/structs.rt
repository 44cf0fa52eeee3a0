//! Structs, a field at a time.

use crate::bits::{bits_from, truths_from};
use crate::nested::LENGTHS;
use crate::questions::{COMPARISONS, compared, says_in_turn, sure};
use fixtures::{Made, kept, names, nullable_ints};
use std::alloc::Global;
use vortex_columns::{Column, Validity, VortexResult};
use vortex_kernels::CompareOperator;

/// A struct: an integer and a truth value; none for a null row.
type Row = Option<(Option<i32>, Option<bool>)>;

/// The left rows, which repeat.
const LEFT: [Row; 9] = [
    Some((Some(1), Some(true))),
    Some((Some(1), Some(false))),
    Some((None, Some(true))),
    Some((Some(2), None)),
    None,
    Some((Some(7), Some(true))),
    Some((None, Some(true))),
    Some((Some(5), Some(false))),
    Some((Some(-3), None)),
];

/// The right rows beside them.
const RIGHT: [Row; 9] = [
    Some((Some(1), Some(true))),
    Some((Some(1), Some(true))),
    Some((None, Some(true))),
    Some((Some(2), Some(false))),
    Some((Some(1), Some(false))),
    None,
    Some((Some(-9), Some(false))),
    Some((None, Some(true))),
    Some((Some(-4), Some(true))),
];

/// What each comparison says of them, in the order of `COMPARISONS`, by letters.
const WANTED: [&str; 6] = [
    "tftfnnfff",
    "ftftnnttt",
    "ffffnnftt",
    "tftfnnftt",
    "ftftnntff",
    "ttttnntff",
];

/// What they say where a null struct is a value within another: it is below the others.
const WITHIN: [&str; 6] = [
    "tntffffff",
    "fnftttttt",
    "fnffftftt",
    "tntfftftt",
    "fnfttftff",
    "tntttftff",
];

/// So many structs, one of the rows in turn. Under a null row both fields have a value.
fn structs(alloc: Global, rows: &[Row; 9], len: usize, offset: usize) -> Made {
    let mut first = Vec::new(alloc);
    let mut second = Vec::new(alloc);
    let mut valid = Vec::new(alloc);
    for i in 0..len {
        let row = rows[i % 9];
        let (number, truth) = row.unwrap_or((Some(1), Some(true)));
        first.push(number)?;
        second.push(truth)?;
        valid.push(row.is_some())?;
    }
    let mut fields = Vec::new(alloc);
    fields.push(Box::into_inner(nullable_ints(alloc, &first)?))?;
    fields.push(truths_from(alloc, &second, offset, true)?)?;
    let valid = Validity::Array(bits_from(alloc, &valid, offset, false)?);
    let names = names(alloc, &["a", "b"])?;
    kept(alloc, Column::try_struct(alloc, names, fields, len, valid))
}

/// Whether a comparison answers what is expected for each count of rows.
fn answers(rt: HostRuntime, operator: CompareOperator, expected: &str) -> VortexResult<bool> {
    let alloc = rt.alloc();
    for len in LENGTHS {
        let left = structs(alloc, &LEFT, len, 5);
        let right = structs(alloc, &RIGHT, len, 2);
        if !says_in_turn(rt, compared(alloc, left, operator, right), expected)? {
            return Ok(false);
        }
    }
    Ok(true)
}

/// Nine structs of the structs, of which the second is null where `valid` says so.
fn nested(alloc: Global, rows: &[Row; 9], is_second_valid: bool) -> Made {
    let mut valid = [true; 9];
    valid[1] = is_second_valid;
    let validity = Validity::Array(bits_from(alloc, &valid, 6, true)?);
    let mut fields = Vec::new(alloc);
    fields.push(Box::into_inner(structs(alloc, rows, 9, 4)?))?;
    let names = names(alloc, &["inner"])?;
    kept(alloc, Column::try_struct(alloc, names, fields, 9, validity))
}

#[test]
fn the_first_field_that_differs_decides(rt: HostRuntime) {
    for k in 0..6 {
        sure(&rt, answers(rt, COMPARISONS[k], WANTED[k]));
    }
}

#[test]
fn a_null_within_is_a_value(rt: HostRuntime) {
    let alloc = rt.alloc();
    for k in 0..6 {
        let (left, right) = (nested(alloc, &LEFT, false), nested(alloc, &RIGHT, true));
        let answer = compared(alloc, left, COMPARISONS[k], right);
        sure(&rt, says_in_turn(rt, answer, WITHIN[k]));
    }
}
