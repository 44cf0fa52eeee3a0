//! Lists, an element at a time: of unlike lengths, over elements in any order, with nulls among
//! these.

use crate::nested::LENGTHS;
use crate::questions::{COMPARISONS, compared, says_in_turn, sure, valid_rows};
use fixtures::{Made, kept, nullable_ints};
use std::alloc::Global;
use vortex_columns::{Column, VortexResult};
use vortex_kernels::CompareOperator;

/// A list: the place of its first element, and how many there are; none for a null row.
type List = Option<(usize, usize)>;

/// The elements of the left lists.
const LEFT_ELEMENTS: [Option<i32>; 7] = [
    Some(1),
    Some(2),
    Some(3),
    Some(7),
    Some(-5),
    None,
    Some(1),
];

/// The lists [1, 2], [1, 2, 3], [], [7, -5], [2], null and [-5], and then [null], [null, 1],
/// [null], [1], [null], null and [].
const LEFT: [List; 14] = [
    Some((0, 2)),
    Some((0, 3)),
    Some((2, 0)),
    Some((3, 2)),
    Some((1, 1)),
    None,
    Some((4, 1)),
    Some((5, 1)),
    Some((5, 2)),
    Some((5, 1)),
    Some((0, 1)),
    Some((5, 1)),
    None,
    Some((7, 0)),
];

/// The elements of the right lists.
const RIGHT_ELEMENTS: [Option<i32>; 6] = [Some(1), Some(2), Some(7), Some(-4), Some(0), None];

/// The lists [1, 2], [1, 2], [0], [7, -4], null, [1] and [], and then [1], [null], [null], [null],
/// [], [1] and [null].
const RIGHT: [List; 14] = [
    Some((0, 2)),
    Some((0, 2)),
    Some((4, 1)),
    Some((2, 2)),
    None,
    Some((0, 1)),
    Some((6, 0)),
    Some((0, 1)),
    Some((5, 1)),
    Some((5, 1)),
    Some((5, 1)),
    Some((3, 0)),
    Some((0, 1)),
    Some((5, 1)),
];

/// What each comparison says of them, in the order of `COMPARISONS`, by letters; a null is least.
const WANTED: [&str; 6] = [
    "tfffnnffftffnf",
    "ftttnntttfttnt",
    "ftffnntftfttnf",
    "ttffnntfttttnf",
    "ffttnnftffffnt",
    "tfttnnftftffnt",
];

/// So many lists of the elements, one of the rows in turn.
fn lists(alloc: Global, elements: Made, rows: &[List; 14], len: usize) -> Made {
    let mut offsets = Vec::new(alloc);
    let mut sizes = Vec::new(alloc);
    let mut valid = Vec::new(alloc);
    for i in 0..len {
        let row = rows[i % 14];
        let (offset, size) = row.unwrap_or((0, 1));
        offsets.push(offset)?;
        sizes.push(size)?;
        valid.push(row.is_some())?;
    }
    let valid = valid_rows(alloc, &valid)?;
    let elements = Box::into_inner(elements?);
    kept(
        alloc,
        Column::try_list(alloc, elements, offsets, sizes, valid),
    )
}

/// Whether a comparison answers what is expected for each count of rows.
fn answers(rt: HostRuntime, operator: CompareOperator, expected: &str) -> VortexResult<bool> {
    let alloc = rt.alloc();
    for len in LENGTHS {
        let left = lists(alloc, nullable_ints(alloc, &LEFT_ELEMENTS), &LEFT, len);
        let right = lists(alloc, nullable_ints(alloc, &RIGHT_ELEMENTS), &RIGHT, len);
        if !says_in_turn(rt, compared(alloc, left, operator, right), expected)? {
            return Ok(false);
        }
    }
    Ok(true)
}

#[test]
fn the_first_elements_that_differ_decide(rt: HostRuntime) {
    for k in 0..6 {
        sure(&rt, answers(rt, COMPARISONS[k], WANTED[k]));
    }
}
