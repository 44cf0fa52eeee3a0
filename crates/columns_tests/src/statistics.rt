//! Statistics of a column, joined, and from parts.

use crate::questions::sure;
use fixtures::{kept, same};
use std::alloc::Global;
use vortex_columns::{Column, DType, Nullability, PType, ScalarValue, VortexResult};
use vortex_statistics::{End, Parts, Statistics};

/// The number of an end, and whether a row has it.
fn number(end: Option<&End>) -> Option<(i128, bool)> {
    match end {
        Some(
            End {
                value: ScalarValue::Int(number),
                attained,
            },
        ) => Some((*number, *attained)),
        _ => None,
    }
}

/// Whether the counts of rows and nulls are these, and so the numbers of the ends.
fn are(
    rt: HostRuntime,
    statistics: &Statistics,
    counts: [u64; 2],
    ends: [(i128, bool); 2],
) -> bool {
    let [rows, nulls] = counts;
    let [low, high] = ends;
    same(
        rt,
        (statistics.rows(), statistics.nulls()),
        (Some(rows), Some(nulls)),
    ) && same(rt, number(statistics.low()), Some(low))
        && same(rt, number(statistics.high()), Some(high))
}

/// Whether 3, -7 and 12 beside two nulls are measured, and nothing is known of unknown statistics.
fn are_measured(rt: HostRuntime) -> VortexResult<bool> {
    let alloc = rt.alloc();
    let rows = [Some(3i64), None, Some(-7), Some(12), None];
    let column = kept(alloc, Column::of_ints(alloc, &rows))?;
    let statistics = Statistics::of(&column, alloc)?;
    let unknown = Statistics::unknown(column.dtype().try_clone(alloc)?);
    let is_known = unknown.rows().is_none() && !statistics.skips_nan();
    Ok(is_known && are(rt, &statistics, [5, 2], [(-7, true), (12, true)]))
}

#[test]
fn columns_are_measured(rt: HostRuntime) {
    sure(&rt, are_measured(rt));
}

/// Statistics of ten 64-bit integers between these, of which none is null.
fn ten(low: i128, high: i128, attained: bool) -> VortexResult<Statistics> {
    let low = ScalarValue::Int(low);
    let high = ScalarValue::Int(high);
    Statistics::try_new(Parts {
        dtype: DType::Primitive(PType::I64, Nullability::Nullable),
        rows: Some(10),
        nulls: Some(0),
        low: Some(End {
            value: low,
            attained,
        }),
        high: Some(End {
            value: high,
            attained,
        }),
        skips_nan: false,
    })
}

/// Whether the lower and the higher end are chosen, attained if either is of that value.
fn are_joined(rt: HostRuntime, alloc: Global) -> VortexResult<bool> {
    let (left, right) = (ten(3, 9, false)?, ten(5, 9, true)?);
    let both = left.joined(&right, alloc)?;
    Ok(are(rt, &both, [20, 0], [(3, false), (9, true)]))
}

#[test]
fn statistics_are_joined(rt: HostRuntime) {
    sure(&rt, are_joined(rt, rt.alloc()));
}
