//! Rows beside what PostgreSQL 15 returned for them on 29 November 2026.

use crate::made::MakeDate;
use crate::months::{DateAddMonths, TimestampAddMonths};
use crate::parts::{DatePart, Part, TimestampPart};
use crate::truncations::{DateTrunc, TimestampTrunc, Unit};
use vortex_columns::{Cell, PType, VortexResult};
use vortex_sql_rows::row::RowFn;

/// The parts that a row of the lists below has, in this order.
const PARTS: [Part; 9] = [
    Part::Year,
    Part::Quarter,
    Part::Month,
    Part::Week,
    Part::Day,
    Part::DayOfWeek,
    Part::IsoDayOfWeek,
    Part::DayOfYear,
    Part::Epoch,
];

const UNITS: [Unit; 4] = [Unit::Year, Unit::Quarter, Unit::Month, Unit::Week];

fn is_number(answer: VortexResult<Cell<'_>>, expected: i128) -> bool {
    match answer {
        Ok(Cell::Int(number)) => number == expected,
        _ => false,
    }
}

#[test]
fn dates_have_these_parts(rt: HostRuntime) {
    let rows: [(i128, [i128; 9], [i128; 4]); 12] = [
        (
            11016,
            [2000, 1, 2, 9, 29, 2, 2, 60, 951782400],
            [10957, 10957, 10988, 11015],
        ),
        (
            -25509,
            [1900, 1, 2, 9, 28, 3, 3, 59, -2203977600],
            [-25567, -25567, -25536, -25511],
        ),
        (
            -25508,
            [1900, 1, 3, 9, 1, 4, 4, 60, -2203891200],
            [-25567, -25567, -25508, -25511],
        ),
        (
            -1,
            [1969, 4, 12, 1, 31, 3, 3, 365, -86400],
            [-365, -92, -31, -3],
        ),
        (0, [1970, 1, 1, 1, 1, 4, 4, 1, 0], [0, 0, 0, -3]),
        (
            20087,
            [2024, 4, 12, 1, 30, 1, 1, 365, 1735516800],
            [19723, 19997, 20058, 20087],
        ),
        (
            20086,
            [2024, 4, 12, 52, 29, 0, 7, 364, 1735430400],
            [19723, 19997, 20058, 20080],
        ),
        (
            18630,
            [2021, 1, 1, 53, 3, 0, 7, 3, 1609632000],
            [18628, 18628, 18628, 18624],
        ),
        (
            -719162,
            [1, 1, 1, 1, 1, 1, 1, 1, -62135596800],
            [-719162, -719162, -719162, -719162],
        ),
        (
            -719163,
            [-1, 4, 12, 52, 31, 0, 7, 366, -62135683200],
            [-719528, -719254, -719193, -719169],
        ),
        (
            2932896,
            [9999, 4, 12, 52, 31, 5, 5, 365, 253402214400],
            [2932532, 2932805, 2932866, 2932892],
        ),
        (
            -2440550,
            [-4713, 1, 1, 1, 1, 4, 4, 1, -210863520000],
            [-2440550, -2440550, -2440550, -2440553],
        ),
    ];
    for (day, parts, firsts) in rows {
        for i in 0..9 {
            let answer = DatePart { part: PARTS[i] }.answer(PType::I32, &[Cell::Int(day)]);
            assert!(rt; is_number(answer, parts[i]));
        }
        for i in 0..4 {
            let answer = DateTrunc { unit: UNITS[i] }.answer(PType::I32, &[Cell::Int(day)]);
            assert!(rt; is_number(answer, firsts[i]));
        }
    }
}

/// 1969-12-31 23:59:59.5 and 2024-12-30 12:34:56.789012.
#[test]
fn timestamps_have_these_parts(rt: HostRuntime) {
    let parts = [
        Part::Year,
        Part::DayOfYear,
        Part::Epoch,
        Part::Hour,
        Part::Minute,
        Part::Second,
        Part::Millisecond,
        Part::Microsecond,
    ];
    let rows: [(i128, [i128; 8]); 2] = [
        (-500000, [1969, 365, -1, 23, 59, 59, 59500, 59500000]),
        (
            1735562096789012,
            [2024, 365, 1735562096, 12, 34, 56, 56789, 56789012],
        ),
    ];
    for (at, expected) in rows {
        for i in 0..8 {
            let answer = TimestampPart { part: parts[i] }.answer(PType::I64, &[Cell::Int(at)]);
            assert!(rt; is_number(answer, expected[i]));
        }
    }
}

#[test]
fn timestamps_begin_there(rt: HostRuntime) {
    let units = [
        Unit::Year,
        Unit::Quarter,
        Unit::Month,
        Unit::Week,
        Unit::Day,
        Unit::Hour,
        Unit::Minute,
        Unit::Second,
    ];
    let rows: [(i128, [i128; 8]); 1] = [(
        -1437834816294136,
        [
            -1451692800000000,
            -1443830400000000,
            -1438560000000000,
            -1437868800000000,
            -1437868800000000,
            -1437836400000000,
            -1437834840000000,
            -1437834817000000,
        ],
    )];
    for (at, firsts) in rows {
        for i in 0..8 {
            let answer = TimestampTrunc { unit: units[i] }.answer(PType::I64, &[Cell::Int(at)]);
            assert!(rt; is_number(answer, firsts[i]));
        }
    }
}

#[test]
fn a_beginning_that_the_type_lacks_is_a_fault(rt: HostRuntime) {
    let answer = DateTrunc { unit: Unit::Year }.answer(PType::I32, &[Cell::Int(-2147483648)]);
    assert!(rt; answer.is_err());
}

#[test]
fn dates_are_made(rt: HostRuntime) {
    let rows: [([i128; 3], i128); 5] = [
        ([2024, 2, 29], 19782),
        ([1, 1, 1], -719162),
        ([9999, 12, 31], 2932896),
        ([1970, 1, 1], 0),
        ([1900, 3, 1], -25508),
    ];
    for (parts, day) in rows {
        let cells = [
            Cell::Int(parts[0]),
            Cell::Int(parts[1]),
            Cell::Int(parts[2]),
        ];
        assert!(rt; is_number(MakeDate.answer(PType::I32, &cells), day));
    }
}

/// PostgreSQL has the last two: 10000-01-01 and 0044-03-15 BC.
#[test]
fn no_date_is_a_fault(rt: HostRuntime) {
    let rows: [[i128; 3]; 8] = [
        [2023, 2, 29],
        [1900, 2, 29],
        [0, 1, 1],
        [2024, 13, 1],
        [2024, 4, 31],
        [2024, 1, 0],
        [10000, 1, 1],
        [-44, 3, 15],
    ];
    for parts in rows {
        let cells = [
            Cell::Int(parts[0]),
            Cell::Int(parts[1]),
            Cell::Int(parts[2]),
        ];
        assert!(rt; MakeDate.answer(PType::I32, &cells).is_err());
    }
}

/// PostgreSQL returns timestamps for dates, and Python has the same days.
#[test]
fn months_are_added(rt: HostRuntime) {
    let rows: [(i128, i128, i128); 12] = [
        (19753, 1, 19782),
        (19388, 1, 19416),
        (19782, 12, 20147),
        (19782, 48, 21243),
        (19813, -1, 19782),
        (10971, -1, 10940),
        (-25537, 1, -25509),
        (20088, 2, 20147),
        (0, -1, -31),
        (20027, -8, 19782),
        (2932865, 1, 2932895),
        (2932897, -1, 2932866),
    ];
    for (day, months, expected) in rows {
        let cells = [Cell::Int(day), Cell::Int(months)];
        assert!(rt; is_number(DateAddMonths.answer(PType::I32, &cells), expected));
    }
    let times: [(i128, i128, i128); 2] = [
        (946684799500000, 2, 951868799500000),
        (-28943999999999, -11, -58060799999999),
    ];
    for (micros, months, expected) in times {
        let cells = [Cell::Int(micros), Cell::Int(months)];
        assert!(rt; is_number(TimestampAddMonths.answer(PType::I64, &cells), expected));
    }
}

#[test]
fn a_year_that_the_calendar_lacks_is_a_fault(rt: HostRuntime) {
    let rows: [(i128, i128); 3] = [(2932896, 1), (0, 18446744073709551615), (0, -143868)];
    for (number, months) in rows {
        let cells = [Cell::Int(number), Cell::Int(months)];
        assert!(rt; DateAddMonths.answer(PType::I32, &cells).is_err());
        assert!(rt;
            TimestampAddMonths
                .answer(PType::I64, &[Cell::Int(253402300799999999), Cell::Int(1)])
                .is_err()
        );
    }
}
