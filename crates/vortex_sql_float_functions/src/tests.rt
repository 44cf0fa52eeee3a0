//! Floats at a place beside PostgreSQL's `round(x::numeric, n)` and `trunc`, by keys that Python's
//! `struct` made on 1 December 2026.

use crate::places::FloatPlaces;
use vortex_columns::{Cell, PType};
use vortex_sql_rows::row::RowFn;

fn has(function: FloatPlaces, number: i128, places: i128, expected: i128) -> bool {
    match function.answer(PType::I64, &[Cell::Int(number), Cell::Int(places)]) {
        Ok(Cell::Int(result)) => result == expected,
        _ => false,
    }
}

#[test]
fn floats_are_rounded_at_a_place(rt: HostRuntime) {
    // 0.125, 2.675, 1.005, -0.125, 12.345, 0.30000000000000004, 999999.995, 0.5, -2.5, -0.004,
    // 5e-324; then what is left as it is: 1e300, 1234567890123456.0, 1e15, 0, -infinity, a NaN
    let rows: [(i128, i128, i128, i128); 17] = [
        (
            4593671619917905920,
            2,
            4593851763903000740,
            4593311331947716280,
        ),
        (
            4613205983301625446,
            2,
            4613217242300693873,
            4613194724302557020,
        ),
        (
            4607204936798154260,
            2,
            4607227454796291113,
            4607182418800017408,
        ),
        (
            -4593671619917905920,
            2,
            -4593851763903000740,
            -4593311331947716280,
        ),
        (
            4623139235229744497,
            2,
            4623142049979511603,
            4623136420479977390,
        ),
        (
            4599075939470750516,
            2,
            4599075939470750515,
            4599075939470750515,
        ),
        (
            4696837146641736663,
            2,
            4696837146684686336,
            4696837146598786990,
        ),
        (4602678819172646912, 0, 4607182418800017408, 0),
        (
            -4612811918334230528,
            0,
            -4613937818241073152,
            -4611686018427387904,
        ),
        (-4571261708172110332, 2, 0, 0),
        (1, 2, 0, 0),
        (
            9094988921128908188,
            2,
            9094988921128908188,
            9094988921128908188,
        ),
        (
            4832797072101665536,
            2,
            4832797072101665536,
            4832797072101665536,
        ),
        (
            4831355200913801216,
            2,
            4831355200913801216,
            4831355200913801216,
        ),
        (0, 2, 0, 0),
        (
            -9218868437227405312,
            0,
            -9218868437227405312,
            -9218868437227405312,
        ),
        (
            9221120237041090560,
            19,
            9221120237041090560,
            9221120237041090560,
        ),
    ];
    for (number, places, rounded, cut) in rows {
        assert!(rt; has(FloatPlaces::Round, number, places, rounded));
        assert!(rt; has(FloatPlaces::Trunc, number, places, cut));
    }
    // 0.29
    assert!(rt;
        has(
            FloatPlaces::Trunc,
            4598895795485655695,
            2,
            4598895795485655695
        )
    );
}

#[test]
fn other_values_are_faults(rt: HostRuntime) {
    // the last two are above the infinity and no NaN
    let rows: [(i128, i128); 4] = [
        (4593671619917905920, -1),
        (4593671619917905920, 20),
        (9218868437227405313, 2),
        (-9221120237041090560, 2),
    ];
    for (number, places) in rows {
        let cells = [Cell::Int(number), Cell::Int(places)];
        assert!(rt; FloatPlaces::Round.answer(PType::I64, &cells).is_err());
    }
}
