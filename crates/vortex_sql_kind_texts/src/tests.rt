//! Rows beside what Python's `datetime`, `struct` and `decimal` made of them on 29 November 2026.

use crate::decimals::{DecimalRound, Rounding};
use crate::float_decimals::FloatToDecimal;
use crate::float_texts::FloatToText;
use crate::from_texts::{TextToDecimal, TextToKind};
use crate::kinds::{StoredKind, WrittenKind};
use crate::scales::DecimalScaled;
use crate::to_texts::{DecimalToText, KindToText};
use vortex_columns::{Cell, PType, VortexResult};
use vortex_float_texts::width::Width;
use vortex_sql_rows::row::{RowFn, TextFn};
use vortex_sql_try_casts::try_fn::Try;

fn is_number(answer: VortexResult<Cell<'_>>, expected: i128) -> bool {
    match answer {
        Ok(Cell::Int(number)) => number == expected,
        _ => false,
    }
}

fn is_null(answer: VortexResult<Cell<'_>>) -> bool {
    matches!(answer, Ok(Cell::Null))
}

fn is_text(answer: VortexResult<Option<String>>, expected: &str) -> bool {
    match answer {
        Ok(Some(text)) => text.as_str() == expected,
        _ => false,
    }
}

#[test]
fn texts_are_values_of_kinds(rt: HostRuntime) {
    let rows: [(StoredKind, &str, i128); 15] = [
        (StoredKind::Date, "2024-02-29", 19782),
        (StoredKind::Date, "\t 1969-12-31\n", -1),
        (StoredKind::Date, "0001-01-01", -719162),
        (
            StoredKind::Timestamp,
            "2024-02-29 12:34:56.5",
            1709210096500000,
        ),
        (StoredKind::Timestamp, " 2024-02-29 ", 1709164800000000),
        (StoredKind::Timestamp, "1969-12-31T23:59:59.999999", -1),
        (StoredKind::F64, " 1.5", 4609434218613702656),
        (StoredKind::F64, "1e300", 9094988921128908188),
        (StoredKind::F64, "-0.0", 0),
        (StoredKind::F64, "0.1", 4591870180066957722),
        (StoredKind::F32, "0.1", 1036831949),
        (StoredKind::F32, "-0.25 ", -1048576000),
        (StoredKind::F64, " -Infinity", -9218868437227405312),
        (
            StoredKind::F64,
            "1.7976931348623157e308",
            9218868437227405311,
        ),
        (StoredKind::F32, "inf", 2139095040),
    ];
    for (kind, text, expected) in rows {
        let answer = TextToKind { kind }.answer(PType::I64, &[Cell::Text(text)]);
        assert!(rt; is_number(answer, expected));
    }
}

#[test]
fn other_texts_are_faults_or_null(rt: HostRuntime) {
    let rows: [(StoredKind, &str); 9] = [
        (StoredKind::Date, "2023-02-29"),
        (StoredKind::Date, "2024-02-29 12:34:56"),
        (StoredKind::Date, "2024-2-9"),
        (StoredKind::Timestamp, "2024-02-29 25:00:00"),
        (StoredKind::F64, "1.5x"),
        (StoredKind::F32, ""),
        (StoredKind::F64, "1e400"),
        (StoredKind::F64, "-1.8e308"),
        (StoredKind::F32, "1e39"),
    ];
    for (kind, text) in rows {
        let function = TextToKind { kind };
        assert!(rt; function.answer(PType::I64, &[Cell::Text(text)]).is_err());
        let tried = Try {
            function: &function,
        };
        assert!(rt; is_null(tried.answer(PType::I64, &[Cell::Text(text)])));
    }
}

#[test]
fn texts_are_decimals(rt: HostRuntime) {
    let rows: [(&str, i128, i128, i128); 5] = [
        ("12.5", 12, 2, 1250),
        (" -0.05 ", 4, 2, -5),
        ("+7", 1, 0, 7),
        (".5", 2, 1, 5),
        ("999999999999999999", 18, 0, 999999999999999999),
    ];
    for (text, precision, scale, expected) in rows {
        let cells = [Cell::Text(text), Cell::Int(precision), Cell::Int(scale)];
        assert!(rt; is_number(TextToDecimal.answer(PType::I64, &cells), expected));
    }
    let faults: [(&str, i128, i128); 5] = [
        ("12.345", 12, 2),
        ("1000", 3, 0),
        ("1", 19, 0),
        ("1", 2, 3),
        ("1", 2, -1),
    ];
    for (text, precision, scale) in faults {
        let cells = [Cell::Text(text), Cell::Int(precision), Cell::Int(scale)];
        assert!(rt; TextToDecimal.answer(PType::I64, &cells).is_err());
        let tried = Try {
            function: &TextToDecimal,
        };
        assert!(rt; is_null(tried.answer(PType::I64, &cells)));
    }
}

#[test]
fn values_of_kinds_have_texts(rt: HostRuntime) {
    let rows: [(WrittenKind, i128, &str); 7] = [
        (WrittenKind::Date, 19782, "2024-02-29"),
        (WrittenKind::Date, -683303, "0099-03-07"),
        (WrittenKind::Date, 2932896, "9999-12-31"),
        (
            WrittenKind::Timestamp,
            1709190296000000,
            "2024-02-29T07:04:56",
        ),
        (
            WrittenKind::Timestamp,
            1709210096500000,
            "2024-02-29T12:34:56.500000",
        ),
        (WrittenKind::Timestamp, -1, "1969-12-31T23:59:59.999999"),
        (
            WrittenKind::Timestamp,
            253402300799999999,
            "9999-12-31T23:59:59.999999",
        ),
    ];
    for (kind, number, text) in rows {
        let answer = KindToText { kind }.make(rt.alloc(), PType::I64, &[Cell::Int(number)]);
        assert!(rt; is_text(answer, text));
    }
    let faults: [(WrittenKind, i128); 3] = [
        (WrittenKind::Date, 2932897),
        (WrittenKind::Date, 3000000000),
        (WrittenKind::Timestamp, 253402300800000000),
    ];
    for (kind, number) in faults {
        let answer = KindToText { kind }.make(rt.alloc(), PType::I64, &[Cell::Int(number)]);
        assert!(rt; answer.is_err());
    }
}

#[test]
fn floats_have_texts(rt: HostRuntime) {
    let rows: [(Width, i128, &str); 27] = [
        (Width::F64, 4611686018427387904, "2.0"),
        (Width::F64, 4612811918334230528, "2.5"),
        (Width::F64, 4591870180066957722, "0.1"),
        (Width::F64, 4599075939470750516, "0.30000000000000004"),
        (Width::F64, 4831355200913801216, "1000000000000000.0"),
        (Width::F64, 4846369599423283200, "1e16"),
        (Width::F64, 4906019910204099648, "1e20"),
        (Width::F64, 4950912855330343670, "1e23"),
        (Width::F64, 4532020583610935537, "0.00001"),
        (Width::F64, 4517329193108106637, "1e-6"),
        (Width::F64, 4504762867522569078, "1.5e-7"),
        (Width::F64, 1, "5e-324"),
        (Width::F64, 4503599627370496, "2.2250738585072014e-308"),
        (Width::F64, 9218868437227405311, "1.7976931348623157e308"),
        (Width::F64, -4638387860618067575, "-123.456"),
        (Width::F64, 4832362400168542209, "1125899906842624.2"),
        (Width::F64, 4832362400168542211, "1125899906842624.8"),
        (Width::F64, 4409024035195715584, "5.684341886080802e-14"),
        (Width::F64, 0, "0.0"),
        (Width::F64, -9218868437227405312, "-inf"),
        (Width::F64, 9221120237041090560, "NaN"),
        (Width::F32, 1036831949, "0.1"),
        (Width::F32, 1399379109, "1000000000000.0"),
        (Width::F32, 1427211495, "1e13"),
        (Width::F32, 897988541, "0.000001"),
        (Width::F32, 2139095039, "3.4028235e38"),
        (Width::F32, 1, "1e-45"),
    ];
    for (width, number, expected) in rows {
        let answer = FloatToText { width }.make(rt.alloc(), PType::I64, &[Cell::Int(number)]);
        assert!(rt; is_text(answer, expected));
    }
    let none = FloatToText { width: Width::F64 };
    let answer = none.make(rt.alloc(), PType::I64, &[Cell::Int(9221120237041090561)]);
    assert!(rt; answer.is_err());
}

#[test]
fn decimals_have_texts(rt: HostRuntime) {
    let rows: [(i128, i128, &str); 5] = [
        (1250, 2, "12.50"),
        (-5, 2, "-0.05"),
        (7, 0, "7"),
        (0, 3, "0.000"),
        (-9223372036854775808, 18, "-9.223372036854775808"),
    ];
    for (number, scale, text) in rows {
        let cells = [Cell::Int(number), Cell::Int(scale)];
        assert!(rt; is_text(DecimalToText.make(rt.alloc(), PType::I64, &cells), text));
    }
    let cells = [Cell::Int(1), Cell::Int(19)];
    assert!(rt; DecimalToText.make(rt.alloc(), PType::I64, &cells).is_err());
}

#[test]
fn decimals_are_rounded(rt: HostRuntime) {
    let roundings = [
        Rounding::Half,
        Rounding::Floor,
        Rounding::Ceiling,
        Rounding::Trunc,
    ];
    let rows: [(i128, i128, [i128; 4]); 11] = [
        (25, 1, [3, 2, 3, 2]),
        (-25, 1, [-3, -3, -2, -2]),
        (24, 1, [2, 2, 3, 2]),
        (-24, 1, [-2, -3, -2, -2]),
        (15, 1, [2, 1, 2, 1]),
        (-5, 1, [-1, -1, 0, 0]),
        (4, 1, [0, 0, 1, 0]),
        (-100, 2, [-1, -1, -1, -1]),
        (0, 3, [0, 0, 0, 0]),
        (9223372036854775807, 18, [9, 9, 10, 9]),
        (
            -9223372036854775808,
            0,
            [
                -9223372036854775808,
                -9223372036854775808,
                -9223372036854775808,
                -9223372036854775808,
            ],
        ),
    ];
    for (number, places, expected) in rows {
        for i in 0..4 {
            let function = DecimalRound {
                rounding: roundings[i],
            };
            let answer = function.answer(PType::I64, &[Cell::Int(number), Cell::Int(places)]);
            assert!(rt; is_number(answer, expected[i]));
        }
    }
}

#[test]
fn numbers_are_scaled(rt: HostRuntime) {
    let rows: [(i128, i128, i128, i128); 3] = [
        (125, 2, 5, 12500),
        (-1, 17, 18, -100000000000000000),
        (0, 18, 1, 0),
    ];
    for (number, places, precision, expected) in rows {
        let cells = [Cell::Int(number), Cell::Int(places), Cell::Int(precision)];
        assert!(rt; is_number(DecimalScaled.answer(PType::I64, &cells), expected));
    }
    let faults: [(i128, i128, i128); 5] = [
        (1000, 2, 5),
        (18446744073709551615, 18, 18),
        (1, 19, 18),
        (1, 0, 0),
        (1, 0, 19),
    ];
    for (number, places, precision) in faults {
        let cells = [Cell::Int(number), Cell::Int(places), Cell::Int(precision)];
        assert!(rt; DecimalScaled.answer(PType::I64, &cells).is_err());
    }
}

#[test]
fn floats_are_decimals(rt: HostRuntime) {
    // 0.125, 2.675, -1.005, 0.30000000000000004, 1e15, 5e-324, 0, 0.29, 1e17
    let rows: [(i128, i128, i128, i128); 9] = [
        (4593671619917905920, 2, 18, 13),
        (4613205983301625446, 2, 3, 268),
        (-4607204936798154260, 2, 3, -101),
        (4599075939470750516, 17, 18, 30000000000000000),
        (4831355200913801216, 2, 18, 100000000000000000),
        (1, 18, 18, 0),
        (0, 2, 5, 0),
        (4598895795485655695, 1, 1, 3),
        (4861130398305394688, 0, 18, 100000000000000000),
    ];
    for (number, scale, precision, expected) in rows {
        let cells = [Cell::Int(number), Cell::Int(scale), Cell::Int(precision)];
        assert!(rt; is_number(FloatToDecimal.answer(PType::I64, &cells), expected));
    }
    // 1e15, 0.95, 1e300, infinity, a NaN; then scales and precisions that no decimal has, and an
    // integer that stands for no float
    let faults: [(i128, i128, i128); 8] = [
        (4831355200913801216, 3, 18),
        (4606732058837280358, 1, 1),
        (9094988921128908188, 0, 18),
        (-9218868437227405312, 0, 18),
        (9221120237041090560, 0, 18),
        (4593671619917905920, 2, 1),
        (4593671619917905920, 0, 19),
        (9218868437227405313, 0, 18),
    ];
    for (number, scale, precision) in faults {
        let cells = [Cell::Int(number), Cell::Int(scale), Cell::Int(precision)];
        assert!(rt; FloatToDecimal.answer(PType::I64, &cells).is_err());
        let tried = Try {
            function: &FloatToDecimal,
        };
        assert!(rt; is_null(tried.answer(PType::I64, &cells)));
    }
}
