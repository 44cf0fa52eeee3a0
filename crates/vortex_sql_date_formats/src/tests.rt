//! Rows beside what PostgreSQL 15 returned for them on 30 November and 1 December 2026.

use crate::faults::{OTHER_FORMAT, UNKNOWN_FORMAT};
use crate::from_texts::{TextToDateBy, TextToTimestampBy};
use crate::to_texts::{DateToChar, TimestampToChar};
use vortex_columns::{Cell, PType, VortexError, VortexResult};
use vortex_sql_rows::row::{RowFn, TextFn};

fn is_number(answer: VortexResult<Cell<'_>>, expected: i128) -> bool {
    match answer {
        Ok(Cell::Int(number)) => number == expected,
        _ => false,
    }
}

fn is_text(answer: VortexResult<Option<String>>, expected: &str) -> bool {
    match answer {
        Ok(Some(text)) => text.as_str() == expected,
        _ => false,
    }
}

fn is_fault(answer: VortexResult<Cell<'_>>, expected: u64) -> bool {
    match answer {
        Err(VortexError::Custom(number)) => number == expected,
        _ => false,
    }
}

#[test]
fn dates_have_these_texts(rt: HostRuntime) {
    let rows: [(i128, &str, &str); 19] = [
        (19782, "DD-Mon-YY", "29-Feb-24"),
        (-719162, "YY yy YYYYYY", "01 01 000101"),
        (-25508, "YYMMDD", "000301"),
        (19782, "YYYY \"Q\"Q", "2024 Q1"),
        (19782, "\"at\" HH24", "at 00"),
        (19782, "\"YYYY\"YYYY\"\"MM\"年, T\"", "YYYY202402年, T"),
        (19782, "\"\"", ""),
        (19782, "YYYY-MM-DD", "2024-02-29"),
        (-719162, "YYYY-MM-DD", "0001-01-01"),
        (2932896, "YYYY-MM-DD", "9999-12-31"),
        (-1, "dd.mm.yyyy", "31.12.1969"),
        (19782, "DDD/YYYY Q", "060/2024 1"),
        (2932896, "DDD/YYYY Q", "365/9999 4"),
        (19782, "Mon MON mon", "Feb FEB feb"),
        (-1, "Mon MON mon", "Dec DEC dec"),
        (19782, "YYYYMMDD\"T\"HH24MISS", "20240229T000000"),
        (19782, "MonMM;DDD-DD;QQ;", "Feb02;060-29;11;"),
        (19782, "YYYY年MM月", "2024年02月"),
        (19782, ", ", ", "),
    ];
    for (day, format, text) in rows {
        let cells = [Cell::Int(day), Cell::Text(format)];
        assert!(rt; is_text(DateToChar.make(rt.alloc(), PType::I32, &cells), text));
    }
}

#[test]
fn timestamps_have_these_texts(rt: HostRuntime) {
    let rows: [(i128, &str, &str); 4] = [
        (
            1709210096789012,
            "YYYY-MM-DD\"T\"HH24:MI:SS.US",
            "2024-02-29T12:34:56.789012",
        ),
        (1709210096789012, "hh24:MI, MS SSss", "12:34, 789 5656"),
        (
            -1,
            "YYYY-MM-DD\"T\"HH24:MI:SS.US",
            "1969-12-31T23:59:59.999999",
        ),
        (-1, "hh24:MI, MS", "23:59, 999"),
    ];
    for (micros, format, text) in rows {
        let cells = [Cell::Int(micros), Cell::Text(format)];
        assert!(rt; is_text(TimestampToChar.make(rt.alloc(), PType::I64, &cells), text));
    }
}

#[test]
fn names_and_numbers_have_these_texts(rt: HostRuntime) {
    let rows: [(i128, &str, &str); 23] = [
        (
            19782,
            "Month|MONTH|month|",
            "February |FEBRUARY |february |",
        ),
        (
            19782,
            "FMMonth|fmMONTH|FMmonth|FMMon",
            "February|FEBRUARY|february|Feb",
        ),
        (-1, "Month;Month DD", "December ;December  31"),
        (12314, "DD Month YYYY", "19 September 2003"),
        (19782, "Day|DAY|day|", "Thursday |THURSDAY |thursday |"),
        (19782, "FMDay|fmDAY|FMday", "Thursday|THURSDAY|thursday"),
        (19782, "Dy DY dy FMDy", "Thu THU thu Thu"),
        (-719162, "FMDay, Dy", "Monday, Mon"),
        (19782, "Dday|", "5thursday |"),
        (19783, "DyDayDDDDDD", "FriFriday   061061"),
        (19784, "Dy Day", "Sat Saturday "),
        (19785, "FMDay Dy", "Sunday Sun"),
        (19787, "Dy", "Tue"),
        (19788, "Dy day", "Wed wednesday"),
        (12314, "FMDD/FMMM/FMYYYY", "19/9/2003"),
        (-719162, "FMDD FMMM FMYYYY FMDDD FMYY FMQ", "1 1 1 1 1 1"),
        (19782, "IYYY-\"W\"IW-ID D", "2024-W09-4 5"),
        (12053, "IYYY-\"W\"IW-ID D", "2003-W01-3 4"),
        (-719162, "IYYY FMIYYY IW FMIW ID D", "0001 1 01 1 1 2"),
        (2932896, "IYYY IW ID D", "9999 52 5 6"),
        (19723, "iyyyiwidd", "20240112"),
        (19722, "IYYY IW ID D YYYY", "2023 52 7 1 2023"),
        (19782, "IYYYYYYY", "20242024"),
    ];
    for (day, format, text) in rows {
        let cells = [Cell::Int(day), Cell::Text(format)];
        assert!(rt; is_text(DateToChar.make(rt.alloc(), PType::I32, &cells), text));
    }
}

#[test]
fn halves_of_days_have_these_texts(rt: HostRuntime) {
    let rows: [(i128, &str, &str); 8] = [
        (1709210096789012, "HH:MI AM", "12:34 PM"),
        (1709210096789012, "HH12 pm hh12 PM am", "12 pm 12 PM pm"),
        (0, "HH AM HH12 HH24", "12 AM 12 00"),
        (-1, "FMHH:MI PM", "11:59 PM"),
        (
            1709168523040000,
            "FMHH12:FMMI:FMSS FMHH24 FMMS FMUS am",
            "1:2:3 1 040 040000 am",
        ),
        (43199999999, "HH am", "11 am"),
        (43200000000, "HH am", "12 pm"),
        (46800000000, "HH12HHHH24 PM", "010113 PM"),
    ];
    for (micros, format, text) in rows {
        let cells = [Cell::Int(micros), Cell::Text(format)];
        assert!(rt; is_text(TimestampToChar.make(rt.alloc(), PType::I64, &cells), text));
    }
}

#[test]
fn formats_that_are_not_taken_are_faults(rt: HostRuntime) {
    let formats: [&str; 17] = [
        "",
        "YYY",
        "Yyyy",
        "SSSS",
        "MOnth",
        "DAy",
        "FM",
        "FM-DD",
        "FMFMDD",
        "FmDD",
        "IDDD",
        "Am",
        "DDth",
        "YYYY \"at",
        "YYYY \"",
        "YYYY \"a\\b\"",
        "\\\"T\"",
    ];
    for format in formats {
        let cells = [Cell::Int(0), Cell::Text(format)];
        assert!(rt; DateToChar.make(rt.alloc(), PType::I32, &cells).is_err());
    }
    let readings: [&str; 19] = [
        "YYYY YY",
        "DD/MM",
        "YYYY DDD",
        "YYYY Q",
        "YYYY MM Mon",
        "YYYY-MM-DD YYYY",
        "YYYY MS US",
        "YYYY AM",
        "YYYY HH24 AM",
        "YYYY HH24 HH12",
        "YYYY HH12 HH AM",
        "YYYY HH12 AM PM",
        "YYYY Month MM",
        "YYYY Day",
        "YYYY Dy",
        "YYYY FMDD",
        "YYYY FMMS",
        "IYYY",
        "YYYY ID",
    ];
    for format in readings {
        let cells = [Cell::Text("2024"), Cell::Text(format)];
        let answer = TextToDateBy.answer(PType::I64, &cells);
        assert!(rt; is_fault(answer, UNKNOWN_FORMAT));
    }
}

#[test]
fn texts_are_dates(rt: HostRuntime) {
    let rows: [(&str, &str, i128); 21] = [
        ("1 March 2024", "DD Month YYYY", 19783),
        ("29FEBRUARY2024", "DDMONTHYYYY", 19782),
        ("may 5, 1969", "FMMonth DD, YYYY", -241),
        ("September-2003", "month-YYYY", 12296),
        ("2024 12 AM", "YYYY HH12 AM", 19723),
        ("19-Sep-03", "DD-Mon-YY", 12314),
        ("690101", "YYMMDD", 36160),
        ("12/31/70", "MM/DD/YY", 364),
        ("00", "YY", 10957),
        ("99-1", "yy-mm", 10592),
        ("day 5 of 2024", "\"day \"DD\" of \"YYYY", 19727),
        ("15022024", "DD\"02\"YYYY", 19737),
        ("2024年3月", "YYYY\"年\"MM\"月\"", 19783),
        ("31/12/2024", "DD/MM/YYYY", 20088),
        ("1/2/2024", "DD/MM/YYYY", 19754),
        ("20240229", "YYYYMMDD", 19782),
        ("2024", "YYYY", 19723),
        ("2024-05", "YYYY-DD", 19727),
        ("29feb2024", "DDMonYYYY", 19782),
        ("1969-12-31 23:59", "YYYY-MM-DD HH24:MI", -1),
        ("9999年1月9", "YYYY年MM月DD", 2932540),
    ];
    for (text, format, day) in rows {
        let cells = [Cell::Text(text), Cell::Text(format)];
        assert!(rt; is_number(TextToDateBy.answer(PType::I64, &cells), day));
    }
}

#[test]
fn texts_are_timestamps(rt: HostRuntime) {
    let rows: [(&str, &str, i128); 13] = [
        (
            "2024-02-29 12:34 PM",
            "YYYY-MM-DD HH12:MI AM",
            1709210040000000,
        ),
        (
            "2024-02-29 12:34 am",
            "YYYY-MM-DD HH:MI PM",
            1709166840000000,
        ),
        ("2024-02-29 1:02pM", "YYYY-MM-DD HH:MIam", 1709211720000000),
        ("2024-02-29 11 AM", "YYYY-MM-DD HH12 pm", 1709204400000000),
        ("2024-02-29 12", "YYYY-MM-DD HH12", 1709164800000000),
        ("2024-02-29 07", "YYYY-MM-DD HH", 1709190000000000),
        (
            "PM 03 December 31 1969",
            "AM HH12 Month DD YYYY",
            -32400000000,
        ),
        (
            "2024-02-29T12:34:56Z",
            "YYYY-MM-DD\"T\"HH24:MI:SS\"Z\"",
            1709210096000000,
        ),
        (
            "2024-02-29T12:34:56.5",
            "YYYY-MM-DD\"T\"HH24:MI:SS.MS",
            1709210096500000,
        ),
        (
            "2024-02-29 1:2:3.04",
            "YYYY-MM-DD HH24:MI:SS.US",
            1709168523040000,
        ),
        (
            "20240229123456789012",
            "YYYYMMDDHH24MISSUS",
            1709210096789012,
        ),
        ("1 MAR 1969", "DD Mon YYYY", -26438400000000),
        ("1969-12-31 23:59:59.999999", "YYYY-MM-DD HH24:MI:SS.US", -1),
    ];
    for (text, format, micros) in rows {
        let cells = [Cell::Text(text), Cell::Text(format)];
        let answer = TextToTimestampBy.answer(PType::I64, &cells);
        assert!(rt; is_number(answer, micros));
    }
}

#[test]
fn other_texts_are_faults(rt: HostRuntime) {
    let rows: [(&str, &str); 25] = [
        ("2024 13 AM", "YYYY HH12 AM"),
        ("2024 0 PM", "YYYY HH12 AM"),
        ("2024 13", "YYYY HH12"),
        ("2024 00", "YYYY HH"),
        ("2024 12 XM", "YYYY HH12 AM"),
        ("2024 12 A", "YYYY HH12 AM"),
        ("Mar 2024", "Month YYYY"),
        ("Marcx 2024", "Month YYYY"),
        ("March 2024", "Mon YYYY"),
        ("3-01-01", "YY-MM-DD"),
        ("2003-01-01", "YY-MM-DD"),
        ("2024 P1", "YYYY \"Q1\""),
        ("5022024", "DD\"02\"YYYY"),
        ("2023-02-29", "YYYY-MM-DD"),
        ("2024-13-01", "YYYY-MM-DD"),
        ("2024-00-05", "YYYY-MM-DD"),
        ("0000-01-01", "YYYY-MM-DD"),
        ("24-01-01", "YYYY-MM-DD"),
        ("2024-01-01 ", "YYYY-MM-DD"),
        ("2024-01-", "YYYY-MM-DD"),
        ("20241", "YYYYMMDD"),
        ("2024-12-31 24:00:00", "YYYY-MM-DD HH24:MI:SS"),
        ("2024-12-31 23:60:00", "YYYY-MM-DD HH24:MI:SS"),
        ("1 Mai 2024", "DD Mon YYYY"),
        ("", "YYYY"),
    ];
    for (text, format) in rows {
        let cells = [Cell::Text(text), Cell::Text(format)];
        let date = TextToDateBy.answer(PType::I64, &cells);
        assert!(rt; is_fault(date, OTHER_FORMAT));
        let timestamp = TextToTimestampBy.answer(PType::I64, &cells);
        assert!(rt; is_fault(timestamp, OTHER_FORMAT));
    }
}
