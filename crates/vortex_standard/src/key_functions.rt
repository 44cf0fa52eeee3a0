//! The functions of values of kinds.

use crate::scales::DecimalScale;
use crate::standard::Standard;
use vortex_columns::PType;
use vortex_float_texts::width::Width;
use vortex_sql_dates::parts::{DatePart, Part, TimestampPart};
use vortex_sql_dates::truncations::{DateTrunc, TimestampTrunc, Unit};
use vortex_sql_float_functions::functions::FloatFunction;
use vortex_sql_float_functions::places::FloatPlaces;
use vortex_sql_floats::floats::FloatOperator;
use vortex_sql_floats::integers::FloatToInt;
use vortex_sql_kind_texts::decimals::{DecimalRound, Rounding};
use vortex_sql_kind_texts::float_texts::FloatToText;
use vortex_sql_kind_texts::from_texts::TextToKind;
use vortex_sql_kind_texts::kinds::{StoredKind, WrittenKind};
use vortex_sql_kind_texts::to_texts::KindToText;

/// The functions on stored keys, each once: what arithmetic over columns of floats and parts of
/// dates and timestamps call.
pub const KEY_FUNCTIONS: [Standard; 129] = [
    Standard::FloatNegate,
    Standard::IntToFloat,
    Standard::WidenFloat,
    Standard::FloatOperator(FloatOperator::Add),
    Standard::FloatOperator(FloatOperator::Subtract),
    Standard::FloatOperator(FloatOperator::Multiply),
    Standard::FloatOperator(FloatOperator::Divide),
    Standard::DecimalToFloat(DecimalScale::S0),
    Standard::DecimalToFloat(DecimalScale::S1),
    Standard::DecimalToFloat(DecimalScale::S2),
    Standard::DecimalToFloat(DecimalScale::S3),
    Standard::DecimalToFloat(DecimalScale::S4),
    Standard::DecimalToFloat(DecimalScale::S5),
    Standard::DecimalToFloat(DecimalScale::S6),
    Standard::DecimalToFloat(DecimalScale::S7),
    Standard::DecimalToFloat(DecimalScale::S8),
    Standard::DecimalToFloat(DecimalScale::S9),
    Standard::DecimalToFloat(DecimalScale::S10),
    Standard::DecimalToFloat(DecimalScale::S11),
    Standard::DecimalToFloat(DecimalScale::S12),
    Standard::DecimalToFloat(DecimalScale::S13),
    Standard::DecimalToFloat(DecimalScale::S14),
    Standard::DecimalToFloat(DecimalScale::S15),
    Standard::DecimalToFloat(DecimalScale::S16),
    Standard::DecimalToFloat(DecimalScale::S17),
    Standard::DecimalToFloat(DecimalScale::S18),
    Standard::FloatToInt(FloatToInt { ptype: PType::I8 }),
    Standard::FloatToInt(FloatToInt { ptype: PType::I16 }),
    Standard::FloatToInt(FloatToInt { ptype: PType::I32 }),
    Standard::FloatToInt(FloatToInt { ptype: PType::I64 }),
    Standard::FloatToInt(FloatToInt { ptype: PType::U8 }),
    Standard::FloatToInt(FloatToInt { ptype: PType::U16 }),
    Standard::FloatToInt(FloatToInt { ptype: PType::U32 }),
    Standard::FloatToInt(FloatToInt { ptype: PType::U64 }),
    Standard::TryFloatToInt(FloatToInt { ptype: PType::I8 }),
    Standard::TryFloatToInt(FloatToInt { ptype: PType::I16 }),
    Standard::TryFloatToInt(FloatToInt { ptype: PType::I32 }),
    Standard::TryFloatToInt(FloatToInt { ptype: PType::I64 }),
    Standard::TryFloatToInt(FloatToInt { ptype: PType::U8 }),
    Standard::TryFloatToInt(FloatToInt { ptype: PType::U16 }),
    Standard::TryFloatToInt(FloatToInt { ptype: PType::U32 }),
    Standard::TryFloatToInt(FloatToInt { ptype: PType::U64 }),
    Standard::FloatFunction(FloatFunction::Round),
    Standard::FloatFunction(FloatFunction::Floor),
    Standard::FloatFunction(FloatFunction::Ceil),
    Standard::FloatFunction(FloatFunction::Trunc),
    Standard::FloatFunction(FloatFunction::Sqrt),
    Standard::FloatFunction(FloatFunction::Abs),
    Standard::FloatFunction(FloatFunction::Sign),
    Standard::FloatPlaces(FloatPlaces::Round),
    Standard::FloatPlaces(FloatPlaces::Trunc),
    Standard::DateToTimestamp,
    Standard::TimestampToDate,
    Standard::MakeDate,
    Standard::DatePart(DatePart { part: Part::Year }),
    Standard::DatePart(DatePart {
        part: Part::Quarter,
    }),
    Standard::DatePart(DatePart { part: Part::Month }),
    Standard::DatePart(DatePart { part: Part::Week }),
    Standard::DatePart(DatePart { part: Part::Day }),
    Standard::DatePart(DatePart {
        part: Part::DayOfWeek,
    }),
    Standard::DatePart(DatePart {
        part: Part::IsoDayOfWeek,
    }),
    Standard::DatePart(DatePart {
        part: Part::DayOfYear,
    }),
    Standard::DatePart(DatePart { part: Part::Epoch }),
    Standard::DatePart(DatePart { part: Part::Hour }),
    Standard::DatePart(DatePart { part: Part::Minute }),
    Standard::DatePart(DatePart { part: Part::Second }),
    Standard::DatePart(DatePart {
        part: Part::Millisecond,
    }),
    Standard::DatePart(DatePart {
        part: Part::Microsecond,
    }),
    Standard::TimestampPart(TimestampPart { part: Part::Year }),
    Standard::TimestampPart(TimestampPart {
        part: Part::Quarter,
    }),
    Standard::TimestampPart(TimestampPart { part: Part::Month }),
    Standard::TimestampPart(TimestampPart { part: Part::Week }),
    Standard::TimestampPart(TimestampPart { part: Part::Day }),
    Standard::TimestampPart(TimestampPart {
        part: Part::DayOfWeek,
    }),
    Standard::TimestampPart(TimestampPart {
        part: Part::IsoDayOfWeek,
    }),
    Standard::TimestampPart(TimestampPart {
        part: Part::DayOfYear,
    }),
    Standard::TimestampPart(TimestampPart { part: Part::Epoch }),
    Standard::TimestampPart(TimestampPart { part: Part::Hour }),
    Standard::TimestampPart(TimestampPart { part: Part::Minute }),
    Standard::TimestampPart(TimestampPart { part: Part::Second }),
    Standard::TimestampPart(TimestampPart {
        part: Part::Millisecond,
    }),
    Standard::TimestampPart(TimestampPart {
        part: Part::Microsecond,
    }),
    Standard::DateTrunc(DateTrunc { unit: Unit::Year }),
    Standard::DateTrunc(DateTrunc {
        unit: Unit::Quarter,
    }),
    Standard::DateTrunc(DateTrunc { unit: Unit::Month }),
    Standard::DateTrunc(DateTrunc { unit: Unit::Week }),
    Standard::DateTrunc(DateTrunc { unit: Unit::Day }),
    Standard::DateTrunc(DateTrunc { unit: Unit::Hour }),
    Standard::DateTrunc(DateTrunc { unit: Unit::Minute }),
    Standard::DateTrunc(DateTrunc { unit: Unit::Second }),
    Standard::TimestampTrunc(TimestampTrunc { unit: Unit::Year }),
    Standard::TimestampTrunc(TimestampTrunc {
        unit: Unit::Quarter,
    }),
    Standard::TimestampTrunc(TimestampTrunc { unit: Unit::Month }),
    Standard::TimestampTrunc(TimestampTrunc { unit: Unit::Week }),
    Standard::TimestampTrunc(TimestampTrunc { unit: Unit::Day }),
    Standard::TimestampTrunc(TimestampTrunc { unit: Unit::Hour }),
    Standard::TimestampTrunc(TimestampTrunc { unit: Unit::Minute }),
    Standard::TimestampTrunc(TimestampTrunc { unit: Unit::Second }),
    Standard::DateAddMonths,
    Standard::TimestampAddMonths,
    Standard::DateToChar,
    Standard::TimestampToChar,
    Standard::TextToDateBy,
    Standard::TextToTimestampBy,
    Standard::TryTextToDateBy,
    Standard::TryTextToTimestampBy,
    Standard::TextToDecimal,
    Standard::TryTextToDecimal,
    Standard::DecimalToText,
    Standard::DecimalScaled,
    Standard::TryDecimalScaled,
    Standard::FloatToDecimal,
    Standard::TryFloatToDecimal,
    Standard::TextToKind(TextToKind {
        kind: StoredKind::Date,
    }),
    Standard::TextToKind(TextToKind {
        kind: StoredKind::Timestamp,
    }),
    Standard::TextToKind(TextToKind {
        kind: StoredKind::F64,
    }),
    Standard::TextToKind(TextToKind {
        kind: StoredKind::F32,
    }),
    Standard::TryTextToKind(TextToKind {
        kind: StoredKind::Date,
    }),
    Standard::TryTextToKind(TextToKind {
        kind: StoredKind::Timestamp,
    }),
    Standard::TryTextToKind(TextToKind {
        kind: StoredKind::F64,
    }),
    Standard::TryTextToKind(TextToKind {
        kind: StoredKind::F32,
    }),
    Standard::KindToText(KindToText {
        kind: WrittenKind::Date,
    }),
    Standard::KindToText(KindToText {
        kind: WrittenKind::Timestamp,
    }),
    Standard::FloatToText(FloatToText { width: Width::F64 }),
    Standard::FloatToText(FloatToText { width: Width::F32 }),
    Standard::DecimalRound(DecimalRound {
        rounding: Rounding::Half,
    }),
    Standard::DecimalRound(DecimalRound {
        rounding: Rounding::Floor,
    }),
    Standard::DecimalRound(DecimalRound {
        rounding: Rounding::Ceiling,
    }),
    Standard::DecimalRound(DecimalRound {
        rounding: Rounding::Trunc,
    }),
];
