//! Functions that there are not, and how what they mean is written.
use crate::casts::type_of_name;
use crate::hints::{meant_by_texts, missing_function};
use crate::item::Item;
use crate::item_texts::{is_no_text, push_literal};
use crate::kind_words::{KindFunction, KindName, kind_word};
use crate::located::meant_function;
use crate::named_calls::trim_word;
use crate::words::LIKENED;
use std::alloc::Global;
use std::str;
use strsim::osa_distance;
use vortex_columns::{DType, VortexResult};
use vortex_logical::kind::Kind as LogicalKind;
use vortex_standard::{
    BitOperator, FUNCTIONS, FloatFunction, Kind, PatternFunction, Shift, Standard, Takes,
    TruthTest, named,
};
use vortex_syntax::{Call, Step, WrittenOperator};

/// Names by which other languages call what has no form of a call here, and how it is written.
const FORMS: [(&str, &str); 8] = [
    ("is_null", "a is null"),
    ("isnotnull", "a is not null"),
    ("is_not_null", "a is not null"),
    ("equals", "a = b"),
    ("add", "a + b"),
    ("subtract", "a - b"),
    ("multiply", "a * b"),
    ("divide", "a / b"),
];

/// The form of what has that name in other languages, or one that differs by one letter.
fn form_of(alloc: Global, name: &str) -> VortexResult<Option<&'static str>> {
    if name.len() > LIKENED {
        return Ok(None);
    }
    for (word, form) in FORMS {
        let is_near = word.len() > 3 && osa_distance(alloc, name, word)? == 1;
        if is_near || name.eq_ignore_ascii_case(word) {
            return Ok(Some(form));
        }
    }
    Ok(None)
}

/// The function whose name is most like this one, if it differs by no more than two letters, and by
/// less than half of them.
fn nearest_function(alloc: Global, name: &str) -> VortexResult<Option<&'static str>> {
    if name.len() > LIKENED {
        return Ok(None);
    }
    let lower = name.to_ascii_lowercase(alloc)?;
    let mut least = 3.min(name.len().div_ceil(2));
    let mut found = None;
    for function in FUNCTIONS {
        let other = function.name();
        let distance = osa_distance(alloc, lower.as_str(), other)?;
        if distance < least {
            least = distance;
            found = Some(other);
        }
    }
    Ok(found)
}

/// The name in a step that calls a function.
fn called_name<'a>(step: Option<&Step<'a>>) -> &'a [u8] {
    match step {
        Some(Step::Apply(name, _)) => *name,
        Some(Step::Trim(side, _)) => trim_word(*side).as_bytes(),
        _ => b"",
    }
}

/// What a function of that name takes next to a value of a kind.
fn taken_by(name: KindName) -> &'static str {
    match name {
        KindName::Single(KindFunction::OfFloat(FloatFunction::Round | FloatFunction::Trunc)) => {
            "a number, and how many places are kept, from 0 to 19, if any"
        }
        KindName::Single(KindFunction::OfFloat(_)) => "a number",
        KindName::Single(_) => "a date or a timestamp",
        KindName::PartByText => "the name of a part, as year, and a date or a timestamp",
        KindName::UnitByText => "the name of a unit, as 'month', and a date or a timestamp",
        KindName::AddMonths => "a date or a timestamp, and a number of months",
        KindName::ToChar => "a date or a timestamp, and a format, as 'YYYY-MM-DD'",
    }
}

/// The words that name parts of dates and timestamps.
const PARTS: &str =
    "parts are year, quarter, month, week, day, dow, isodow, doy, epoch, hour, minute, second, milliseconds and microseconds";

/// The words that name units.
const UNITS: &str = "units are year, quarter, month, week, day, hour, minute and second";

/// That the text before a value names none of the parts or units, and which there are; whether the
/// step calls a function that takes one.
pub(crate) fn push_unnamed(
    out: &mut String,
    step: Option<&Step<'_>>,
    items: &[Item],
) -> VortexResult<bool> {
    let (what, words) = match kind_word(called_name(step)) {
        Some(KindName::PartByText) => (" is no part; ", PARTS),
        Some(KindName::UnitByText) => (" is no unit; ", UNITS),
        _ => return Ok(false),
    };
    let Some(Item::Literal(literal)) = items.first() else {
        return Ok(false);
    };
    push_literal(out, literal)?;
    out.push_str(what)?;
    out.push_str(words)?;
    Ok(true)
}

/// How a text becomes a date or a timestamp, where the types of the arguments have one in its place.
fn advice_for(name: KindName, given: &str) -> &'static str {
    let text = match name {
        KindName::PartByText | KindName::UnitByText => "utf8 and utf8",
        _ => "utf8",
    };
    match name {
        KindName::Single(KindFunction::OfFloat(_)) => "",
        _ if given.starts_with(text) => {
            "; to_date(s, 'DD/MM/YYYY') and to_timestamp(s, 'DD/MM/YYYY HH24:MI') read texts"
        }
        KindName::ToChar => "; of a number write n::text, or x::decimal(12,2)::text",
        _ => "",
    }
}

/// The function that there is not, or not of the given types, and the one that may be meant, or how
/// it is written.
pub(crate) fn function_text(
    alloc: Global,
    step: Option<&Step<'_>>,
    given: &str,
) -> VortexResult<String> {
    let written = str::from_utf8(called_name(step)).unwrap_or("");
    if let Some(name) = kind_word(called_name(step)) {
        let taken = taken_by(name);
        let advice = advice_for(name, given);
        return Ok(format!(in alloc; "{written:?} takes {taken}, not {given}{advice}")?);
    }
    let missing = missing_function(called_name(step));
    if !missing.is_empty() {
        return Ok(format!(in alloc; "no function {written:?}; {missing}")?);
    }
    if let Some(form) = form_of(alloc, written)? {
        return Ok(format!(in alloc; "no function {written:?}; write {form}")?);
    }
    match nearest_function(alloc, written)? {
        Some(other) => Ok(format!(in alloc; "no function {written:?}; is {other} meant?")?),
        None => Ok(format!(in alloc; "no function {written:?}")?),
    }
}

fn kind_text(kind: Kind) -> &'static str {
    match kind {
        Kind::Any => "a value",
        Kind::Truth => "a truth value",
        Kind::Integer => "an integer",
        Kind::Within(_) => "an integer of a type that the other holds",
        Kind::Text => "a text",
    }
}

fn kinds_text(kind: Kind) -> &'static str {
    match kind {
        Kind::Any => "values of one type",
        Kind::Truth => "truth values",
        Kind::Integer => "integers",
        Kind::Within(_) => "an integer of a type that the other holds",
        Kind::Text => "texts",
    }
}

/// What a function accepts.
fn push_taken(out: &mut String, takes: Takes, count: usize) -> VortexResult<()> {
    match takes {
        Takes::Alike(kind) if count == 1 => out.push_str(kind_text(kind))?,
        Takes::Alike(kind) => out.push_str(kinds_text(kind))?,
        Takes::Each(first, second, further) => {
            for (place, kind) in [first, second, further].iter().enumerate().take(count) {
                out.push_str(if place == 0 { "" } else { ", " })?;
                out.push_str(kind_text(*kind))?;
            }
        }
        Takes::Cases => out.push_str("conditions, each with a value, and values of one type")?,
    }
    Ok(())
}

/// The function that an operator is, of bits or of regular expressions.
fn operator_function(operator: WrittenOperator) -> Option<Standard> {
    match operator {
        WrittenOperator::BitAnd => Some(Standard::BitOperator(BitOperator::And)),
        WrittenOperator::BitOr => Some(Standard::BitOperator(BitOperator::Or)),
        WrittenOperator::BitXor => Some(Standard::BitOperator(BitOperator::Xor)),
        WrittenOperator::ShiftLeft => Some(Standard::Shift(Shift::Left)),
        WrittenOperator::ShiftRight => Some(Standard::Shift(Shift::Right)),
        WrittenOperator::Matches => Some(Standard::PatternFunction(PatternFunction::Like)),
        WrittenOperator::MatchesAnyCase => Some(Standard::PatternFunction(
            PatternFunction::AnyCase,
        )),
        WrittenOperator::NotMatches => Some(Standard::PatternFunction(PatternFunction::NotLike)),
        WrittenOperator::NotMatchesAnyCase => Some(Standard::PatternFunction(
            PatternFunction::NotAnyCase,
        )),
        _ => None,
    }
}

/// The function of SQL that a step calls.
pub(crate) fn function_in(step: Option<&Step<'_>>) -> Option<Standard> {
    match step {
        Some(Step::Apply(name, _)) => named(*name).or(meant_function(*name)),
        Some(Step::Call(Call::Is(_, _))) => Some(Standard::TruthTest(TruthTest::IsTrue)),
        Some(Step::Call(Call::Distinct(_))) => Some(Standard::IsDistinct),
        Some(Step::In(_, _)) => Some(Standard::InList),
        Some(Step::Trim(side, _)) => named(trim_word(*side).as_bytes()),
        Some(Step::Case(_, _, _)) => Some(Standard::Case),
        Some(Step::Call(Call::Join(WrittenOperator::Mod))) => Some(Standard::Remainder),
        Some(Step::Call(Call::Join(WrittenOperator::Concat))) => Some(Standard::Concat),
        Some(Step::Call(Call::Join(operator))) => operator_function(*operator),
        Some(Step::Call(Call::BitNot)) => Some(Standard::BitNot),
        _ => None,
    }
}

/// How what is meant is written, where a function does not take these arguments.
pub(crate) fn arguments_hint(step: Option<&Step<'_>>, items: &[Item]) -> &'static str {
    let meant = meant_by_texts(called_name(step), !items.iter().any(is_no_text));
    if meant.is_empty() && takes_texts(step) {
        "; n::text is n as a text"
    } else {
        meant
    }
}

/// Whether the step calls a function whose first argument is a text.
fn takes_texts(step: Option<&Step<'_>>) -> bool {
    match function_in(step) {
        Some(function) => matches!(
            function.takes(),
            Takes::Alike(Kind::Text) | Takes::Each(Kind::Text, _, _)
        ),
        None => false,
    }
}

/// Whether the step calls a function that takes texts alone.
pub(crate) fn takes_only_texts(step: Option<&Step<'_>>) -> bool {
    match function_in(step) {
        Some(function) => matches!(function.takes(), Takes::Alike(Kind::Text)),
        None => false,
    }
}

/// Whether the step compares with a pattern of LIKE.
fn is_like(step: Option<&Step<'_>>) -> bool {
    matches!(step, Some(Step::Call(Call::Like(_)) | Step::Escaped(_, _)))
}

/// How a value of a kind is made a text, where the step takes texts or casts to one.
pub(crate) fn text_hint(alloc: Global, step: Option<&Step<'_>>, kind: LogicalKind) -> &'static str {
    let is_cast = match step {
        Some(Step::Cast(_, name, _)) => {
            matches!(&type_of_name(alloc, *name, false), Ok(DType::Utf8(_)))
        }
        _ => false,
    };
    if kind_word(called_name(step)) == Some(KindName::ToChar) {
        return "; x::decimal(12,2)::text has two digits after the point";
    }
    match kind {
        LogicalKind::Date | LogicalKind::Timestamp if is_like(step) => {
            "; compare it with dates, as d >= '2024-02-01', or read it as text by --columns 'd utf8'"
        }
        _ if !is_cast && !takes_texts(step) => "",
        LogicalKind::F64 | LogicalKind::F32 => {
            "; x::decimal(12,2)::text has two digits of x after the point"
        }
        _ => "; d::text is d as a text",
    }
}

/// What is meant where a function takes another number of arguments; empty if it is not known.
pub(crate) fn count_hint(step: Option<&Step<'_>>) -> &'static str {
    if called_name(step).eq_ignore_ascii_case(b"regexp_substr") {
        "; regexp_extract(s, '(a+)b', 1) is the part that a group matches"
    } else {
        ""
    }
}

/// What the function that a step calls accepts of so many arguments.
pub(crate) fn push_accepted(
    out: &mut String,
    step: Option<&Step<'_>>,
    count: usize,
) -> VortexResult<()> {
    match (function_in(step), kind_word(called_name(step))) {
        (Some(function), _) => push_taken(out, function.takes(), count),
        (None, Some(name)) => Ok(out.push_str(taken_by(name))?),
        (None, None) => Ok(out.push_str("other types")?),
    }
}
