//! The answers to questions.

use std::alloc::{AllocError, Global};
use std::cmp::Ordering;
use vortex_logical::cells::{read_cell, write_cell};
use vortex_logical::common::{common_operand, difference_operand, product_operand, sum_operand};
use vortex_logical::conversions::{key_of_decimal, widen_key};
use vortex_logical::decimals::{compare, rescale};
use vortex_logical::digits::DecimalDigits;
use vortex_logical::kind::{Kind, kind_named};
use vortex_logical::operand::Operand;
use vortex_types::PType;

/// The kind of that name; `plain` of any other.
fn kind(name: &str) -> Kind {
    match kind_named(name) {
        Some(kind) => kind,
        None => Kind::Plain,
    }
}

/// The operand of a name: an integer type, a kind, or a text.
fn operand(name: &str) -> Operand {
    if name == "i32" {
        Operand::Whole(PType::I32)
    } else if name == "i64" {
        Operand::Whole(PType::I64)
    } else {
        Operand::Of(kind(name))
    }
}

fn shown(alloc: Global, number: Option<i64>) -> Result<String, AllocError> {
    match number {
        Some(number) => format!(in alloc; "{number}"),
        None => String::from_str(alloc, "none"),
    }
}

fn named(alloc: Global, operand: Option<Operand>) -> Result<String, AllocError> {
    match operand {
        Some(Operand::Whole(ptype)) => format!(in alloc; "{ptype}"),
        Some(Operand::Of(kind)) => format!(in alloc; "{kind}"),
        None => String::from_str(alloc, "none"),
    }
}

fn written(alloc: Global, name: &str, number: &str) -> Result<String, AllocError> {
    let mut out = Vec::new(alloc);
    let Ok(number) = number.parse::<i64>() else {
        return String::from_str(alloc, "no number");
    };
    if !write_cell(kind(name), number, &mut out)? {
        return String::from_str(alloc, "none");
    }
    match std::str::from_utf8(&out) {
        Ok(text) => String::from_str(alloc, text),
        Err(_) => String::from_str(alloc, "no text"),
    }
}

/// The digits of a decimal and its integer, as in `decimal(5,2) 1250`.
fn decimal(text: &str) -> Option<(DecimalDigits, i64)> {
    let (name, number) = text.split_once(' ')?;
    Some((kind(name).decimal_digits()?, number.parse::<i64>().ok()?))
}

fn order(left: &str, right: &str) -> Option<Ordering> {
    let (left_digits, left) = decimal(left)?;
    let (right_digits, right) = decimal(right)?;
    Some(compare(left, left_digits, right, right_digits))
}

/// A scale is no less in cases.
fn rescaled(number: &str, name: &str) -> Option<i64> {
    let (from, number) = decimal(number)?;
    let to = kind(name).decimal_digits()?;
    if from.scale() <= to.scale() {
        rescale(number, from, to)
    } else {
        None
    }
}

fn float(alloc: Global, name: &str, number: &str) -> Result<Option<i64>, AllocError> {
    match (kind(name).decimal_digits(), number.parse::<i64>()) {
        (Some(digits), Ok(number)) => key_of_decimal(alloc, digits, number),
        _ => Ok(None),
    }
}

fn wide(number: &str) -> Option<i64> {
    Some(widen_key(number.parse::<i32>().ok()?))
}

/// The answer to a question about kinds.
fn met(alloc: Global, question: &str, left: &str, right: &str) -> Result<String, AllocError> {
    let (left, right) = (operand(left), operand(right));
    let answer = match question {
        "compare" => common_operand(&left, &right),
        "sum" => sum_operand(&left, &right),
        "difference" => difference_operand(&left, &right),
        "product" => product_operand(&left, &right),
        _ => return String::from_str(alloc, "no such question"),
    };
    named(alloc, answer)
}

/// The answer to a question.
pub(crate) fn answer(alloc: Global, question: &str, asked: &str) -> Result<String, AllocError> {
    let (first, second) = match asked.split_once('|') {
        Some(parts) => parts,
        None => (asked, ""),
    };
    match question {
        "read" => shown(alloc, read_cell(kind(first), second.as_bytes())),
        "write" => written(alloc, first, second),
        "name" => named(alloc, kind_named(first).map(Operand::Of)),
        "order" => match order(first, second) {
            Some(order) => format!(in alloc; "{order:?}"),
            None => String::from_str(alloc, "none"),
        },
        "rescale" => shown(alloc, rescaled(first, second)),
        "float" => shown(alloc, float(alloc, first, second)?),
        "wide" => shown(alloc, wide(second)),
        _ => met(alloc, question, first, second),
    }
}
