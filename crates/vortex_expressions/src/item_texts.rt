//! Literals and types in reports.
use crate::item::Item;
use crate::literal::Literal;
use std::fmt::Write;
use std::slice;
use vortex_columns::{DType, VortexResult};
use vortex_logical::cells::read_cell;
use vortex_logical::kind::Kind;
use vortex_logical::operand::Operand;

/// A literal, as written.
pub(crate) fn push_literal(out: &mut String, literal: &Literal) -> VortexResult<()> {
    match literal {
        Literal::Number(word) => out.push_str(word.as_str())?,
        Literal::Text(text) => {
            let text = text.as_str();
            write!(out, "{text:?}")?
        }
        Literal::Truth(truth) => write!(out, "{truth}")?,
        Literal::Null => out.push_str("null")?,
    }
    Ok(())
}

/// The type of an item, or that it is a null without one.
fn push_type(out: &mut String, item: &Item) -> VortexResult<()> {
    match item {
        Item::Bound(tree) => tree.dtype().write_text(out),
        Item::Kinded(kind, _) => {
            write!(out, "{kind}")?;
            Ok(())
        }
        Item::Literal(literal) => match literal.own_type() {
            Some(dtype) => dtype.write_text(out),
            None => push_literal(out, literal),
        },
        Item::Fraction(_) => {
            write!(out, "{}", Kind::F64)?;
            Ok(())
        }
        Item::Interval(_) => {
            out.push_str("an interval")?;
            Ok(())
        }
    }
}

/// Whether the item is null without a type.
fn is_null(item: &Item) -> bool {
    matches!(item, Item::Literal(Literal::Null))
}

/// Whether the item is a tree of another type than texts.
pub(crate) fn is_no_text(item: &Item) -> bool {
    match item.bound_type() {
        Some(DType::Utf8(_)) | None => false,
        Some(_) => true,
    }
}

/// The types of items, with commas and an `and`, and how null is given one.
pub(crate) fn push_types(out: &mut String, items: &[Item]) -> VortexResult<()> {
    for (place, item) in items.iter().enumerate() {
        if place > 0 {
            out.push_str(if place + 1 < items.len() {
                ", "
            } else {
                " and "
            })?;
        }
        push_type(out, item)?;
    }
    if items.iter().any(is_null) {
        out.push_str("; give null a type, as null::i64?")?;
    }
    Ok(())
}

/// What a value is.
fn push_operand(out: &mut String, operand: &Operand) -> VortexResult<()> {
    match operand {
        Operand::Whole(ptype) => out.push_str(ptype.text())?,
        Operand::Of(Kind::Plain) => out.push_str("text or truth value")?,
        Operand::Of(kind) => write!(out, "{kind}")?,
    }
    Ok(())
}

/// Two operands that do not go together.
pub(crate) fn push_operands(out: &mut String, left: &Operand, right: &Operand) -> VortexResult<()> {
    push_operand(out, left)?;
    out.push_str(" next to ")?;
    push_operand(out, right)
}

/// Whether a literal is a value of the kind; a date is its midnight where a timestamp is wanted.
fn is_read(kind: &Kind, word: &str) -> bool {
    let bytes = word.as_bytes();
    let is_date = *kind == Kind::Timestamp && read_cell(Kind::Date, bytes).is_some();
    is_date || read_cell(*kind, bytes).is_some()
}

/// Whether it is a literal that is no value of the kind.
fn is_unread(kind: &Kind, item: &Item) -> bool {
    match item {
        Item::Literal(Literal::Number(word) | Literal::Text(word)) => !is_read(kind, word.as_str()),
        Item::Literal(Literal::Truth(_)) => true,
        Item::Fraction(number) => !is_read(kind, number.as_str()),
        _ => false,
    }
}

/// The first literal among items that is no value of the kind, or else the last one; whether there
/// is one.
pub(crate) fn push_unread(out: &mut String, kind: &Kind, items: &[Item]) -> VortexResult<bool> {
    match items.iter().find(|item| is_unread(kind, *item)) {
        Some(item) => push_literals(out, slice::from_ref(item)),
        None => push_literals(out, items),
    }
}

/// The last literal among items; whether there is one.
fn push_literals(out: &mut String, items: &[Item]) -> VortexResult<bool> {
    for item in items.iter().rev() {
        match item {
            Item::Literal(literal) => {
                push_literal(out, literal)?;
                return Ok(true);
            }
            Item::Fraction(number) => {
                out.push_str(number.as_str())?;
                return Ok(true);
            }
            _ => {}
        }
    }
    Ok(false)
}

/// What is said before a number that is not written as a whole one.
const NOT_WHOLE: &str = "numbers are whole here, without a point or an exponent: ";

/// What is said after it.
const AS_FLOAT: &str = " (n::f64 is n as a float)";

/// Whether it is a number with a point or an exponent.
pub(crate) fn is_fraction(literal: &Literal) -> bool {
    match literal {
        Literal::Number(word) => word
            .as_str()
            .bytes()
            .any(|byte| byte == b'.' || byte == b'e' || byte == b'E'),
        _ => false,
    }
}

/// That the number is not written as a whole one.
pub(crate) fn push_fraction(out: &mut String, literal: &Literal) -> VortexResult<()> {
    out.push_str(NOT_WHOLE)?;
    push_literal(out, literal)?;
    out.push_str(AS_FLOAT)?;
    Ok(())
}
