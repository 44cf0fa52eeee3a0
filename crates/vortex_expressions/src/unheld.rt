//! Literals that have no value where they are, in reports.
use crate::item::Item;
use crate::item_texts::{is_fraction, push_fraction, push_literal};
use std::alloc::Global;
use std::fmt::Write;
use std::str;
use vortex_columns::{DType, VortexResult};
use vortex_logical::kind::Kind;

/// The literal among the items that has no value in the type that it takes; whether there is one.
pub(crate) fn push_unheld(
    out: &mut String,
    alloc: Global,
    taken: Option<&DType>,
    items: &[Item],
) -> VortexResult<bool> {
    for item in items {
        let Item::Literal(literal) = item else {
            continue;
        };
        let Some(dtype) = literal.type_beside(alloc, taken)? else {
            continue;
        };
        if literal.value_at(alloc, dtype.try_clone(alloc)?)?.is_none() {
            if is_fraction(literal) {
                push_fraction(out, literal)?;
            } else {
                push_literal(out, literal)?;
                out.push_str(" is no ")?;
                dtype.write_text(out)?;
            }
            return Ok(true);
        }
    }
    Ok(false)
}

/// What an interval is, behind a text that is none.
const INTERVAL_TEXTS: &str =
    "; one is written as '3 days', '2 hours 30 minutes' or '3 months', and months stand alone";

/// Where an interval may be.
pub(crate) const INTERVAL_PLACES: &str =
    "an interval is added to a timestamp or taken from one, or from a date if it has whole days; a \
     whole number times one is one, too, but of months (add_months(day, n)); a difference of \
     timestamps is compared with one, and extract(epoch from a - b) are its seconds";

/// The literal that has no value in the type after it.
pub(crate) fn push_untyped(out: &mut String, name: &[u8], items: &[Item]) -> VortexResult<()> {
    match items.last() {
        Some(Item::Literal(literal)) if is_fraction(literal) => {
            return push_fraction(out, literal);
        }
        Some(Item::Literal(literal)) => push_literal(out, literal)?,
        Some(Item::Fraction(number)) => out.push_str(number.as_str())?,
        _ => {}
    }
    let name = str::from_utf8(name).unwrap_or("");
    write!(out, " is no {name}")?;
    if name.eq_ignore_ascii_case("interval") {
        out.push_str(INTERVAL_TEXTS)?;
    }
    Ok(())
}

/// Whether one of them is a decimal.
fn has_decimal(items: &[Item]) -> bool {
    items
        .iter()
        .any(|item| matches!(item, Item::Kinded(Kind::Decimal(_), _)))
}

/// The number with a fraction among the items that has no value next to the others; whether there is
/// one.
pub(crate) fn push_fractions(out: &mut String, items: &[Item]) -> VortexResult<bool> {
    for item in items {
        if let Item::Fraction(number) = item {
            out.push_str(number.as_str())?;
            out.push_str(if has_decimal(items) {
                " has more than 18 digits behind its point"
            } else {
                " is no whole number"
            })?;
            return Ok(true);
        }
    }
    Ok(false)
}

/// Whether one of them is an interval.
pub(crate) fn has_interval(items: &[Item]) -> bool {
    items.iter().any(|item| matches!(item, Item::Interval(_)))
}
