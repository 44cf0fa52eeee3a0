//! Numbers in other forms than `1234.5`, as `12,5`, `1,234.50` and `$9.99`, and what reads them.

use std::fmt;

/// Signs of currencies and of percents.
const SIGNS: [&str; 5] = ["$", "€", "£", "¥", "%"];

/// Marks that group digits by three.
const MARKS: [&str; 4] = [",", ".", " ", "'"];

/// What a number in another form has besides its digits and a point.
#[derive(Clone, Copy, Debug, PartialEq, Eq)]
pub struct NumberForm {
    /// The sign of a currency or of percents.
    sign: Option<&'static str>,
    /// What groups the digits before the fraction.
    mark: Option<&'static str>,
    /// Whether a comma stands before the fraction.
    has_comma: bool,
}

/// What both have, or that which one of them has; none where both have others.
fn joined(left: Option<&'static str>, right: Option<&'static str>) -> Option<Option<&'static str>> {
    match (left, right) {
        (Some(left), Some(right)) if left == right => Some(Some(left)),
        (Some(_), Some(_)) => None,
        (Some(one), None) | (None, Some(one)) => Some(Some(one)),
        (None, None) => Some(None),
    }
}

impl NumberForm {
    /// The form of numbers, some of which have the one and some the other form; none where these do
    /// not go together.
    pub fn with(self, other: NumberForm) -> Option<NumberForm> {
        let sign = joined(self.sign, other.sign)?;
        let mark = joined(self.mark, other.mark)?;
        let has_comma = self.has_comma || other.has_comma;
        if has_comma && mark == Some(",") {
            return None;
        }
        Some(NumberForm {
            sign,
            mark,
            has_comma,
        })
    }

    /// Whether points group the digits.
    pub fn groups_by_points(&self) -> bool {
        self.mark == Some(".")
    }
}

/// A text without the sign at its beginning or its end, if it has one.
fn without_sign(text: &str) -> (Option<&'static str>, &str) {
    for sign in SIGNS {
        if let Some(rest) = text.strip_prefix(sign) {
            return (Some(sign), rest.trim_start());
        }
        if let Some(rest) = text.strip_suffix(sign) {
            return (Some(sign), rest.trim_end());
        }
    }
    (None, text)
}

fn without_minus(text: &str) -> &str {
    text.strip_prefix('-').unwrap_or(text)
}

fn are_digits(text: &str) -> bool {
    !text.is_empty() && text.bytes().all(|byte| byte.is_ascii_digit())
}

/// Whether a text is digits in groups of three, but for the first one, of three at most.
fn are_groups(text: &str, mark: &str) -> bool {
    let mut is_first = true;
    for group in text.split(mark) {
        let fits = if is_first {
            group.len() <= 3
        } else {
            group.len() == 3
        };
        if !fits || !are_digits(group) {
            return false;
        }
        is_first = false;
    }
    true
}

/// What groups the digits of a text; none where a mark is none of these, or a group has not three.
fn mark_in(text: &str) -> Option<Option<&'static str>> {
    if are_digits(text) {
        return Some(None);
    }
    for mark in MARKS {
        if text.contains(mark) {
            return if are_groups(text, mark) {
                Some(Some(mark))
            } else {
                None
            };
        }
    }
    None
}

/// The text before the fraction, and whether a comma divides them. One comma before three digits
/// groups them, and so do several.
fn before_fraction(text: &str) -> (&str, bool) {
    let (before, behind, has_comma) = match (text.rsplit_once('.'), text.rsplit_once(',')) {
        (Some((before, behind)), None) => (before, behind, false),
        (None, Some((before, behind))) if behind.len() != 3 => (before, behind, true),
        (Some((before, behind)), Some((other, _))) if before.len() > other.len() => {
            (before, behind, false)
        }
        (Some(_), Some((before, behind))) => (before, behind, true),
        _ => return (text, false),
    };
    if are_digits(behind) && !before.contains(if has_comma { ',' } else { '.' }) {
        (before, has_comma)
    } else {
        (text, false)
    }
}

/// The form of a text that is a number in another form than `1234.5`.
pub fn number_form(text: &str) -> Option<NumberForm> {
    let (sign, rest) = without_sign(without_minus(text.trim()));
    let (before, has_comma) = before_fraction(without_minus(rest));
    let mark = mark_in(before)?;
    if sign.is_none() && mark.is_none() && !has_comma {
        return None;
    }
    // as addresses are, `192.168.100.100`
    let is_address = mark == Some(".") && sign.is_none() && !has_comma;
    if is_address || has_comma && mark == Some(",") {
        return None;
    }
    Some(NumberForm {
        sign,
        mark,
        has_comma,
    })
}

/// What reads what is written so, of which a text of that form is one.
#[derive(Clone, Copy)]
pub struct NumberReading<'a> {
    pub written: &'a str,
    pub form: NumberForm,
}

/// `replace(price, ',', '.')::f64`
impl fmt::Display for NumberReading<'_> {
    fn fmt<W: fmt::Write>(&self, f: &mut fmt::Formatter<W>) -> fmt::Result {
        let NumberForm {
            sign,
            mark,
            has_comma,
        } = self.form;
        f.write_str(if sign.is_some() { "replace(" } else { "" })?;
        f.write_str(if mark.is_some() { "replace(" } else { "" })?;
        f.write_str(if has_comma { "replace(" } else { "" })?;
        f.write_str(self.written)?;
        if let Some(sign) = sign {
            write!(f, ", '{sign}', '')")?;
        }
        match mark {
            Some("'") => f.write_str(", '''', '')")?,
            Some(mark) => write!(f, ", '{mark}', '')")?,
            None => {}
        }
        f.write_str(if has_comma { ", ',', '.')" } else { "" })?;
        f.write_str("::f64")
    }
}
