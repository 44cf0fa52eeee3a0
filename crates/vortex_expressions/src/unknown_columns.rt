//! Reports of columns that there are not.
use crate::hints::{CLOCKS, is_clock};
use crate::quotes::unquoted;
use crate::words::nearest;
use std::alloc::Global;
use std::fmt::Write;
use std::str;
use vortex_columns::{StructFields, VortexResult};
use vortex_syntax::{Step, Token};

/// How many columns of a scope are listed.
const LISTED: usize = 10;

/// The first columns that there are; nothing of a scope without columns.
fn push_columns(out: &mut String, scope: &StructFields) -> VortexResult<()> {
    let count = scope.len();
    for place in 0..count.min(LISTED) {
        out.push_str(if place == 0 { "; there are " } else { ", " })?;
        out.push_str(scope.name(place))?;
    }
    if count > LISTED {
        write!(out, " and {} more", count - LISTED)?;
    }
    Ok(())
}

/// What separates the names of several columns in one name, and as what it is typed.
const SEPARATORS: [(&str, &str); 3] = [(";", ";"), ("\t", "\\t"), ("|", "|")];

/// That the only column is probably several, whose delimiter is another.
fn push_delimiter(out: &mut String, scope: &StructFields) -> VortexResult<()> {
    if scope.len() != 1 {
        return Ok(());
    }
    for (separator, typed) in SEPARATORS {
        if scope.name(0).contains(separator) {
            write!(out, ", one column: is --delimiter '{typed}' meant?")?;
            return Ok(());
        }
    }
    Ok(())
}

/// That the names are probably those of a comment before the header.
fn push_comment(out: &mut String, scope: &StructFields) -> VortexResult<()> {
    if scope.len() > 0 && scope.name(0).starts_with('#') {
        out.push_str("; --comment '#' passes lines over that begin so")?;
    }
    Ok(())
}

/// The column that the scope does not have, and the one that may be meant.
pub(crate) fn column_text(
    alloc: Global,
    scope: &StructFields,
    step: Option<&Step<'_>>,
) -> VortexResult<String> {
    let (written, is_quoted) = match step {
        Some(Step::Operand(Token::Name(name))) => (*name, false),
        Some(Step::Operand(Token::Quoted(name))) => (*name, true),
        _ => (b"" as &[u8], false),
    };
    // A name without quotes has none within.
    let name = unquoted(alloc, b'"', written)?;
    let name = str::from_utf8(&name).unwrap_or("");
    if !is_quoted && is_clock(written) {
        return Ok(format!(in alloc; "no column {name:?}; {CLOCKS}")?);
    }
    match nearest(alloc, scope, name)? {
        Some(other) => Ok(format!(in alloc; "no column {name:?}; is {other:?} meant?")?),
        None if is_quoted => Ok(format!(in alloc;
            "no column {name:?}; texts are written in single quotes, as 'text'"
        )?),
        None => {
            let mut out = format!(in alloc; "no column {name:?}")?;
            push_columns(&mut out, scope)?;
            push_delimiter(&mut out, scope)?;
            push_comment(&mut out, scope)?;
            Ok(out)
        }
    }
}
