//! Many rows of one batch that are bad.

use crate::drips::by_steps;
use crate::runs::{is_same, run, words_from};
use std::alloc::{AllocError, Global};
use std::io;
use std::rt::Files;

/// An input, what is written of it, and what is printed on standard error.
#[derive(Drop)]
struct Texts {
    input: String,
    output: String,
    messages: String,
    bad: u64,
}

/// The texts before any row.
fn headers(alloc: Global) -> Result<Texts, AllocError> {
    Ok(Texts {
        input: String::from_str(alloc, "a,b\n")?,
        output: String::from_str(alloc, "sum\n")?,
        messages: String::from_str(alloc, "row,column,reason,field\n")?,
        bad: 0,
    })
}

/// Adds a row, which is bad or not.
fn push_row(alloc: Global, texts: &mut Texts, row: u64, is_bad: bool) -> Result<(), AllocError> {
    if is_bad {
        texts.bad = texts.bad.saturating_add(1);
        texts.input.push_str("100,100\n")?;
        let line = format!(in alloc; "{row},,E7 Arithmetic.Add,\n")?;
        texts.messages.push_str(line.as_str())
    } else {
        texts.input.push_str("1,2\n")?;
        texts.output.push_str("3\n")
    }
}

/// So many rows, of which each that is one of so many is bad.
fn texts_of(alloc: Global, count: u64, each: u64) -> Result<Texts, AllocError> {
    let mut texts = headers(alloc)?;
    for row in 1..count {
        push_row(alloc, &mut texts, row, row % each.max(1) == 0)?;
    }
    let end = format!(in alloc; "rowfn_stream: rows left out {}\n", texts.bad)?;
    texts.messages.push_str(end.as_str())?;
    Ok(texts)
}

/// Whether of so many rows in one batch each that is one of so many is left out and reported.
pub(crate) fn bad_rows(
    rt: &(impl Print + Files + AllocGlobal),
    count: u64,
    each: u64,
) -> io::Result<bool> {
    let alloc = rt.alloc();
    let all = [
        "rowfn_stream",
        "--errors=skip",
        "--batch=1048576",
        "--batch-bytes=1073741824",
        "--columns",
        "a i8, b i8",
        "a + b as sum",
    ];
    let words = words_from(alloc, &all)?;
    let texts = texts_of(alloc, count, each)?;
    let outcome = run(rt, &words, by_steps(texts.input.as_bytes(), 8192));
    Ok(
        is_same(
            rt,
            "rows that are not bad",
            texts.output.as_bytes(),
            &outcome.output,
        )? && is_same(rt, "reports", texts.messages.as_bytes(), &outcome.messages)?,
    )
}
