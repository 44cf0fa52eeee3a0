//! What is written reads back: streams of chance, whose output is read once more.

use crate::chance::Chance;
use crate::drips::by_steps;
use crate::runs::{Outcome, is_same, run, words_from};
use std::alloc::{AllocError, Global};
use std::io;
use std::rt::Files;

const DELIMITERS: &[&str] = &[",", ";", "\t", "|", "a", " ", "1", "-"];

const NULLS: &[&str] = &["", "NA", "null", "\\.", "0", "π", "''"];

const PIECES: &[&str] = &[
    "", "a", "b", "NA", "null", "\"", "\"\"", ",", ";", "\t", "|", " ", "\n", "\r\n", "\r", "\\.",
    "\u{feff}", "π", "''", "0", "1", "-1",
];

const TYPES: &[&str] = &["utf8", "utf8?", "i64?", "bool?"];

/// A stream by its words and its input, in which each cell but null is in quotes.
#[derive(Drop)]
struct Tried {
    words: Vec<String>,
    input: Vec<u8>,
    row_count: u64,
}

/// Adds a text in quotes.
fn push_text(out: &mut Vec<u8>, text: &str) -> Result<(), AllocError> {
    let alloc = out.allocator().clone()?;
    let doubled = text.replace(alloc, "\"", "\"\"")?;
    out.extend_from_slice(format!(in alloc; "\"{doubled}\"")?.as_bytes())
}

/// Adds a field of chance that its column holds.
fn push_cell(
    chance: &mut Chance,
    out: &mut Vec<u8>,
    dtype: &str,
    null: &str,
) -> Result<(), AllocError> {
    if dtype != "utf8" && chance.is_one_of(3) {
        return out.extend_from_slice(null.as_bytes());
    }
    if dtype == "i64?" {
        return push_text(
            out,
            chance.word(&["0", "1", "-1", "10", "-9223372036854775808"]),
        );
    }
    if dtype == "bool?" {
        return push_text(out, chance.word(&["true", "false"]));
    }
    let mut text = String::new(out.allocator().clone()?);
    for _ in 0..chance.next() % 4 {
        text.push_str(chance.word(PIECES))?;
    }
    push_text(out, text.as_str())
}

/// Adds fields of chance as a line.
fn push_line(
    chance: &mut Chance,
    out: &mut Vec<u8>,
    types: &[&str],
    form: (&str, &str),
) -> Result<(), AllocError> {
    for (place, dtype) in types.iter().enumerate() {
        if place != 0 {
            out.extend_from_slice(form.0.as_bytes())?;
        }
        push_cell(chance, out, dtype, form.1)?;
    }
    let end = chance.word(&["\n", "\r\n"]);
    out.extend_from_slice(end.as_bytes())
}

/// The answers of a column: its value, and whether it is null where that is asked.
fn answers_at(alloc: Global, place: usize, asks_nulls: bool) -> Result<String, AllocError> {
    if asks_nulls {
        format!(in alloc; "k{place}, k{place} is null as n{place}")
    } else {
        format!(in alloc; "k{place}")
    }
}

/// The columns, the answers of each, and their names as a line.
fn texts_of(
    alloc: Global,
    types: &[&str],
    asks_nulls: bool,
    delimiter: &str,
) -> Result<[String; 3], AllocError> {
    let mut columns = String::new(alloc);
    let mut answers = String::new(alloc);
    let mut names = String::new(alloc);
    for (place, dtype) in types.iter().enumerate() {
        let (comma, end) = if place == 0 {
            ("", "")
        } else {
            (", ", delimiter)
        };
        columns.push_str(format!(in alloc; "{comma}k{place} {dtype}")?.as_str())?;
        answers.push_str(comma)?;
        answers.push_str(answers_at(alloc, place, asks_nulls)?.as_str())?;
        names.push_str(format!(in alloc; "{end}\"k{place}\"")?.as_str())?;
    }
    names.push_str("\n")?;
    Ok([columns, answers, names])
}

/// So many rows of chance, after a line.
fn rows_after(
    alloc: Global,
    chance: &mut Chance,
    line: &str,
    types: &[&str],
    form: (&str, &str),
    count: u64,
) -> Result<Vec<u8>, AllocError> {
    let mut input = line.as_bytes().to_vec(alloc)?;
    for _ in 0..count {
        push_line(chance, &mut input, types, form)?;
    }
    Ok(input)
}

/// The stream that a number leads to.
fn tried_of(alloc: Global, seed: u64) -> Result<Tried, AllocError> {
    let mut chance = Chance { state: seed };
    let delimiter = chance.word(DELIMITERS);
    let null = chance.word(NULLS);
    let null = if null.contains(delimiter) { "" } else { null };
    let three = [chance.word(TYPES), chance.word(TYPES), chance.word(TYPES)];
    let width = 1 + (chance.next() % 3) as usize;
    let types = three.as_slice().get(..width).unwrap_or(&[]);
    let header = chance.is_one_of(2);
    let row_count = chance.next() % 6;
    let asks_nulls = header && chance.is_one_of(2);
    let [columns, answers, names] = texts_of(alloc, types, asks_nulls, delimiter)?;
    let line = if header { names.as_str() } else { "" };
    let input = rows_after(
        alloc,
        &mut chance,
        line,
        types,
        (delimiter, null),
        row_count,
    )?;
    let has_blanks = chance.is_one_of(2) || width == 1 && null.is_empty();
    let all = [
        "rowfn_stream",
        "--summary",
        "--batch=2",
        "--batch-bytes=1000",
        if header { "--header" } else { "--no-header" },
        "--blank-lines",
        if has_blanks { "null" } else { "skip" },
        "--columns",
        columns.as_str(),
        "--delimiter",
        delimiter,
        "--null",
        null,
        "--",
        answers.as_str(),
    ];
    Ok(Tried {
        words: words_from(alloc, &all)?,
        input,
        row_count,
    })
}

/// Whether a run passed on all rows of a stream. If not, prints what it printed.
fn has_all(rt: &(impl Print + AllocGlobal), tried: &Tried, outcome: &Outcome) -> io::Result<bool> {
    let rows = tried.row_count;
    let summary = format!(in rt.alloc(); "rows read {rows}, rows written {rows}\n")?;
    is_same(
        rt,
        "all rows are written",
        summary.as_bytes(),
        &outcome.messages,
    )
}

/// Whether a stream's output reads back: as many rows, which are written the same once more.
fn reads_back(rt: &(impl Print + Files + AllocGlobal), tried: &Tried) -> io::Result<bool> {
    let first = run(rt, &tried.words, by_steps(&tried.input, 3));
    let second = run(rt, &tried.words, by_steps(&first.output, 3));
    let has_rows = has_all(rt, tried, &first)? && has_all(rt, tried, &second)?;
    Ok(
        has_rows
            && is_same(
                rt,
                "what is written reads back",
                &first.output,
                &second.output,
            )?,
    )
}

/// Whether the output of so many streams of chance reads back.
pub(crate) fn read_back(rt: &(impl Print + Files + AllocGlobal), count: u64) -> io::Result<bool> {
    for seed in 0..count {
        if !reads_back(rt, &tried_of(rt.alloc(), seed)?)? {
            println!(rt; "in stream {seed}")?;
            return Ok(false);
        }
    }
    Ok(true)
}
