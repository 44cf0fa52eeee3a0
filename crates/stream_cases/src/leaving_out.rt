//! What is written where rows are left out is what is written without them: streams of chance.

use crate::chance::Chance;
use crate::drips::by_steps;
use crate::runs::{Outcome, is_same, run, words_from};
use std::alloc::{AllocError, Global};
use std::rt::Files;
use std::{io, str};

const FIELDS: &[&str] = &[
    "0", "1", "2", "3", "-1", "7", "100", "-128", "127", "128", "", "x", "\"\"", "\"2\"", "\"\n\"",
];

const ANSWERS: &[&str] = &[
    "a + b as c, a as d",
    "a / b as c, b as d",
    "a * a as c, b is null as n",
    "b as d, a - b as c",
];

const CONDITIONS: &[&str] = &["", "a > 0", "b / a > 0", "b is not null"];

const TYPES: &[&str] = &["a i8, b i8", "a i8?, b i8", "a i8?, b i8?"];

/// A row of chance.
fn line_of(alloc: Global, chance: &mut Chance) -> Result<String, AllocError> {
    let mut line = String::from_str(alloc, chance.word(FIELDS))?;
    line.push_str(",")?;
    line.push_str(chance.word(FIELDS))?;
    if chance.is_one_of(12) {
        line.push_str(",1")?;
    }
    line.push_str(chance.word(&["\n", "\r\n"]))?;
    Ok(line)
}

/// Rows of chance, each with the end of its line.
fn rows_of(alloc: Global, chance: &mut Chance) -> Result<Vec<String>, AllocError> {
    let mut lines = Vec::new(alloc);
    for _ in 0..chance.next() % 40 {
        lines.push(line_of(alloc, chance)?)?;
    }
    Ok(lines)
}

/// Whether the number is at the beginning of one of the lines of reports.
fn is_reported(reports: &[u8], row: usize) -> bool {
    let Ok(text) = str::from_utf8(reports) else {
        return false;
    };
    for line in text.split('\n') {
        let number = match line.split_once(',') {
            Some((number, _)) => number.parse::<usize>().ok(),
            None => None,
        };
        if number == Some(row) {
            return true;
        }
    }
    false
}

/// The input of rows, but for those that were reported.
fn input_of(alloc: Global, rows: &[String], reports: &[u8]) -> Result<String, AllocError> {
    let mut input = String::from_str(alloc, "a,b\n")?;
    for (place, line) in rows.iter().enumerate() {
        if !is_reported(reports, place.saturating_add(1)) {
            input.push_str(line.as_str())?;
        }
    }
    Ok(input)
}

/// A stream of chance: its rows, what is asked of them, and how many are read at once.
#[derive(Drop)]
struct Tried {
    rows: Vec<String>,
    condition: &'static str,
    batch: u64,
    types: &'static str,
    answers: &'static str,
    appends: bool,
}

/// The stream that a number leads to.
fn tried_of(alloc: Global, seed: u64) -> Result<Tried, AllocError> {
    let mut chance = Chance { state: seed };
    Ok(Tried {
        rows: rows_of(alloc, &mut chance)?,
        condition: chance.word(CONDITIONS),
        batch: 1 + chance.next() % 9,
        types: chance.word(TYPES),
        answers: chance.word(ANSWERS),
        appends: chance.is_one_of(3),
    })
}

/// The words that ask it, of so many rows at once.
fn words_of(
    alloc: Global,
    tried: &Tried,
    errors: &'static str,
    batch: u64,
) -> Result<Vec<String>, AllocError> {
    let batch = format!(in alloc; "--batch={batch}")?;
    let all = [
        "rowfn_stream",
        errors,
        batch.as_str(),
        "--batch-bytes=1000",
        "--columns",
        tried.types,
        if tried.appends {
            "--append"
        } else {
            "--header"
        },
        "--where",
        if tried.condition.is_empty() {
            "true"
        } else {
            tried.condition
        },
        tried.answers,
    ];
    words_from(alloc, &all)
}

/// What it prints of its rows but for those that were reported, that many of them in a batch.
fn outcome_of(
    rt: &(impl Files + AllocGlobal),
    tried: &Tried,
    reports: &[u8],
    errors: &'static str,
    batch: u64,
) -> Result<Outcome, AllocError> {
    let alloc = rt.alloc();
    let words = words_of(alloc, tried, errors, batch)?;
    let input = input_of(alloc, &tried.rows, reports)?;
    Ok(run(rt, &words, by_steps(input.as_bytes(), 7)))
}

/// Whether a stream that goes on writes what one writes whose input lacks the reported rows.
fn leaves_out(rt: &(impl Print + Files + AllocGlobal), tried: &Tried) -> io::Result<bool> {
    let all = outcome_of(rt, tried, b"", "--errors=skip", tried.batch)?;
    let rest = outcome_of(rt, tried, &all.messages, "--errors=stop", 7)?;
    if all.status > 1 || rest.status != 0 {
        println!(rt; "status {} and {}", all.status, rest.status)?;
        return Ok(false);
    }
    is_same(rt, "rows are left out", &rest.output, &all.output)
}

/// Whether so do that many streams of chance.
pub(crate) fn left_out(rt: &(impl Print + Files + AllocGlobal), count: u64) -> io::Result<bool> {
    for seed in 0..count {
        if !leaves_out(rt, &tried_of(rt.alloc(), seed)?)? {
            println!(rt; "in stream {seed}")?;
            return Ok(false);
        }
    }
    Ok(true)
}
