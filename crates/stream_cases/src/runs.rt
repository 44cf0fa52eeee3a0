//! Runs of a command line, and what they are compared with.

use crate::case::Case;
use crate::console::Console;
use crate::drips::{Drips, by_steps};
use crate::escapes::escaped;
use case_files::differs;
use rowfn_commands::run_command;
use std::alloc::{AllocError, Global};
use std::rt::Files;
use std::{fs, io};

/// The batches with which a command is run, by their rows and their bytes.
const BATCHES: [(&str, &str); 6] = [
    ("1", "1000"),
    ("2", "1000"),
    ("7", "1000"),
    ("8192", "1"),
    ("8192", "6"),
    ("8192", "1048576"),
];

/// How many bytes are read at once.
const STEPS: [usize; 4] = [1, 2, 5, 8192];

/// The status of wrong words.
const WRONG_WORDS: u8 = 64;

/// What a command prints, and its status.
#[derive(Drop)]
pub(crate) struct Outcome {
    pub(crate) output: Vec<u8>,
    pub(crate) messages: Vec<u8>,
    pub(crate) status: u8,
}

/// What a command line does with an input, on that console.
fn run_on(
    rt: &(impl Files + AllocGlobal),
    console: Console,
    words: &[String],
    input: Drips<'_>,
) -> Outcome {
    let status = run_command(rt, &console, words, input);
    let (output, messages) = console.into_printed();
    Outcome {
        output,
        messages,
        status,
    }
}

/// What a command line does with an input.
pub(crate) fn run(rt: &(impl Files + AllocGlobal), words: &[String], input: Drips<'_>) -> Outcome {
    let console = Console::new(rt.alloc(), usize::MAX, usize::MAX);
    run_on(rt, console, words, input)
}

/// What a case does, with these words, that many bytes read at once.
fn run_case(
    rt: &(impl Files + AllocGlobal),
    case: &Case<'_>,
    words: &[String],
    step: usize,
) -> Outcome {
    let input = Drips {
        fails: case.fails,
        ..by_steps(&case.input, step)
    };
    let console = Console::new(rt.alloc(), case.output_limit, case.messages_limit);
    run_on(rt, console, words, input)
}

/// Whether two lists of bytes are the same. If not, prints both.
pub(crate) fn is_same(
    rt: &(impl Print + AllocGlobal),
    name: &str,
    expected: &[u8],
    got: &[u8],
) -> io::Result<bool> {
    if got == expected {
        return Ok(true);
    }
    let alloc = rt.alloc();
    let (expected, got) = (escaped(alloc, expected)?, escaped(alloc, got)?);
    differs(rt, name, expected.as_str(), got.as_str())
}

/// Whether the file of a case holds what is expected.
fn is_held(rt: &(impl Print + Files + AllocGlobal), case: &Case<'_>) -> io::Result<bool> {
    match case.file {
        Some(name) => is_same(rt, case.name, &case.held, &fs::read(rt, name)?),
        None => Ok(true),
    }
}

/// The part of the output that is compared: all of it, or its beginning.
fn compared<'a>(case: &Case<'_>, output: &'a [u8]) -> &'a [u8] {
    if case.goes_on {
        output.get(..case.output.len()).unwrap_or(output)
    } else {
        output
    }
}

/// Whether a case ends as expected, with these words, that many bytes read at once.
fn holds_once(
    rt: &(impl Print + Files + AllocGlobal),
    case: &Case<'_>,
    words: &[String],
    step: usize,
) -> io::Result<bool> {
    let Outcome {
        output,
        messages,
        status,
    } = run_case(rt, case, words, step);
    if status != case.status {
        println!(rt; "== {}\nstatus {status}", case.name)?;
        return Ok(false);
    }
    let is_good = is_same(rt, case.name, &case.output, compared(case, &output))?
        && is_same(rt, case.name, &case.messages, &messages)?;
    Ok(is_good && is_held(rt, case)?)
}

/// Whether so it ends by reads of few and many bytes.
fn holds_by_steps(
    rt: &(impl Print + Files + AllocGlobal),
    case: &Case<'_>,
    words: &[String],
) -> io::Result<bool> {
    for step in STEPS {
        if !holds_once(rt, case, words, step)? {
            return Ok(false);
        }
    }
    Ok(true)
}

/// Whether a case is run with other batches: not where its words say how many rows one has, or are
/// wrong, since messages then show the words.
fn takes_batches(case: &Case<'_>) -> bool {
    let has_batch = case
        .words
        .iter()
        .any(|word| word.as_str().starts_with("--batch"));
    !has_batch && case.status != WRONG_WORDS
}

/// Words of their texts.
pub(crate) fn words_from(alloc: Global, texts: &[&str]) -> Result<Vec<String>, AllocError> {
    let mut words = Vec::new(alloc);
    for text in texts {
        words.push(String::from_str(alloc, text)?)?;
    }
    Ok(words)
}

/// The words of a case, with a batch after the first.
fn words_with(
    alloc: Global,
    words: &[String],
    batch: (&str, &str),
) -> Result<Vec<String>, AllocError> {
    let (rows, bytes) = batch;
    let first = words.first().map(|word| word.as_str()).unwrap_or("");
    let mut all = words_from(alloc, &[first, "--batch", rows, "--batch-bytes", bytes])?;
    for word in words.iter().skip(1) {
        all.push(word.clone()?)?;
    }
    Ok(all)
}

/// Whether a case ends as expected, whatever the batches and the reads.
pub(crate) fn holds(rt: &(impl Print + Files + AllocGlobal), case: &Case<'_>) -> io::Result<bool> {
    if !holds_by_steps(rt, case, &case.words)? {
        return Ok(false);
    }
    if !takes_batches(case) {
        return Ok(true);
    }
    for batch in BATCHES {
        let words = words_with(rt.alloc(), &case.words, batch)?;
        if !holds_by_steps(rt, case, &words)? {
            return Ok(false);
        }
    }
    Ok(true)
}
