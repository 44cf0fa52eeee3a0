//! A case, and its text.

use crate::escapes::push_line;
use crate::words::words_of;
use std::alloc::{AllocError, Global};
use std::str;

/// A command line, what it reads, and what it is expected to print and to end with.
#[derive(Drop)]
pub(crate) struct Case<'a> {
    pub(crate) name: &'a str,
    pub(crate) words: Vec<String>,
    pub(crate) input: Vec<u8>,
    /// How often the next line of the input is there.
    times: usize,
    /// Whether reading fails after the input.
    pub(crate) fails: bool,
    pub(crate) output: Vec<u8>,
    /// Whether more output may follow.
    pub(crate) goes_on: bool,
    /// How many bytes standard output takes.
    pub(crate) output_limit: usize,
    pub(crate) messages: Vec<u8>,
    /// How many bytes standard error takes.
    pub(crate) messages_limit: usize,
    /// The name of a file, if there is one, and what it holds then.
    pub(crate) file: Option<&'a str>,
    pub(crate) held: Vec<u8>,
    pub(crate) status: u8,
}

/// The parts of a case.
#[derive(Clone, Copy)]
enum Part {
    Input,
    Output,
    Messages,
    File,
}

/// The case of a name and words, whose parts are empty.
fn case_of<'a>(alloc: Global, name: &'a str, words: Vec<String>) -> Case<'a> {
    Case {
        name,
        words,
        input: Vec::new(alloc),
        times: 1,
        fails: false,
        output: Vec::new(alloc),
        goes_on: false,
        output_limit: usize::MAX,
        messages: Vec::new(alloc),
        messages_limit: usize::MAX,
        file: None,
        held: Vec::new(alloc),
        status: 0,
    }
}

/// The part that a line begins, with what it says of the part; none if it begins no part.
fn part_begun<'a>(case: &mut Case<'a>, line: &'a str) -> Option<Part> {
    let (mark, said) = line.split_once(' ').unwrap_or((line, ""));
    let limit = said.parse::<usize>().unwrap_or(usize::MAX);
    match mark {
        "<" | "<!" => {
            case.fails = mark == "<!";
            Some(Part::Input)
        }
        ">" | ">.." => {
            case.goes_on = mark == ">..";
            case.output_limit = limit;
            Some(Part::Output)
        }
        "2>" => {
            case.messages_limit = limit;
            Some(Part::Messages)
        }
        "=" => {
            case.file = Some(said);
            Some(Part::File)
        }
        _ => None,
    }
}

/// The status of a line `? 1`.
fn status_of(line: &str) -> Option<u8> {
    line.strip_prefix("? ")?.parse::<u8>().ok()
}

/// Adds a line to the input, as often as the line before says.
fn push_input(case: &mut Case<'_>, line: &str) -> Result<(), AllocError> {
    if let Some(times) = line
        .strip_prefix("* ")
        .and_then(|said| said.parse::<usize>().ok())
    {
        case.times = times;
        return Ok(());
    }
    for _ in 0..case.times {
        push_line(&mut case.input, line)?;
    }
    case.times = 1;
    Ok(())
}

/// Adds a line to a part.
fn push_to(case: &mut Case<'_>, part: Part, line: &str) -> Result<(), AllocError> {
    match part {
        Part::Input => push_input(case, line),
        Part::Output => push_line(&mut case.output, line),
        Part::Messages => push_line(&mut case.messages, line),
        Part::File => push_line(&mut case.held, line),
    }
}

/// Reads the parts. Returns whether each line is in one.
fn read_parts<'a>(case: &mut Case<'a>, text: &'a str) -> Result<bool, AllocError> {
    let mut part = None;
    for line in text.trim_end_matches('\n').split('\n') {
        if let Some(status) = status_of(line) {
            case.status = status;
        } else if let Some(begun) = part_begun(case, line) {
            part = Some(begun);
        } else if let Some(part) = part {
            push_to(case, part, line)?;
        } else if !line.is_empty() {
            return Ok(false);
        }
    }
    Ok(true)
}

/// The words of a line, with its bytes as lines of a case have them.
fn words_in(alloc: Global, line: &str) -> Result<Vec<String>, AllocError> {
    let mut bytes = Vec::new(alloc);
    push_line(&mut bytes, line)?;
    match str::from_utf8(&bytes) {
        Ok(text) => words_of(alloc, text.strip_suffix("\n").unwrap_or(text)),
        Err(_) => Ok(Vec::new(alloc)),
    }
}

/// The case of a text after its `== `; none if it has no words, or lines in no part.
pub(crate) fn read_case(alloc: Global, text: &str) -> Result<Option<Case<'_>>, AllocError> {
    let Some((name, body)) = text.split_once('\n') else {
        return Ok(None);
    };
    let (line, parts) = body.split_once('\n').unwrap_or((body, ""));
    let mut case = case_of(alloc, name, words_in(alloc, line)?);
    if !read_parts(&mut case, parts)? || case.words.is_empty() {
        return Ok(None);
    }
    Ok(Some(case))
}
