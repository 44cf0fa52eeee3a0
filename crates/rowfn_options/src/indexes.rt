//! Indexes of files, as the options say it.

use crate::words::refusal;
use clap::error::ErrorKind;
use clap::{ArgMatches, Command, Error};

/// The files of indexes, and how many rows a part has, at most.
#[derive(Clone, Copy)]
pub(crate) struct Indexes<'a> {
    pub(crate) written: Option<&'a str>,
    pub(crate) used: Option<&'a str>,
    pub(crate) chunk_rows: u32,
}

/// What no rows are written for: options beside `--write-index` that would say how.
const OF_ROWS: [&str; 6] = [
    "expression",
    "file",
    "where",
    "errors-to",
    "output-delimiter",
    "index",
];

/// Whether one of these options has a value.
fn has_one(matches: &ArgMatches<'_>, names: &[&str]) -> bool {
    for name in names {
        if matches.contains_id(name) {
            return true;
        }
    }
    false
}

/// Whether one of these flags is set.
fn has_flag(matches: &ArgMatches<'_>, names: &[&str]) -> bool {
    for name in names {
        if matches.get_flag(name) {
            return true;
        }
    }
    false
}

/// Whether a word is that value of an option.
fn has_word(matches: &ArgMatches<'_>, name: &str, word: &str) -> bool {
    match matches.get_str(name) {
        Some(found) => found == word,
        None => false,
    }
}

/// Fails, with that message, where a condition does not hold.
fn demand(command: &mut Command<'_>, holds: bool, message: &str) -> Result<(), Error> {
    if holds {
        return Ok(());
    }
    Err(refusal(command, ErrorKind::ArgumentConflict, message)?)
}

/// Fails where options do not go with the writing of an index of that name.
fn check_written(
    matches: &ArgMatches<'_>,
    command: &mut Command<'_>,
    name: &str,
    input: Option<&str>,
) -> Result<(), Error> {
    demand(
        command,
        !has_one(matches, &OF_ROWS),
        "--write-index: no rows are written: expected no EXPRESSION, --where, --index, \
         --errors-to or --output-delimiter, and the file of the rows after --input",
    )?;
    demand(
        command,
        !has_flag(
            matches,
            &["append", "explain", "summary", "progress", "flush"],
        ),
        "--write-index: no rows are written: expected no --append, --explain, --summary, \
         --progress or --flush",
    )?;
    demand(
        command,
        !has_word(matches, "errors", "skip") && !has_word(matches, "ragged", "fit"),
        "--write-index: an index is of rows that are all good: expected --errors stop and \
         --ragged refuse",
    )?;
    demand(
        command,
        input.is_some() && input != Some(name),
        "--write-index: expected the file of the rows after --input, and another file than that",
    )
}

/// Fails where options do not go with the use of an index.
fn check_used(
    matches: &ArgMatches<'_>,
    command: &mut Command<'_>,
    input: Option<&str>,
) -> Result<(), Error> {
    demand(
        command,
        matches.contains_id("where"),
        "--index: expected --where, the condition by which parts are skipped",
    )?;
    demand(
        command,
        input.is_some(),
        "--index: parts of standard input cannot be skipped: expected --input FILE",
    )?;
    demand(
        command,
        !has_flag(matches, &["explain", "progress"]) && !has_word(matches, "ragged", "fit"),
        "--index: expected no --explain, --progress or --ragged fit",
    )
}

/// The indexes that the options name. Fails where others do not go with them.
pub(crate) fn indexes_option<'a>(
    matches: &ArgMatches<'a>,
    command: &mut Command<'_>,
    input: Option<&str>,
) -> Result<Indexes<'a>, Error> {
    let written = matches.get_str("write-index");
    let used = matches.get_str("index");
    if let Some(name) = written {
        check_written(matches, command, name, input)?;
    }
    if used.is_some() {
        check_used(matches, command, input)?;
    }
    Ok(Indexes {
        written,
        used,
        chunk_rows: matches.get_one::<u32>("chunk-rows").unwrap_or(8192),
    })
}
