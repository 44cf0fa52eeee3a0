//! The command with its options.

use crate::language::AFTER_HELP;
use crate::rows::{ACTIONS, FIELDS, INDEXES, READING, Row, SOURCES, Takes};
use clap::{Arg, ArgAction, Command, Error, value_parser};
use std::alloc::Global;

/// What an option takes, as `clap` says it.
fn taking<'a>(arg: Arg<'a>, row: Row) -> Arg<'a> {
    match row.takes {
        Takes::Flag => arg.action(ArgAction::SetTrue),
        Takes::Text => arg.value_name(row.value),
        Takes::AnyText => arg.value_name(row.value).allow_hyphen_values(true),
        Takes::AnyTexts => {
            arg.value_name(row.value)
                .allow_hyphen_values(true)
                .action(ArgAction::Append)
        }
        Takes::Number32 => {
            arg.value_name(row.value)
                .value_parser(value_parser!(u32).range(1..))
        }
        Takes::Number64 => {
            arg.value_name(row.value)
                .value_parser(value_parser!(u64).range(1..))
        }
    }
}

/// An option by its row.
fn option<'a>(alloc: Global, row: Row) -> Result<Arg<'a>, Error> {
    let mut arg = taking(Arg::new(alloc, row.id).help(row.help), row);
    if let Some(long) = row.long {
        arg = arg.long(long);
    }
    if let Some(short) = row.short {
        arg = arg.short(short);
    }
    if let Some(default) = row.default {
        arg = arg.default_value(default);
    }
    for other in row.against {
        if let Some(other) = other {
            arg = arg.conflicts_with(other)?;
        }
    }
    Ok(arg)
}

/// The command with an option more.
fn with<'a>(command: Command<'a>, option: Result<Arg<'a>, Error>) -> Result<Command<'a>, Error> {
    Ok(command.arg(option?)?)
}

/// The command with options more.
fn with_rows<'a>(alloc: Global, command: Command<'a>, rows: &[Row]) -> Result<Command<'a>, Error> {
    let mut command = command;
    for row in rows {
        command = with(command, option(alloc, *row))?;
    }
    Ok(command)
}

/// Where the expression and the rows are.
fn with_sources<'a>(alloc: Global, command: Command<'a>) -> Result<Command<'a>, Error> {
    with_rows(alloc, command, &SOURCES)
}

/// What is done with rows.
fn with_actions<'a>(alloc: Global, command: Command<'a>) -> Result<Command<'a>, Error> {
    with_rows(alloc, with_rows(alloc, command, &ACTIONS)?, &INDEXES)
}

/// How rows are read.
fn with_reading<'a>(alloc: Global, command: Command<'a>) -> Result<Command<'a>, Error> {
    with_rows(alloc, command, &READING)
}

/// How fields are written, in the input and in the output.
fn with_fields<'a>(alloc: Global, command: Command<'a>) -> Result<Command<'a>, Error> {
    with_rows(alloc, command, &FIELDS)
}

/// The first word, which is the expression unless a file is.
fn expression<'a>(alloc: Global) -> Result<Arg<'a>, Error> {
    Ok(
        Arg::new(alloc, "expression")
            .value_name("EXPRESSION")
            .required_unless_present("file")?
            .required_unless_present("where")?
            .required_unless_present("write-index")?
            .help("What is answered in each row; not there with -f"),
    )
}

/// The command without its options.
fn bare_command<'a>(alloc: Global) -> Command<'a> {
    Command::new(alloc, "rowfn_stream")
        .version("0.1.0")
        .about("Rows of CSV that flow through an expression")
        .after_help(AFTER_HELP)
}

/// The command with all its options, in the order of `--help`.
pub(crate) fn command<'a>(alloc: Global) -> Result<Command<'a>, Error> {
    let command = with(bare_command(alloc), expression(alloc))?;
    let command = with_sources(alloc, command)?;
    let command = with_actions(alloc, command)?;
    let command = with_reading(alloc, command)?;
    with_fields(alloc, command)
}
