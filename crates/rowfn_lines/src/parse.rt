//! Parses a line.
ghost use Rattle.std.specs.Prelude.{◌≡◌, [], ◌∷◌, map, option_map, MatchOption};
ghost use Rattle.std.specs.Str.{chars};
ghost use Rattle.vortex_errors.specs.Answers.{AnswersUnlessMemory};
ghost use Rattle.rowfn_lines.specs.Lines.{word_in};
ghost use Rattle.rowfn_lines.specs.Commands.{begins_comment, is_name, count_of, limit_of};
ghost use Rattle.rowfn_lines.specs.Commands.{only_word, alone, run_command};
ghost use Rattle.rowfn_lines.specs.Commands.{rows_command, column_command, get_command};
ghost use Rattle.rowfn_lines.specs.Commands.{literal_command, escaped_call};
ghost use Rattle.rowfn_lines.specs.Commands.{call_of};
ghost use Rattle.rowfn_lines.specs.Commands.{call_command};
ghost use Rattle.rowfn_lines.specs.Commands.{command_by};
ghost use Rattle.rowfn_lines.specs.Commands.{command_of_words, command_of_text, command_of};
ghost use Rattle.rowfn_lines.specs.Commands.{command_in};
ghost use Rattle.rowfn_lines.specs.Answering.{AnswersCommand};

use crate::command::Line;
use crate::text::{Word, without_spaces, words};
use crate::values::{written_column, written_literal};
use std::alloc::Global;
use std::str;
use vortex_cells::digits::are_digits;
use vortex_cells::escapes::escape_of;
use vortex_cells::types::read_type;
use vortex_columns::VortexResult;

fn begins_comment(word: &str) -> bool
    ensures { result ≡ begins_comment word.now }
{
    word.as_bytes().first() == Some(&b'#')
}

/// Whether there are only ASCII letters, digits and `_`.
pub fn is_name(word: &str) -> bool
    ensures { result ≡ is_name word.now }
{
    word.as_bytes()
        .iter()
        .all(|byte| byte.is_ascii_alphanumeric() || *byte == b'_')
}

/// The number of one to six digits.
pub fn count(word: &str) -> Option<usize>
    ensures { result ≡ count_of word.now }
{
    if word.len() > 6 || !are_digits(word) {
        return None;
    }
    word.parse::<usize>().ok()
}

/// The number of digits, if 64 bits hold it.
fn limit(word: &str) -> Option<u64>
    ensures { result ≡ limit_of word.now }
{
    if !are_digits(word) {
        return None;
    }
    word.parse::<u64>().ok()
}

/// The only word, without quotes.
fn only<'a>(words: &[Word<'a>]) -> Option<&'a str>
    ensures { option_map (λ w. w.now) result ≡ only_word (map word_in words.now) }
{
    match words {
        [Word::Plain(word)] => Some(word),
        _ => None,
    }
}

fn rows_line<'a>(words: &[Word<'a>]) -> Line<'a>
    ensures { command_in result ≡ rows_command (map word_in words.now) }
{
    let Some(word) = only(words) else {
        return Line::Malformed;
    };
    match count(word) {
        Some(rows) => Line::Rows(rows),
        None => Line::Malformed,
    }
}

fn column_line<'a>(alloc: Global, words: &[Word<'a>]) -> VortexResult<Line<'a>>
    ensures { AnswersCommand (column_command (map word_in words.now)) result }
{
    let [Word::Plain(name), Word::Plain(dtype), cells @ ..] = words else {
        return Ok(Line::Malformed);
    };
    if !is_name(name) {
        return Ok(Line::Malformed);
    }
    let Some(dtype) = read_type(dtype) else {
        return Ok(Line::Malformed);
    };
    match written_column(alloc, &dtype, cells)? {
        Some(column) => Ok(Line::Column(name, column)),
        None => Ok(Line::Malformed),
    }
}

fn literal_line<'a>(alloc: Global, words: &[Word<'a>]) -> VortexResult<Line<'a>>
    ensures { AnswersCommand (literal_command (map word_in words.now)) result }
{
    let [Word::Plain(dtype), cell] = words else {
        return Ok(Line::Malformed);
    };
    let Some(dtype) = read_type(dtype) else {
        return Ok(Line::Malformed);
    };
    match written_literal(alloc, &dtype, cell)? {
        Some(scalar) => Ok(Line::Literal(scalar)),
        None => Ok(Line::Malformed),
    }
}

fn get_line<'a>(words: &[Word<'a>]) -> Line<'a>
    ensures { command_in result ≡ get_command (map word_in words.now) }
{
    match only(words) {
        Some(name) if is_name(name) => Line::Get(name),
        _ => Line::Malformed,
    }
}

/// A call by a word, with the escape of a text after `escape`.
fn escaped_call<'a>(
    alloc: Global,
    word: &'a str,
    option: &str,
    text: &str,
) -> VortexResult<Line<'a>>
    ensures { AnswersCommand (escaped_call word.now option.now text.now) result }
{
    if option != "escape" {
        return Ok(Line::Malformed);
    }
    match escape_of(text) {
        Some(escape) => Ok(Line::Call([word].to_vec(alloc)?, Some(escape))),
        None => Ok(Line::Malformed),
    }
}

/// A call by a word and what follows it: nothing, the words of two bounds, or an escape.
fn call_of<'a>(alloc: Global, word: &'a str, options: &[Word<'a>]) -> VortexResult<Line<'a>>
    ensures { AnswersCommand (call_of word.now (map word_in options.now)) result }
{
    match options {
        [] => Ok(Line::Call([word].to_vec(alloc)?, None)),
        [Word::Plain(lower), Word::Plain(upper)] => {
            Ok(Line::Call([word, *lower, *upper].to_vec(alloc)?, None))
        }
        [Word::Plain(option), Word::Quoted(text)] => escaped_call(alloc, word, option, text),
        _ => Ok(Line::Malformed),
    }
}

fn call_line<'a>(alloc: Global, words: &[Word<'a>]) -> VortexResult<Line<'a>>
    ensures { AnswersCommand (call_command (map word_in words.now)) result }
{
    match words {
        [Word::Plain(word), options @ ..] => call_of(alloc, word, options),
        _ => Ok(Line::Malformed),
    }
}

/// The line of a first word without others.
fn alone<'a>(line: Line<'a>, words: &[Word<'a>]) -> Line<'a>
    ensures { command_in result ≡ alone (command_in line.entry) (map word_in words.now) }
{
    if words.is_empty() {
        line
    } else {
        Line::Malformed
    }
}

/// `run`, by what follows it: nothing, or a number of steps of rules first.
fn run_line<'a>(words: &[Word<'a>]) -> Line<'a>
    ensures { command_in result ≡ run_command (map word_in words.now) }
{
    if words.is_empty() {
        return Line::Run;
    }
    let Some(word) = only(words) else {
        return Line::Malformed;
    };
    match limit(word) {
        Some(limit) => Line::RunAfter(limit),
        None => Line::Malformed,
    }
}

/// The meaning of the words after a first word.
fn line_of<'a>(alloc: Global, first: &'a str, words: &[Word<'a>]) -> VortexResult<Line<'a>>
    ensures { AnswersCommand (command_by first.now (map word_in words.now)) result }
{
    if first == "rows" {
        Ok(rows_line(words))
    } else if first == "col" {
        column_line(alloc, words)
    } else if first == "get" {
        Ok(get_line(words))
    } else if first == "lit" {
        literal_line(alloc, words)
    } else if first == "call" {
        call_line(alloc, words)
    } else if first == "show" {
        Ok(alone(Line::Show, words))
    } else if first == "optimize" {
        Ok(alone(Line::Optimize, words))
    } else if first == "run" {
        Ok(run_line(words))
    } else {
        Ok(Line::Malformed)
    }
}

fn words_line<'a>(alloc: Global, words: &[Word<'a>]) -> VortexResult<Line<'a>>
    ensures { AnswersCommand (command_of_words (map word_in words.now)) result }
{
    match words {
        [] => Ok(Line::Nothing),
        [Word::Plain(first), words @ ..] => line_of(alloc, first, words),
        _ => Ok(Line::Malformed),
    }
}

/// The command of a text that does not begin with a space. E9 where an allocation fails.
pub fn text_line<'a>(alloc: Global, text: &'a str) -> VortexResult<Line<'a>>
    ensures { AnswersCommand (command_of_text text.now) result }
{
    if begins_comment(text) {
        return Ok(Line::Nothing);
    }
    match words(alloc, text)? {
        Some(words) => words_line(alloc, &words),
        None => Ok(Line::Malformed),
    }
}

/// The command of the line; `Malformed` if it has none. E9 where an allocation fails.
pub fn parse(alloc: Global, line: &[u8]) -> VortexResult<Line<'_>>
    ensures { AnswersCommand (command_of line.now) result }
{
    let Ok(line) = str::from_utf8(line) else {
        return Ok(Line::Malformed);
    };
    text_line(alloc, without_spaces(line))
}
