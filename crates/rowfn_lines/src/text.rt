//! A script as lines, and a line as words.
ghost use Rattle.std.specs.Prelude.{◌≡◌, ◌<◌, [], map, option_map, length, IfOk};
ghost use Rattle.rowfn_lines.specs.Lines.{lines_of, after_spaces, with_word, words_of, in_quotes};
ghost use Rattle.rowfn_lines.specs.Lines.{word_in, BeginsWord, BeginsPlain};
ghost use Rattle.rowfn_lines.specs.Answering.{SplitsWord};

use std::alloc::{AllocError, Global};

/// A word of a line.
#[derive(Clone, Copy, Debug, PartialEq, Eq)]
pub enum Word<'a> {
    /// A word without quotes.
    Plain(&'a str),
    /// The text in quotes.
    Quoted(&'a str),
}

/// The lines, without their newlines. Fails only where memory runs out.
pub fn lines(alloc: Global, script: &[u8]) -> Result<Vec<&[u8]>, AllocError>
    ensures { IfOk result (λ lines. map (λ l. l.now) lines.items ≡ lines_of script.now) }
{
    script.split(|b| *b == b'\n').collect(alloc)
}

/// The text without the spaces that it begins with.
pub fn without_spaces(text: &str) -> &str
    ensures { result.now ≡ after_spaces text.now }
{
    let mut rest = text;
    while let Some(after) = rest.strip_prefix(' ') {
        rest = after;
    }
    rest
}

/// The first word of a text that begins with one without quotes, and what follows the word.
fn split_plain(text: &str) -> (Word<'_>, &str)
    requires { BeginsPlain text.now }
    ensures word { words_of text.now ≡ with_word (word_in result.0) (words_of result.1.now) }
    ensures less { length result.1.now < length text.now }
{
    match text.split_once(' ') {
        Some((word, after)) => (Word::Plain(word), after),
        None => (Word::Plain(text), ""),
    }
}

/// The text up to the next quote, and what follows the quote; none if there is no quote, or it is
/// not followed by a space or the end.
fn split_quoted(text: &str) -> Option<(Word<'_>, &str)>
    ensures { SplitsWord text.now (in_quotes [] text.now) result }
{
    let Some((word, after)) = text.split_once('"') else {
        return None;
    };
    if after.is_empty() {
        return Some((Word::Quoted(word), after));
    }
    match after.strip_prefix(' ') {
        Some(after) => Some((Word::Quoted(word), after)),
        None => None,
    }
}

/// The first word of a text that begins with one, and what follows the word; none if a quote is
/// misplaced.
fn split_word(text: &str) -> Option<(Word<'_>, &str)>
    requires { BeginsWord text.now }
    ensures { SplitsWord text.now (words_of text.now) result }
{
    match text.strip_prefix('"') {
        Some(text) => split_quoted(text),
        None => Some(split_plain(text)),
    }
}

/// The words; none if a quote is misplaced. Fails only where memory runs out.
pub fn words(alloc: Global, line: &str) -> Result<Option<Vec<Word<'_>>>, AllocError>
    ensures { IfOk result
        (λ words. option_map (λ ws. map word_in ws.items) words ≡ words_of line.now) }
{
    let mut words = Vec::new(alloc);
    let mut rest = without_spaces(line);
    while !rest.is_empty() {
        let Some((word, after)) = split_word(rest) else {
            return Ok(None);
        };
        words.push(word)?;
        rest = without_spaces(after);
    }
    Ok(Some(words))
}
