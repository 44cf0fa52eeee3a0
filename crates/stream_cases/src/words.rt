//! Words of a command line.

use std::alloc::{AllocError, Global};

/// A line's words up to a place: those that are whole, and the one that is begun, if there is one.
#[derive(Drop)]
struct Split {
    words: Vec<String>,
    begun: Option<String>,
    quote: Option<char>,
}

/// Adds a character to the word that is begun, or begins one.
fn push_char(alloc: Global, split: &mut Split, letter: char) -> Result<(), AllocError> {
    let mut word = match split.begun.take() {
        Some(word) => word,
        None => String::new(alloc),
    };
    if split.quote != Some(letter) && (split.quote.is_some() || letter != '\'' && letter != '"') {
        word.push(letter)?;
    }
    split.begun = Some(word);
    Ok(())
}

/// Passes the next character of a line.
fn pass(alloc: Global, split: &mut Split, letter: char) -> Result<(), AllocError> {
    match (split.quote, letter) {
        (None, ' ') => {
            if let Some(word) = split.begun.take() {
                split.words.push(word)?;
            }
        }
        (None, '\'' | '"') => {
            push_char(alloc, split, letter)?;
            split.quote = Some(letter);
        }
        (Some(quote), letter) if letter == quote => split.quote = None,
        _ => push_char(alloc, split, letter)?,
    }
    Ok(())
}

/// The words of a command line, as a shell reads them: blanks separate them, and between two
/// quotes, single or double, each character is itself.
pub(crate) fn words_of(alloc: Global, line: &str) -> Result<Vec<String>, AllocError> {
    let mut split = Split {
        words: Vec::new(alloc),
        begun: None,
        quote: None,
    };
    for letter in line.chars() {
        pass(alloc, &mut split, letter)?;
    }
    if let Some(word) = split.begun.take() {
        split.words.push(word)?;
    }
    Ok(split.words)
}
