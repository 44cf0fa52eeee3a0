//! The texts of answers, each without its name: its tokens, with one blank between two of them where
//! needed.
ghost use Rattle.std.specs.Prelude.{◌≡◌, ◌++◌, ◌∷◌, [], List, map, IfOk, OnOk};
ghost use Rattle.vortex_syntax.specs.Errors.{AnswersUnlessMemory};
ghost use Rattle.vortex_syntax.specs.Tokens as seen;
ghost use Rattle.vortex_syntax.specs.Tokens.{token_in};
ghost use Rattle.vortex_syntax.specs.Lexing.{Lexes};
ghost use Rattle.vortex_syntax.specs.Writing as specs;
ghost use Rattle.vortex_syntax.specs.Writing.{token_text, blank_unless, written};
ghost use Rattle.vortex_syntax.specs.AnswerTexts.{answer_text, answer_texts};

use crate::answer_list::{first_comma, split_name};
use crate::error::SyntaxError;
use crate::lexing::read_tokens;
use crate::token::Token;
use crate::writing::{Ending, ending_after, joins, sign_text};
use std::alloc::{AllocError, Global};

/// Adds bytes in quotes.
fn push_quoted(out: &mut Vec<u8>, quote: u8, bytes: &[u8]) -> Result<(), AllocError>
    ensures { OnOk result (out.new.items ≡ out.old.items ++ specs.in_quotes quote bytes.now) }
{
    out.push(quote)?;
    out.extend_from_slice(bytes)?;
    out.push(quote)?;
    Ok(())
}

/// Adds a word and a sign after it.
fn push_marked(out: &mut Vec<u8>, word: &[u8], mark: u8) -> Result<(), AllocError>
    ensures { OnOk result (out.new.items ≡ out.old.items ++ (word.now ++ (mark ∷ []))) }
{
    out.extend_from_slice(word)?;
    out.push(mark)?;
    Ok(())
}

/// Adds the bytes of a token.
fn push_bytes(out: &mut Vec<u8>, token: Token<'_>) -> Result<(), AllocError>
    ensures { OnOk result (out.new.items ≡ out.old.items ++ token_text (token_in token.entry)) }
{
    match token {
        Token::Name(word) => out.extend_from_slice(word),
        Token::Number(word) => out.extend_from_slice(word),
        Token::Nullable(word) => push_marked(out, word, b'?'),
        Token::Function(word) => push_marked(out, word, b'('),
        Token::Quoted(bytes) => push_quoted(out, b'"', bytes),
        Token::Text(bytes) => push_quoted(out, b'\'', bytes),
        Token::Sign(sign) => out.extend_from_slice(sign_text(sign).as_bytes()),
    }
}

/// Adds a token after what ends so, and a blank before it where needed.
fn push_token(out: &mut Vec<u8>, ending: Ending, token: Token<'_>) -> Result<(), AllocError>
    ensures { OnOk result (out.new.items ≡ out.old.items
        ++ (blank_unless (specs.joins ending (token_in token.entry))
        ++ token_text (token_in token.entry))) }
{
    if !joins(ending, token) {
        out.push(b' ')?;
    }
    push_bytes(out, token)
}

/// The text of tokens.
fn write_tokens(alloc: Global, tokens: &[Token<'_>]) -> Result<Vec<u8>, AllocError>
    ensures { IfOk result (λ text. text.items ≡ written (map token_in tokens.now)) }
{
    let mut out = Vec::new(alloc);
    let mut ending = Ending::Tight;
    for token in tokens {
        push_token(&mut out, ending, *token)?;
        ending = ending_after(ending, *token);
    }
    Ok(out)
}

/// The text of an answer's tokens, without `as` and a name at their end.
fn answer_text(alloc: Global, tokens: &[Token<'_>]) -> Result<Vec<u8>, AllocError>
    ensures { IfOk result (λ text. text.items ≡ answer_text (map token_in tokens.now)) }
{
    match split_name(tokens) {
        Some((tree, _)) => write_tokens(alloc, tree),
        None => write_tokens(alloc, tokens),
    }
}

/// The text of each answer that the tokens spell.
fn all_texts(alloc: Global, tokens: &[Token<'_>]) -> Result<Vec<Vec<u8>>, AllocError>
    ensures { IfOk result (λ texts. map (λ text. text.items) texts.items
        ≡ answer_texts (map token_in tokens.now)) }
{
    let mut texts = Vec::new(alloc);
    let mut from = 0;
    while let Some(count) = first_comma(&tokens[from..]) {
        texts.push(answer_text(alloc, &tokens[from..from + count])?)?;
        from += count + 1;
    }
    texts.push(answer_text(alloc, &tokens[from..])?)?;
    Ok(texts)
}

/// The text of each answer of a list, without its name: `price*2 as twice, stock` has `price * 2` and
/// `stock`. Fails with `NoToken` where the text has no tokens, and else returns texts whether or not
/// it is a list of answers: what is between commas that stand in no brackets.
pub fn answer_texts(alloc: Global, text: &[u8]) -> Result<Vec<Vec<u8>>, SyntaxError>
    ensures { (ts : List seen.Token) → Lexes text.now ts → AnswersUnlessMemory result
        (λ texts. map (λ text. text.items) texts.items ≡ answer_texts ts) }
{
    let read = read_tokens(alloc, text)?;
    Ok(all_texts(alloc, read.tokens.as_slice())?)
}
