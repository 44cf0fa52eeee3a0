//! The text of tokens, with one blank between two of them where needed.
ghost use Rattle.std.specs.Prelude.{◌≡◌, ◌++◌, ◌<◌, List, [], OnOk, string_bytes};
ghost use Rattle.std.specs.List.{list_all};
ghost use Rattle.vortex_syntax.specs.declared.pieces.Run.TheVariants.{Word};
ghost use Rattle.vortex_syntax.specs.Tokens as seen;
ghost use Rattle.vortex_syntax.specs.Tokens.{token_in};
ghost use Rattle.vortex_syntax.specs.Pieces as pieces;
ghost use Rattle.vortex_syntax.specs.Spelling.{type_token};
ghost use Rattle.vortex_syntax.specs.Writing as specs;
ghost use Rattle.vortex_syntax.specs.Writing.{Holds, Adds, written, name_token, text_token};
ghost use Rattle.vortex_syntax.specs.Writing.{blank_unless, doubled, in_quotes};

use crate::pieces::{Run, begins_word, is_in, keyword_of};
use crate::token::{Sign, Token, TrimSide};
use std::alloc::{AllocError, Global};

/// What comes before the next token.
#[derive(Clone, Copy, Debug, PartialEq, Eq)]
pub enum Ending {
    /// Nothing, or a token that no blank follows: `(` and `::`.
    Tight,
    /// The minus sign of a number.
    Signed,
    /// `cast`.
    Called,
    /// The end of an operand.
    Operand,
    /// Anything else.
    Loose,
}

/// A text that is written token by token. After an error the text is of no use.
#[derive(Drop)]
pub struct Writer {
    text: String,
    ending: Ending,
}

pub(crate) fn sign_text(sign: Sign) -> &'static str
    ensures { result.now ≡ specs.sign_text sign }
{
    match sign {
        Sign::And => "and",
        Sign::Or => "or",
        Sign::Not => "not",
        Sign::Is => "is",
        Sign::Null => "null",
        Sign::Between => "between",
        Sign::Like => "like",
        Sign::Ilike => "ilike",
        Sign::Escape => "escape",
        Sign::True => "true",
        Sign::False => "false",
        Sign::Cast => "cast",
        Sign::TryCast => "try_cast",
        Sign::As => "as",
        Sign::Distinct => "distinct",
        Sign::From => "from",
        Sign::In => "in",
        Sign::Case => "case",
        Sign::When => "when",
        Sign::Then => "then",
        Sign::Else => "else",
        Sign::End => "end",
        Sign::IsNull => "isnull",
        Sign::NotNull => "notnull",
        Sign::Symmetric => "symmetric",
        Sign::Side(TrimSide::Both) => "both",
        Sign::Side(TrimSide::Leading) => "leading",
        Sign::Side(TrimSide::Trailing) => "trailing",
        Sign::Equal => "=",
        Sign::NotEqual => "<>",
        Sign::Less => "<",
        Sign::LessOrEqual => "<=",
        Sign::Greater => ">",
        Sign::GreaterOrEqual => ">=",
        Sign::Plus => "+",
        Sign::Minus => "-",
        Sign::Times => "*",
        Sign::Divide => "/",
        Sign::Modulo => "%",
        Sign::Concat => "||",
        Sign::BitAnd => "&",
        Sign::BitOr => "|",
        Sign::BitXor => "#",
        Sign::BitNot => "~",
        Sign::ShiftLeft => "<<",
        Sign::ShiftRight => ">>",
        Sign::MatchAnyCase => "~*",
        Sign::NotMatch => "!~",
        Sign::NotMatchAnyCase => "!~*",
        Sign::Open => "(",
        Sign::Close => ")",
        Sign::Comma => ",",
        Sign::Typed => "::",
    }
}

fn are_of_words(bytes: &[u8]) -> bool
    ensures { result ≡ list_all (pieces.is_in Word) bytes.now }
{
    bytes.iter().all(|byte| is_in(Run::Word, *byte))
}

fn is_word(word: &[u8]) -> bool
    ensures { result ≡ specs.is_word word.now }
{
    match word.split_first() {
        Some((first, rest)) => begins_word(*first) && are_of_words(rest),
        None => false,
    }
}

/// Whether a name is written without quotes: a word that is no keyword.
pub fn is_bare(name: &[u8]) -> bool
    ensures { result ≡ specs.is_bare name.now }
{
    is_word(name) && keyword_of(name).is_none()
}

fn is_tight(ending: Ending) -> bool
    ensures { result ≡ specs.is_tight ending }
{
    matches!(ending, Ending::Tight)
}

fn joins_number(ending: Ending) -> bool
    ensures { result ≡ specs.joins_number ending }
{
    matches!(ending, Ending::Tight | Ending::Signed)
}

fn joins_bracket(ending: Ending) -> bool
    ensures { result ≡ specs.joins_bracket ending }
{
    matches!(ending, Ending::Tight | Ending::Called)
}

/// Whether no blank comes before the sign.
fn joins_sign(ending: Ending, sign: Sign) -> bool
    ensures { result ≡ specs.joins_sign ending sign }
{
    match sign {
        Sign::Close | Sign::Comma | Sign::Typed => true,
        Sign::Open => joins_bracket(ending),
        _ => is_tight(ending),
    }
}

fn minus_ending(ending: Ending) -> Ending
    ensures { result ≡ specs.minus_ending ending }
{
    match ending {
        Ending::Operand => Ending::Loose,
        _ => Ending::Signed,
    }
}

/// What comes before the next token after the sign.
fn sign_ending(ending: Ending, sign: Sign) -> Ending
    ensures { result ≡ specs.sign_ending ending sign }
{
    match sign {
        Sign::Open | Sign::Typed => Ending::Tight,
        Sign::Cast | Sign::TryCast => Ending::Called,
        Sign::Minus => minus_ending(ending),
        Sign::Close
        | Sign::Null
        | Sign::True
        | Sign::False
        | Sign::End
        | Sign::IsNull
        | Sign::NotNull => Ending::Operand,
        _ => Ending::Loose,
    }
}

/// Whether no blank comes before the token.
pub(crate) fn joins(ending: Ending, token: Token<'_>) -> bool
    ensures { result ≡ specs.joins ending (token_in token.entry) }
{
    match token {
        Token::Sign(sign) => joins_sign(ending, sign),
        Token::Number(_) => joins_number(ending),
        Token::Name(_)
        | Token::Nullable(_)
        | Token::Function(_)
        | Token::Quoted(_)
        | Token::Text(_) => is_tight(ending),
    }
}

/// What comes before the next token after the token.
pub(crate) fn ending_after(ending: Ending, token: Token<'_>) -> Ending
    ensures { result ≡ specs.ending_behind ending (token_in token.entry) }
{
    match token {
        Token::Sign(sign) => sign_ending(ending, sign),
        Token::Function(_) => Ending::Tight,
        Token::Name(_)
        | Token::Nullable(_)
        | Token::Number(_)
        | Token::Quoted(_)
        | Token::Text(_) => Ending::Operand,
    }
}

/// Adds a text, each quote doubled.
fn push_doubled(out: &mut String, quote: char, text: &str) -> Result<(), AllocError>
    requires { quote < 128 }
    ensures { OnOk result
        (string_bytes out.new ≡ string_bytes out.old ++ doubled quote text.now) }
{
    let mut rest = text;
    while let Some((before, behind)) = rest.split_once(quote) {
        out.push_str(before)?;
        out.push(quote)?;
        out.push(quote)?;
        rest = behind;
    }
    out.push_str(rest)?;
    Ok(())
}

/// Adds a text in quotes.
fn push_in_quotes(out: &mut String, quote: char, text: &str) -> Result<(), AllocError>
    requires { quote < 128 }
    ensures { OnOk result
        (string_bytes out.new ≡ string_bytes out.old ++ in_quotes quote (doubled quote text.now)) }
{
    out.push(quote)?;
    push_doubled(out, quote, text)?;
    out.push(quote)
}

impl Writer {
    /// Nothing is written yet.
    pub fn new(alloc: Global) -> Writer
        ensures { Holds [] result }
    {
        Writer {
            text: String::new(alloc),
            ending: Ending::Tight,
        }
    }

    /// Adds a blank unless `joined`. The next token ends so.
    fn begin(&mut self, joined: bool, ending: Ending) -> Result<(), AllocError>
        ensures { OnOk result
            ((string_bytes self.new.text ≡ string_bytes self.old.text ++ blank_unless joined)
            × (self.new.ending ≡ ending)) }
    {
        self.ending = ending;
        if joined {
            return Ok(());
        }
        self.text.push_str(" ")
    }

    /// A keyword or a sign.
    pub fn push_sign(&mut self, sign: Sign) -> Result<(), AllocError>
        ensures { OnOk result (Adds (seen.sign sign) self.old self.new) }
    {
        let joined = joins_sign(self.ending, sign);
        let ending = sign_ending(self.ending, sign);
        self.begin(joined, ending)?;
        self.text.push_str(sign_text(sign))
    }

    /// A name without quotes.
    fn push_word(&mut self, word: &str) -> Result<(), AllocError>
        ensures { OnOk result (Adds (seen.name word.now) self.old self.new) }
    {
        self.begin(is_tight(self.ending), Ending::Operand)?;
        self.text.push_str(word)
    }

    /// A column's name, in quotes where needed.
    pub fn push_name(&mut self, name: &str) -> Result<(), AllocError>
        ensures { OnOk result (Adds (name_token name.now) self.old self.new) }
    {
        if is_bare(name.as_bytes()) {
            return self.push_word(name);
        }
        self.begin(is_tight(self.ending), Ending::Operand)?;
        push_in_quotes(&mut self.text, '"', name)
    }

    /// The name of a type, with the mark of a nullable one if the flag is true.
    pub fn push_type(&mut self, word: &str, nullable: bool) -> Result<(), AllocError>
        ensures { OnOk result (Adds (type_token word.now nullable) self.old self.new) }
    {
        self.push_word(word)?;
        if !nullable {
            return Ok(());
        }
        self.text.push_str("?")
    }

    /// The name of a function, and its bracket. A blank may come before it, none after it.
    pub fn push_function(&mut self, name: &str) -> Result<(), AllocError>
        ensures { OnOk result (Adds (seen.function name.now) self.old self.new) }
    {
        self.begin(is_tight(self.ending), Ending::Tight)?;
        self.text.push_str(name)?;
        self.text.push_str("(")
    }

    /// A number, as it is written.
    pub fn push_number(&mut self, digits: &str) -> Result<(), AllocError>
        ensures { OnOk result (Adds (seen.number digits.now) self.old self.new) }
    {
        self.begin(joins_number(self.ending), Ending::Operand)?;
        self.text.push_str(digits)
    }

    /// A text, in quotes.
    pub fn push_text(&mut self, text: &str) -> Result<(), AllocError>
        ensures { OnOk result (Adds (text_token text.now) self.old self.new) }
    {
        self.begin(is_tight(self.ending), Ending::Operand)?;
        push_in_quotes(&mut self.text, '\'', text)
    }

    /// The text so far.
    pub fn into_text(self) -> String
        ensures { (ts : List seen.Token) → Holds ts self → string_bytes result ≡ written ts }
    {
        self.text
    }
}
