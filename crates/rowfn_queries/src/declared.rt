//! Columns as they are declared: `price decimal(12,2), stock i32?, "unit price" i64, 7 as "day" date`.
ghost use Rattle.std.specs.Prelude.{◌≡◌, ◌≢◌, ◌<◌, ◌≤◌, ◌⊎◌, map, drop, length, MatchResult};
ghost use Rattle.std.specs.Prelude.{string_bytes, IfOk, None};
ghost use Rattle.vortex_types.specs.LogicalTypes.{find_field};
ghost use Rattle.vortex_types.specs.TypeOf.{struct_fields};
ghost use Rattle.vortex_syntax.specs.Tokens.{token_in};
ghost use Rattle.vortex_errors.specs.Answers.{AnswersUnlessMemory};
ghost use Rattle.rowfn_queries.specs.declared.scope.ScopeReason.TheVariants.{OutOfMemory};
ghost use Rattle.rowfn_queries.specs.ColumnTypes.{type_in};
ghost use Rattle.rowfn_queries.specs.Columns.{scope_in};
ghost use Rattle.rowfn_queries.specs.Outcomes.{Gives, answers, refuses};
ghost use Rattle.rowfn_queries.specs.Scopes.{written_name, new_name, is_as, given_place};
ghost use Rattle.rowfn_queries.specs.Scopes.{named_behind, placed_behind};
ghost use Rattle.rowfn_queries.specs.Scopes.{columns_behind, more_behind, columns_of};
ghost use Rattle.rowfn_queries.specs.DeclaredColumns.{DeclaredColumns, declared_by, no_columns};
ghost use Rattle.rowfn_queries.specs.DeclaredColumns.{with_column, unplaced};
ghost use Rattle.rowfn_queries.specs.Scopes.{Declares, IsRefusedScope, reason_of};

use crate::column_type::ColumnType;
use crate::columns::Scope;
use crate::places::place_of_digits;
use crate::scope::{DeclarationError, ScopeReason};
use crate::types::{is_comma, token_text, type_at};
use std::alloc::Global;
use vortex_columns::{StructFields, VortexResult};
use vortex_expressions::quotes::unquoted;
use vortex_expressions::words::{found_at, line_and_column};
use vortex_logical::kind::Kind;
use vortex_syntax::{Sign, SyntaxError, Token, read_tokens};

/// Columns that are declared, in their order.
#[derive(Drop)]
pub struct Declared {
    pub columns: StructFields,
    /// The kinds of their values, by place.
    pub kinds: Vec<Kind>,
    /// The place of each in a row of the input, counted from 0, where it is declared.
    pub places: Vec<Option<usize>>,
}

impl Declared {
    /// No columns. Takes no memory.
    pub fn none(alloc: Global) -> Declared
        ensures { declared_by result ≡ no_columns }
    {
        Declared {
            columns: StructFields::new(alloc),
            kinds: Vec::new(alloc),
            places: Vec::new(alloc),
        }
    }

    /// The columns without their places.
    pub(crate) fn scope(&self) -> Scope<'_>
        ensures { scope_in result ≡ unplaced (declared_by self.now) }
    {
        Scope {
            fields: &self.columns,
            kinds: &self.kinds,
        }
    }

    /// One column more, whose name is new.
    fn push(&mut self, name: String, column: ColumnType, place: Option<usize>) -> VortexResult<()>
        requires { find_field (string_bytes name) (struct_fields self.old.columns) ≡ None }
        ensures { AnswersUnlessMemory result (λ _. declared_by self.new
            ≡ with_column (declared_by self.old) place (string_bytes name) (type_in column)) }
    {
        self.columns.push(name, column.dtype)?;
        self.kinds.push(column.kind)?;
        self.places.push(place)?;
        Ok(())
    }
}

/// Why columns are not read, and how many tokens stand before the one that stops.
#[derive(Clone, Copy)]
struct Stopped {
    before: usize,
    reason: ScopeReason,
}

fn is_as(token: Token<'_>) -> bool
    ensures { result ≡ is_as (token_in token.entry) }
{
    matches!(token, Token::Sign(Sign::As))
}

/// The name that a token says, without its quotes.
pub(crate) fn written_name(alloc: Global, token: Token<'_>) -> Result<String, ScopeReason>
    ensures { Gives string_bytes result (written_name (token_in token.entry)) }
{
    match token {
        Token::Name(name) => token_text(alloc, name),
        Token::Quoted(name) => {
            let name = unquoted(alloc, b'"', name)?;
            token_text(alloc, &name)
        }
        _ => Err(ScopeReason::NoName),
    }
}

/// The name that a token says, which no declared column has.
fn new_name(alloc: Global, columns: &StructFields, token: Token<'_>) -> Result<String, ScopeReason>
    ensures { Gives string_bytes result
        (new_name (struct_fields columns.now) (token_in token.entry)) }
{
    let name = written_name(alloc, token)?;
    match columns.find(name.as_str()) {
        Some(_) => Err(ScopeReason::NameTwice),
        None => Ok(name),
    }
}

/// Why a column is not read, after so many of its tokens.
fn stop_at(before: usize, reason: ScopeReason) -> Stopped
    ensures { result.reason ≡ reason }
{
    Stopped { before, reason }
}

/// The place that digits say, counted from 0.
fn given_place(digits: &[u8]) -> Result<usize, ScopeReason>
    ensures { Gives (λ p. p) result (given_place digits.now) }
{
    match place_of_digits(digits) {
        Some(place) => Ok(place),
        None => Err(ScopeReason::NoPlace),
    }
}

/// One column more, whose name is the first token, before its type; returns of how many tokens these
/// are.
fn read_named(
    alloc: Global,
    declared: &mut Declared,
    place: Option<usize>,
    tokens: &[Token<'_>],
) -> Result<usize, Stopped>
    requires { 0 < length tokens.now }
    ensures read { IfOk result (λ count. (2 ≤ count) × (count ≤ 7) × (count ≤ length tokens.now)) }
    ensures column { let columns = named_behind (declared_by declared.old) place
        (map token_in tokens.now) in
        MatchResult result
        (λ count. columns
        ≡ more_behind (declared_by declared.new) (map token_in (drop count tokens.now)))
        (λ e. e.reason ≢ OutOfMemory → columns ≡ refuses e.reason) }
{
    let name = match new_name(alloc, &declared.columns, tokens[0]) {
        Ok(name) => name,
        Err(reason) => return Err(stop_at(0, reason)),
    };
    let Some(token) = tokens.get(1) else {
        return Err(stop_at(1, ScopeReason::NoType));
    };
    let written = match type_at(alloc, *token, &tokens[2..]) {
        Ok(written) => written,
        Err(reason) => return Err(stop_at(1, reason)),
    };
    match declared.push(name, written.column, place) {
        Ok(()) => Ok(written.further + 2),
        Err(error) => Err(stop_at(0, ScopeReason::from(error))),
    }
}

/// One column more, whose place the digits say; `as`, its name and its type follow. Returns of how
/// many tokens these are.
fn read_placed(
    alloc: Global,
    declared: &mut Declared,
    digits: &[u8],
    tokens: &[Token<'_>],
) -> Result<usize, Stopped>
    ensures read { IfOk result (λ count. (3 ≤ count) × (count ≤ 8) × (count ≤ length tokens.now)) }
    ensures column { let columns = placed_behind (declared_by declared.old) (given_place digits.now)
        (map token_in tokens.now) in
        MatchResult result
        (λ count. columns
        ≡ more_behind (declared_by declared.new) (map token_in (drop count tokens.now)))
        (λ e. e.reason ≢ OutOfMemory → columns ≡ refuses e.reason) }
{
    let place = match given_place(digits) {
        Ok(place) => place,
        Err(reason) => return Err(stop_at(0, reason)),
    };
    let Some(word) = tokens.first() else {
        return Err(stop_at(1, ScopeReason::NoAs));
    };
    if !is_as(*word) {
        return Err(stop_at(1, ScopeReason::NoAs));
    }
    let rest = &tokens[1..];
    if rest.is_empty() {
        return Err(stop_at(2, ScopeReason::NoName));
    }
    match read_named(alloc, declared, Some(place), rest) {
        Ok(count) => Ok(count + 1),
        Err(stop) => Err(stop_at(stop.before.saturating_add(2), stop.reason)),
    }
}

/// One column more, of the first tokens; returns how many these are.
fn read_column(
    alloc: Global,
    declared: &mut Declared,
    tokens: &[Token<'_>],
) -> Result<usize, Stopped>
    requires { 0 < length tokens.now }
    ensures read { IfOk result (λ count. (2 ≤ count) × (count ≤ 9) × (count ≤ length tokens.now)) }
    ensures column { let columns = columns_behind (declared_by declared.old)
        (map token_in tokens.now) in
        MatchResult result
        (λ count. columns
        ≡ more_behind (declared_by declared.new) (map token_in (drop count tokens.now)))
        (λ e. e.reason ≢ OutOfMemory → columns ≡ refuses e.reason) }
{
    if let Token::Number(digits) = tokens[0] {
        let count = read_placed(alloc, declared, digits, &tokens[1..])?;
        return Ok(count + 1);
    }
    read_named(alloc, declared, None, tokens)
}

/// The columns that the tokens declare.
fn read_columns(alloc: Global, tokens: &[Token<'_>]) -> Result<Declared, Stopped>
    ensures { MatchResult result
        (λ declared. columns_of (map token_in tokens.now) ≡ answers (declared_by declared))
        (λ e. e.reason ≢ OutOfMemory
        → columns_of (map token_in tokens.now) ≡ refuses e.reason) }
{
    let mut declared = Declared::none(alloc);
    let mut rest = tokens;
    'columns: while !rest.is_empty() {
        let read = tokens.len().saturating_sub(rest.len());
        let count = match read_column(alloc, &mut declared, rest) {
            Ok(count) => count,
            Err(stop) => return Err(stop_at(read.saturating_add(stop.before), stop.reason)),
        };
        let behind = &rest[count..];
        let Some(comma) = behind.first() else {
            return Ok(declared);
        };
        if !is_comma(*comma) {
            return Err(stop_at(read.saturating_add(count), ScopeReason::NoComma));
        }
        rest = &behind[1..];
    }
    Err(stop_at(tokens.len(), ScopeReason::NoName))
}

/// That reason, at that byte of a text.
fn error_at(alloc: Global, text: &str, byte: usize, reason: ScopeReason) -> DeclarationError
    ensures { (result.reason ≡ reason) ⊎ (result.reason ≡ OutOfMemory) }
{
    let found = found_at(text, byte);
    let (line, column) = line_and_column(text, byte);
    match format!(in alloc; "{found}") {
        Ok(found) => DeclarationError {
            reason,
            line,
            column,
            found,
        },
        Err(_) => DeclarationError {
            reason: ScopeReason::OutOfMemory,
            line,
            column,
            found: String::new(alloc),
        },
    }
}

/// Why a text is no tokens.
fn unread(alloc: Global, text: &str, error: SyntaxError) -> DeclarationError
    ensures { (result.reason ≡ reason_of error) ⊎ (result.reason ≡ OutOfMemory) }
{
    match error.byte() {
        Some(byte) => error_at(alloc, text, byte, ScopeReason::NoToken),
        None => error_at(alloc, text, text.len(), ScopeReason::OutOfMemory),
    }
}

/// Reads a list of columns, each a name and a type with a comma before the next, as
/// `price decimal(12,2), stock i32?, "unit price" i64`; names are written as in expressions, and types
/// as there, or as `date`, `timestamp`, `f64`, `f32` or `decimal(12,2)`. A type has null where `?`
/// stands right behind its word: `f64?`, `decimal?(12,2)`. A place, counted from 1, and `as` may stand
/// before a name: `3 as category utf8`. Ok exactly where the text is such a list in which no name
/// stands twice, and then the columns in their order, each with its kind, and its place where it has
/// one; else why it is none, the first reason from left to right.
pub fn read_scope(alloc: Global, text: &str) -> Result<Declared, DeclarationError>
    // The text declares what is returned; what is reported of tokens is why they declare none.
    ensures found { MatchResult result (λ declared. Declares text.now (declared_by declared))
        (λ e. IsRefusedScope text.now e.reason) }
    // What the text declares is returned.
    ensures only { (columns : DeclaredColumns) → Declares text.now columns
        → MatchResult result (λ d. declared_by d ≡ columns) (λ e. e.reason ≡ OutOfMemory) }
{
    let read = match read_tokens(alloc, text.as_bytes()) {
        Ok(read) => read,
        Err(error) => return Err(unread(alloc, text, error)),
    };
    match read_columns(alloc, &read.tokens) {
        Ok(declared) => Ok(declared),
        Err(stop) => Err(error_at(alloc, text, read.byte(stop.before), stop.reason)),
    }
}
