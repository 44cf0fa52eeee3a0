//! A text in which what matches a pattern is replaced: `regexp_replace`.
ghost use Rattle.std.specs.Prelude.{◌≡◌, ℕ, List, Some, None, false, IfOk, IsTrue, IsSome};
ghost use Rattle.std.specs.Prelude.{length, map, string_bytes};
ghost use Rattle.regex.specs.Strings.{matcher_pattern, regex_pattern};
ghost use Rattle.vortex_errors.specs.Answers.{Answers};
ghost use Rattle.vortex_errors.specs.Arities.{fits};
ghost use Rattle.vortex_types.specs.TypeOf.{type_of};
ghost use Rattle.vortex_interface.specs.Functions.{IsTypeMismatch};
ghost use Rattle.vortex_interface.specs.Outcomes.{types_in, HasCallRows, IsCallFault};
ghost use Rattle.vortex_sql_rows.specs.Row.{row_type, row_means};
ghost use Rattle.vortex_errors.specs.declared.error.VortexError.TheVariants.{Custom};
ghost use Rattle.vortex_sql_rows.specs.declared.faults.RowFault.TheVariants.{NoPattern, OtherValues};
ghost use Rattle.vortex_sql_rows.specs.AnsweredRows.{MakesRow};
ghost use Rattle.vortex_sql_rows.specs.Faults.{fault_number, faults_by};
ghost use Rattle.vortex_sql_texts.specs.MadeTexts.{text_or_fault};
ghost use Rattle.vortex_sql_patterns.specs.Patterns.{pattern_in, IsPatternOf};
ghost use Rattle.vortex_sql_patterns.specs.RegexpReplace.{asked_by, in_case, regexp_replace_lawful};
ghost use Rattle.vortex_sql_patterns.specs.RegexpReplace.{regexp_replace_row, replaced_by, with_flags};
ghost use Rattle.vortex_sql_patterns.specs.RegexpReplace.{replaced_for};
ghost use Rattle.vortex_sql_patterns.specs.Replacing.{found_at, replaced};

use crate::compiled::{compile, in_any_case};
use crate::replaced_rows::{replaced_texts, text_cells};
use crate::replacing::{replaced_all, replaced_first};
use crate::requests::{Request, request_in};
use regex::{Matcher, Regex};
use std::alloc::{AllocError, Global};
use vortex_columns::{Arity, Cell, Column, DType, ExecutionCtx, PType, VortexError, VortexResult};
use vortex_interface::ExecutionArgs;
use vortex_sql_calls::call::{input_types, typed_inputs};
use vortex_sql_calls::column::column_of;
use vortex_sql_calls::maker::text_dtype;
use vortex_sql_rows::faults::RowFault;
use vortex_sql_rows::row::{Signature, TextFn};
use vortex_sql_rows::types::{Gives, Kind, Nulls, Takes, Types};

/// `regexp_replace(a, pattern, other)` and `regexp_replace(a, pattern, other, flags)`: the text `a`
/// with the other one in place of the first part that matches. With the flag `g` each such part is
/// replaced, with `i` case does not count, and with `c` it does. In the other text `\1` to `\9` are
/// the groups, `\&` is the part, and `\\` is a backslash. Another flag is a fault.
pub struct RegexpReplace;

/// Whether each part is replaced, and whether case does not count; none for another flag.
pub(crate) fn with_flags(flags: &str) -> Option<(bool, bool)>
    ensures { result ≡ with_flags (false, false) flags.now }
{
    let mut all = false;
    let mut any_case = false;
    let mut rest = flags.as_bytes();
    'flags: while let Some((flag, after)) = rest.split_first() {
        if *flag == b'g' {
            all = true;
        } else if *flag == b'i' {
            any_case = true;
        } else if *flag == b'c' {
            any_case = false;
        } else {
            return None;
        }
        rest = after;
    }
    Some((all, any_case))
}

/// The text, or the fault where it is too long.
fn text_or_fault(text: String) -> VortexResult<Option<String>>
    ensures { MakesRow (text_or_fault (string_bytes text)) result }
{
    let _utf8 = text.as_str();
    if text.len() <= 4294967295 {
        Ok(Some(text))
    } else {
        Err(VortexError::Custom(RowFault::TextTooLong.number()))
    }
}

/// The fault of values of other types.
fn no_text() -> VortexResult<Option<String>>
    ensures { MakesRow (faults_by OtherValues) result }
{
    Err(VortexError::Custom(RowFault::OtherValues.number()))
}

/// The fault of a text that is no pattern, and of another flag.
fn no_pattern() -> VortexResult<Option<String>>
    ensures { MakesRow (faults_by NoPattern) result }
{
    Err(VortexError::Custom(RowFault::NoPattern.number()))
}

/// Compiles a pattern; E10 where the text is no pattern.
pub(crate) fn compile_in(alloc: Global, any_case: bool, pattern: &str) -> VortexResult<Regex>
    ensures { Answers result (λ r. IsPatternOf (in_case any_case pattern.now) (regex_pattern r))
        (λ e. (pattern_in (in_case any_case pattern.now) ≡ None)
        × (e ≡ Custom (fault_number NoPattern))) }
{
    if any_case {
        let text = in_any_case(alloc, pattern)?;
        compile(alloc, text.as_str())
    } else {
        compile(alloc, pattern)
    }
}

/// The text with the other one in place of each part, or of the first.
fn replaced(
    alloc: Global,
    all: bool,
    matcher: &mut Matcher<'_>,
    text: &str,
    other: &str,
) -> Result<String, AllocError>
    ensures same { matcher_pattern matcher.new ≡ matcher_pattern matcher.old }
    ensures value { IfOk result (λ made. string_bytes made ≡ replaced all text.now other.now
        (found_at (matcher_pattern matcher.old) text.now)) }
{
    if all {
        replaced_all(alloc, matcher, text, other)
    } else {
        replaced_first(alloc, matcher, text, other)
    }
}

/// The text of a row by the pattern that was compiled.
pub(crate) fn replaced_by(
    alloc: Global,
    all: bool,
    matcher: &mut Matcher<'_>,
    text: &str,
    other: &str,
) -> VortexResult<Option<String>>
    ensures same { matcher_pattern matcher.new ≡ matcher_pattern matcher.old }
    ensures value { (ps : List ℕ) → IsPatternOf ps (matcher_pattern matcher.old)
        → MakesRow (replaced_by all text.now other.now (pattern_in ps)) result }
{
    let made = replaced(alloc, all, matcher, text, other)?;
    text_or_fault(made)
}

/// The text of a row that asks for this.
fn replaced_for(alloc: Global, request: &Request<'_>) -> VortexResult<Option<String>>
    ensures { MakesRow (replaced_for (asked_by request.now)) result }
{
    let Some((all, any_case)) = with_flags(request.flags) else {
        return no_pattern();
    };
    let regex = compile_in(alloc, any_case, request.pattern)?;
    let mut matcher = regex.matcher(alloc)?;
    replaced_by(alloc, all, &mut matcher, request.text, request.other)
}

impl TextFn for RegexpReplace {
    ghost about = { λ f. regexp_replace_row };

    fn signature(&self) -> Signature {
        Signature {
            id: "sql.regexp_replace",
            arity: Arity::Variadic {
                min: 3,
                max: Some(4),
            },
            types: Types {
                takes: Takes::Alike(Kind::Text),
                nulls: Nulls::WhereAny,
                gives: Gives::Text,
            },
            is_strict: true,
            is_infallible: false,
        }
    }

    fn make(
        &self,
        alloc: Global,
        _ptype: PType,
        cells: &[Cell<'_>],
    ) -> VortexResult<Option<String>> {
        match request_in(cells) {
            Some(request) => replaced_for(alloc, &request),
            None => no_text(),
        }
    }

    ghost lawful = { λ f. regexp_replace_lawful };
}

impl RegexpReplace {
    /// The type that a call returns; E3 exactly where the types are not taken.
    pub fn return_dtype(&self, alloc: Global, types: &[DType]) -> VortexResult<DType>
        requires { IsTrue (fits regexp_replace_row.arity (length types.now)) }
        ensures { Answers result
            (λ t. row_type regexp_replace_row (map type_of types.now) ≡ Some (type_of t))
            (λ e. (row_type regexp_replace_row (map type_of types.now) ≡ None) × IsTypeMismatch e) }
    {
        text_dtype(alloc, self, types)
    }

    /// The column of a call. A pattern is compiled once while it and the flags stay the same from
    /// row to row, so a constant one once a call.
    pub fn execute<A: ExecutionArgs>(
        &self,
        args: &A,
        ctx: &mut ExecutionCtx,
    ) -> VortexResult<Column>
        requires arity { IsTrue (fits regexp_replace_row.arity (length (A.inputs args.now))) }
        requires accepted { IsSome (row_type regexp_replace_row (types_in (A.inputs args.now))) }
        ensures { Answers result
            (HasCallRows (row_type regexp_replace_row) (row_means regexp_replace_row)
            (A.inputs args.now) (A.rows args.now))
            (IsCallFault (row_means regexp_replace_row) (A.inputs args.now) (A.rows args.now)) }
    {
        let alloc = ctx.alloc();
        typed_inputs(args)?;
        let types = input_types(alloc, args)?;
        let dtype = self.return_dtype(alloc, &types)?;
        let made = replaced_texts(alloc, args)?;
        let cells = text_cells(alloc, &made)?;
        column_of(alloc, &dtype, &cells)
    }
}
