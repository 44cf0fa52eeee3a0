//! Compiled patterns.
ghost use Rattle.std.specs.Prelude.{◌≡◌, None, IfOk, length, string_bytes};
ghost use Rattle.regex.specs.Strings.{regex_names, regex_pattern};
ghost use Rattle.vortex_errors.specs.Answers.{Answers, AnswersUnlessMemory};
ghost use Rattle.vortex_errors.specs.declared.error.VortexError.TheVariants.{Custom};
ghost use Rattle.vortex_sql_rows.specs.declared.faults.RowFault.TheVariants.{NoPattern};
ghost use Rattle.vortex_sql_rows.specs.Faults.{fault_number};
ghost use Rattle.vortex_sql_patterns.specs.Patterns.{groups_in, pattern_in, IsPatternOf};
ghost use Rattle.vortex_sql_patterns.specs.PatternFunctions.{first_of, in_any_case, read_by, IsReadBy};
ghost use Rattle.vortex_sql_patterns.specs.Lookups.{function_of};

use crate::functions::PatternFunction;
use crate::lookups::{GroupNumber, Lookup};
use regex::{Error, Regex};
use std::alloc::Global;
use vortex_columns::{VortexError, VortexResult};
use vortex_sql_rows::faults::RowFault;

/// Compiles a pattern; E10 where the text is no pattern. One that would take more than 10 MiB is
/// want of memory, since no definition says how large a pattern is compiled.
pub(crate) fn compile(alloc: Global, pattern: &str) -> VortexResult<Regex>
    ensures value { Answers result (λ r. IsPatternOf pattern.now (regex_pattern r))
        (λ e. (pattern_in pattern.now ≡ None) × (e ≡ Custom (fault_number NoPattern))) }
    ensures groups { IfOk result (λ r. length (regex_names r) ≡ groups_in pattern.now) }
{
    match Regex::new(alloc, pattern) {
        Ok(regex) => Ok(regex),
        Err(Error::Syntax(_)) => Err(VortexError::Custom(RowFault::NoPattern.number())),
        Err(_) => Err(VortexError::OutOfMemory),
    }
}

/// The pattern after `(?i)`.
pub(crate) fn in_any_case(alloc: Global, pattern: &str) -> VortexResult<String>
    ensures { AnswersUnlessMemory result (λ s. string_bytes s ≡ in_any_case pattern.now) }
{
    let mut text = String::from_str(alloc, "(?i)")?;
    text.push_str(pattern)?;
    Ok(text)
}

/// Compiles the pattern that the function reads; E10 where it reads none.
pub(crate) fn compile_by(
    alloc: Global,
    function: PatternFunction,
    pattern: &str,
) -> VortexResult<Regex>
    ensures value { Answers result (λ r. IsReadBy function pattern.now (regex_pattern r))
        (λ e. (pattern_in (read_by function pattern.now) ≡ None)
        × (e ≡ Custom (fault_number NoPattern))) }
    ensures groups { IfOk result (λ r. length (regex_names r)
        ≡ groups_in (read_by function pattern.now)) }
{
    match function {
        PatternFunction::AnyCase | PatternFunction::NotAnyCase => {
            let text = in_any_case(alloc, pattern)?;
            compile(alloc, text.as_str())
        }
        _ => compile(alloc, pattern),
    }
}

/// Compiles the pattern of rows that ask for this; E10 where there is none.
pub(crate) fn compile_for(alloc: Global, lookup: Lookup, pattern: &str) -> VortexResult<Regex>
    ensures value { Answers result
        (λ r. IsReadBy (function_of lookup) pattern.now (regex_pattern r))
        (λ e. (pattern_in (read_by (function_of lookup) pattern.now) ≡ None)
        × (e ≡ Custom (fault_number NoPattern))) }
    ensures groups { IfOk result (λ r. length (regex_names r)
        ≡ groups_in (read_by (function_of lookup) pattern.now)) }
{
    match lookup {
        Lookup::Function(function) => compile_by(alloc, function, pattern),
        Lookup::Group => compile(alloc, pattern),
    }
}

/// The first group of a pattern, or group 0, which is the match, where it has no other.
pub(crate) fn first_group(regex: &Regex) -> GroupNumber
    ensures { result.number ≡ first_of (length (regex_names regex.now)) }
{
    GroupNumber {
        number: if regex.captures_len() > 1 { 1 } else { 0 },
    }
}
