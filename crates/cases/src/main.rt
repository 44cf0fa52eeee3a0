//! Runs cases, and reports each whose output differs from the expected one.
//!
//! A case is a script of `rowfn` and its output, or an expression and its results. The
//! arguments name files of cases:
//!
//! ```text
//! Lines before the first case are comments.
//!
//! == what the case shows
//! rows 2
//! col a i32? 1 null
//! get a
//! run
//! get b
//! --
//! i32?: 1 null
//! error: ScopeMismatch
//!
//! == what another case shows
//! rows 2
//! col a i32? 1 null
//! answers
//! a * 2 as twice, b
//! --
//! line 1, column 17: no column "b"; is "a" meant?
//! ```
//!
//! A line that begins with `== ` begins a case, and a line `--` ends its script. The lines after it
//! are what the script prints, and last the line that it ends with on standard error, if there is
//! one. Blank lines at the end of a case are ignored.
//!
//! Before a line `logical` each line is a column: its name, its kind, and its cells as in files; the
//! expression after it prints the kind of its values and their cells.
//!
//! An expression follows a line that asks for its `tree`, for the `places` of its steps in the
//! text, for the text that its tree is `written` as, for the columns of its `answers`, for what
//! statistics say of these in `groups` of rows, or for what they have `left` of these in each
//! group. The lines before it are `rows` and `col` lines.
#![tactic(auto)]

mod expressions;
mod groups;
mod logical;

use case_files::{Cases, Form, differs, run_files};
use expressions::{expression_case, expression_text};
use logical::logical_text;
use rowfn_scripts::{End, fault_line, interpret};
use std::alloc::Global;
use std::io;
use std::process::ExitCode;
use std::rt::Files;
use vortex_columns::VortexResult;

/// A script, and its output.
#[derive(Clone, Copy)]
struct Case<'a> {
    name: &'a str,
    script: &'a str,
    expected: &'a str,
}

/// The case in the text after a `== `; none if no line ends its script.
fn case_of(text: &str) -> Option<Case<'_>> {
    let (name, body) = text.split_once('\n')?;
    let (script, expected) = body.split_once("\n--\n")?;
    Some(Case {
        name,
        script,
        expected: expected.trim_end_matches('\n'),
    })
}

/// The result of an expression, or the error of its columns or of its rows; none of a script.
fn result_of(alloc: Global, script: &str) -> Option<VortexResult<String>> {
    if let Some((columns, text)) = script.split_once("\nlogical\n") {
        return Some(logical_text(alloc, columns, text));
    }
    let case = expression_case(script)?;
    Some(expression_text(alloc, case))
}

/// The output of a case, and how it ends.
fn outcome_of(alloc: Global, script: &str) -> (Vec<u8>, End) {
    let Some(result) = result_of(alloc, script) else {
        let outcome = interpret(alloc, script.as_bytes());
        return (outcome.out, outcome.ending);
    };
    match result {
        Ok(text) => (text.into_bytes(), End::Done),
        Err(error) => (Vec::new(alloc), End::Refused(error)),
    }
}

/// The output of a case, then the line that it ends with.
fn printed(alloc: Global, script: &str) -> io::Result<Vec<u8>> {
    let (mut out, ending) = outcome_of(alloc, script);
    let Ok(line) = fault_line(alloc, &ending) else {
        return Err(io::Error::from(io::ErrorKind::OutOfMemory));
    };
    out.extend_from_slice(line.as_bytes())?;
    Ok(out)
}

/// Whether a case prints the expected output. If not, both are printed.
fn holds(rt: &(impl Print + AllocGlobal), case: Case<'_>) -> io::Result<bool> {
    let out = printed(rt.alloc(), case.script)?;
    let Ok(got) = std::str::from_utf8(&out) else {
        return Err(io::Error::from(io::ErrorKind::InvalidData));
    };
    let got = got.trim_end_matches('\n');
    if got == case.expected {
        return Ok(true);
    }
    differs(rt, case.name, case.expected, got)
}

/// Runs scripts and expressions.
struct Scripts;

impl Cases for Scripts {
    fn holds(&self, rt: &(impl Print + Files + AllocGlobal), text: &str) -> io::Result<bool> {
        match case_of(text) {
            Some(case) => holds(rt, case),
            None => {
                println!(rt; "== {text}\nhas no line -- after its script")?;
                Ok(false)
            }
        }
    }
}

fn main(rt: HostRuntime) -> ExitCode {
    ExitCode::from(run_files(&rt, Form::Blocks, &Scripts))
}
