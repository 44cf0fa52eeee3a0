//! Runs cases of logical types, and reports each whose answer differs from the expected one.
//!
//! The arguments name files. A line is a question, what it asks of, and the answer, apart by `|`;
//! one that begins with `#`, and a blank one, is a comment. What has no answer answers `none`.
//!
//! ```text
//! read|decimal(12,2)|12.5|1250
//! write|date|19782|2024-02-29
//! name|decimal(12,2)|decimal(12,2)
//! compare|decimal(12,2)|decimal(8,4)|decimal(14,4)
//! sum|date|i32|date
//! difference|date|date|i32
//! product|decimal(12,2)|decimal(5,4)|decimal(17,6)
//! order|decimal(12,2) 1250|decimal(5,1) 125|Equal
//! rescale|decimal(5,2) 1250|decimal(6,4)|125000
//! float|decimal(12,2)|1250|4623226492472524800
//! wide|f32|1069547520|4609434218613702656
//! ```
#![tactic(auto)]

mod questions;

use case_files::{Cases, Form, run_files};
use questions::answer;
use std::io;
use std::process::ExitCode;
use std::rt::Files;

/// Whether a line answers what it expects. If not, both are printed.
fn holds(rt: &(impl Print + AllocGlobal), line: &str) -> io::Result<bool> {
    let Some((question, rest)) = line.split_once('|') else {
        println!(rt; "{line}: no question")?;
        return Ok(false);
    };
    let (asked, expected) = match rest.rsplit_once('|') {
        Some(parts) => parts,
        None => (rest, ""),
    };
    let came = answer(rt.alloc(), question, asked)?;
    if came.as_str() == expected {
        return Ok(true);
    }
    println!(rt; "{line}: came {came}")?;
    Ok(false)
}

/// Asks the question of each line.
struct LogicalCases;

impl Cases for LogicalCases {
    fn holds(&self, rt: &(impl Print + Files + AllocGlobal), text: &str) -> io::Result<bool> {
        holds(rt, text)
    }
}

fn main(rt: HostRuntime) -> ExitCode {
    ExitCode::from(run_files(&rt, Form::Lines, &LogicalCases))
}
