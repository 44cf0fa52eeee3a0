//! An example to copy: the filter of a scan.
//!
//! The filter is parsed once, over the names and types of the columns, and run over one batch after
//! another. For each batch the program prints the rows in which it is true.
#![tactic(auto)]

mod table;

use std::alloc::Global;
use std::io;
use std::process::ExitCode;
use table::{Batch, batches, scope};
use vortex_program::{Program, RunError};
use vortex_row_fn::*;

/// The goods that are cheap, and whose stock is known.
const FILTER: &str = "stock + ordered is not null and price < 10";

/// The rows in which a column of truth values is true; none for any other column.
fn true_rows(alloc: Global, answer: &Column) -> VortexResult<Vec<u32>> {
    if !answer.dtype().is_boolean() {
        return Ok(Vec::new(alloc));
    }
    answer.true_rows(alloc)
}

/// The rows in which the filter is true, each after a space; or why there are none.
fn picked(alloc: Global, filter: &Program, batch: &Batch) -> VortexResult<String> {
    let answers = match filter.run(alloc, &batch.columns, batch.row_count) {
        Ok(answers) => answers,
        Err(RunError::Fault { row, error, .. }) => {
            return Ok(format!(in alloc; " row {row}: {error}")?);
        }
        Err(RunError::Refused(error)) => return Err(error),
        Err(RunError::OutOfMemory) => return Err(VortexError::OutOfMemory),
    };
    let mut text = String::new(alloc);
    for answer in answers.iter() {
        for row in true_rows(alloc, answer)? {
            text.push_str(format!(in alloc; " {row}")?.as_str())?;
        }
    }
    Ok(text)
}

/// The output: the filter after rules, and its rows, batch after batch.
fn report(alloc: Global, filter: &Program) -> VortexResult<String> {
    let mut report = filter.text(alloc, 0, true)?.unwrap_or(String::new(alloc));
    report.push_str("\n")?;
    for (number, batch) in batches(alloc)?.iter().enumerate() {
        let rows = picked(alloc, filter, batch)?;
        let rows = rows.as_str();
        report.push_str(format!(in alloc; "batch {number}:{rows}\n")?.as_str())?;
    }
    Ok(report)
}

/// Prints the report, or why there is none.
fn run(rt: &(impl Print + AllocGlobal)) -> io::Result<u8> {
    let alloc = rt.alloc();
    let Ok(scope) = scope(alloc) else {
        println!(rt; "out of memory")?;
        return Ok(1);
    };
    let filter = match Program::read(alloc, scope, Vec::new(alloc), FILTER) {
        Ok(filter) => filter,
        Err(error) => {
            println!(rt; "{error}")?;
            return Ok(1);
        }
    };
    match report(alloc, &filter) {
        Ok(report) => {
            print!(rt; "{report}")?;
            Ok(0)
        }
        Err(error) => {
            println!(rt; "{error}")?;
            Ok(1)
        }
    }
}

fn main(rt: HostRuntime) -> ExitCode {
    match run(&rt) {
        Ok(status) => ExitCode::from(status),
        Err(_) => ExitCode::from(3),
    }
}
