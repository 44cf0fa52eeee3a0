//! Tests calls under failing allocations.
//!
//! Each call is made on small inputs, and its result compared with the known one. A call may run
//! out of memory instead; then what it borrowed is unchanged. `tools/scarce_memory` runs the
//! program once for each allocation, which fails. The program ends with 0 if each call returns,
//! with 3 if memory ran out, and with 1 if a result is wrong.
#![tactic(auto)]

mod columns;
mod comparing;
mod expressions;
mod kernels;
mod patterns;
mod rewriting;
mod scripts;
mod seen;
mod surely;
mod trees;

use seen::Tally;
use std::alloc::Global;
use std::io;
use std::process::ExitCode;

/// Makes all calls; those that allocate nothing come last.
fn all(alloc: Global) -> Tally {
    let mut tally = Tally::new();
    columns::ask(alloc, &mut tally);
    kernels::ask(alloc, &mut tally);
    patterns::ask(alloc, &mut tally);
    trees::ask(alloc, &mut tally);
    rewriting::ask(alloc, &mut tally);
    expressions::ask(alloc, &mut tally);
    scripts::ask(alloc, &mut tally);
    surely::ask(alloc, &mut tally);
    tally
}

/// Reports: standard output is the whole text, nothing of it, or names a wrong result.
fn run(rt: &(impl Print + Eprint + AllocGlobal)) -> io::Result<u8> {
    let tally = all(rt.alloc());
    if let Some(call) = tally.wrong {
        println!(rt; "wrong: {call}")?;
        return Ok(1);
    }
    if let Some(call) = tally.out_of_memory {
        eprintln!(rt; "out of memory: {call}")?;
        return Ok(3);
    }
    println!(rt; "each call answers")?;
    Ok(0)
}

fn main(rt: HostRuntime) -> ExitCode {
    match run(&rt) {
        Ok(status) => ExitCode::from(status),
        Err(_) => ExitCode::from(3),
    }
}
