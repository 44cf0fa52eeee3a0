//! Rows of CSV that flow from a file or standard input through an expression to standard output.
#![tactic(auto)]

use rowfn_commands::run_command;
use std::process::ExitCode;
use std::rt::Env;
use std::{env, io};

/// The words that the program is called with.
fn words_of(rt: &(impl Env + AllocGlobal)) -> io::Result<Vec<String>> {
    Ok(env::args(rt)?.collect(rt.alloc())?)
}

/// Prints why the words cannot be read. Returns the status.
fn print_no_words(rt: &impl Eprint, error: &io::Error) -> u8 {
    if error.kind() == io::ErrorKind::InvalidData {
        let _ = eprintln!(rt; "rowfn_stream: an argument is not UTF-8");
        return 64;
    }
    let _ = eprintln!(rt; "rowfn_stream: reading the arguments: {error}");
    3
}

fn main(rt: HostRuntime) -> ExitCode {
    match words_of(&rt) {
        Ok(words) => ExitCode::from(run_command(&rt, &rt, &words, rt.reader())),
        Err(error) => ExitCode::from(print_no_words(&rt, &error)),
    }
}
