//! Runs scripts over columns.
#![tactic(auto)]

use rowfn_scripts::{fault_line, interpret, status};
use std::env;
use std::io::{self, Read, Write};
use std::process::ExitCode;
use std::rt::Env;

/// The modes of the program.
enum CalledFor {
    Script,
    Version,
    Other,
}

/// The mode that the words after the program's name ask for; without words, a script.
fn called_mode(rt: &(impl Env + AllocGlobal)) -> io::Result<CalledFor> {
    let words: Vec<String> = match env::args(rt) {
        Ok(words) => words.collect(rt.alloc())?,
        // a word that is no text
        Err(error) if error.kind() == io::ErrorKind::InvalidData => return Ok(CalledFor::Other),
        Err(error) => return Err(error),
    };
    match words.as_slice() {
        [] | [_] => Ok(CalledFor::Script),
        [_, word] if word.as_str() == "--version" => Ok(CalledFor::Version),
        _ => Ok(CalledFor::Other),
    }
}

/// Runs the script of standard input: prints its output, then its fault line, if any, to standard
/// error.
fn run_script(rt: &(impl Input + Print + Eprint + AllocGlobal)) -> io::Result<u8> {
    let mut script = Vec::new(rt.alloc());
    rt.reader().read_to_end(&mut script)?;
    let outcome = interpret(rt.alloc(), &script);
    let mut out = io::writer(rt);
    out.write_all(&outcome.out)?;
    out.flush()?;
    if let Ok(line) = fault_line(rt.alloc(), &outcome.ending) {
        let _ = eprint!(rt; "{line}");
    }
    Ok(status(&outcome.ending))
}

/// Runs a script, or prints the version. With other words it reads no script, and reports that.
fn run(rt: &(impl Input + Print + Eprint + Env + AllocGlobal)) -> io::Result<u8> {
    match called_mode(rt)? {
        CalledFor::Script => run_script(rt),
        CalledFor::Version => {
            println!(rt; "rowfn 0.1.0")?;
            Ok(0)
        }
        CalledFor::Other => {
            let _ = eprintln!(rt;
                "rowfn: it takes no arguments but --version, and reads a script from standard input"
            );
            Ok(3)
        }
    }
}

/// Ends with the ending's status; with 3 if standard input or output fails, memory runs out while
/// reading, or there are other words.
fn main(rt: HostRuntime) -> ExitCode {
    match run(&rt) {
        Ok(status) => ExitCode::from(status),
        Err(_) => ExitCode::from(3),
    }
}
