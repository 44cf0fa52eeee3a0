//! What programs of cases share: they run the cases of the files that their arguments name, and
//! print each that differs, and one line in all.
//!
//! A file has its cases in blocks or in lines. A line that begins with `== ` begins a block, with
//! the name of its case, and lines before the first are a comment. A file of lines has a case in each;
//! one that begins with `#`, and a blank one, is a comment.
#![tactic(auto)]

ghost use Rattle.std.specs.Prelude.{◌≡◌, IfOk, false};

use std::rt::{Env, Files};
use std::{env, fs, io};

/// How the cases of a file are told apart.
#[derive(Clone, Copy)]
pub enum Form {
    /// In blocks, each without the `== ` before it.
    Blocks,
    /// In lines.
    Lines,
}

/// What a program does with a case.
pub trait Cases {
    /// Whether a case is as expected. If not, prints what came and what was expected; also of a
    /// text that is no case.
    fn holds(&self, rt: &(impl Print + Files + AllocGlobal), text: &str) -> io::Result<bool>;
}

/// How many cases ran, and how many differed.
#[derive(Clone, Copy)]
struct Counts {
    cases: u64,
    differ: u64,
}

/// Prints a case that differs, by its name, and returns that it does.
pub fn differs(rt: &impl Print, name: &str, expected: &str, got: &str) -> io::Result<bool>
    ensures { IfOk result (λ holds. holds ≡ false) }
{
    println!(rt; "== {name}\nexpected:\n{expected}\ngot:\n{got}")?;
    Ok(false)
}

/// Runs a case.
fn run_case<C: Cases>(
    rt: &(impl Print + Files + AllocGlobal),
    cases: &C,
    text: &str,
    counts: &mut Counts,
) -> io::Result<()> {
    counts.cases = counts.cases.saturating_add(1);
    if !cases.holds(rt, text)? {
        counts.differ = counts.differ.saturating_add(1);
    }
    Ok(())
}

/// Runs the cases of a text in blocks.
fn run_blocks<C: Cases>(
    rt: &(impl Print + Files + AllocGlobal),
    cases: &C,
    text: &str,
    counts: &mut Counts,
) -> io::Result<()> {
    for block in text.split("\n== ").skip(1) {
        run_case(rt, cases, block, counts)?;
    }
    Ok(())
}

/// Runs the cases of a text in lines.
fn run_lines<C: Cases>(
    rt: &(impl Print + Files + AllocGlobal),
    cases: &C,
    text: &str,
    counts: &mut Counts,
) -> io::Result<()> {
    for line in text.split('\n') {
        if line.is_empty() || line.starts_with('#') {
            continue;
        }
        run_case(rt, cases, line, counts)?;
    }
    Ok(())
}

/// Runs the cases of the files that the arguments name. Returns how many differ.
fn run_all<C: Cases>(
    rt: &(impl Print + Env + Files + AllocGlobal),
    form: Form,
    cases: &C,
) -> io::Result<u64> {
    let words: Vec<String> = env::args(rt)?.collect(rt.alloc())?;
    let mut counts = Counts {
        cases: 0,
        differ: 0,
    };
    for name in words.iter().skip(1) {
        let text = fs::read_to_string(rt, name.as_str())?;
        match form {
            Form::Blocks => run_blocks(rt, cases, text.as_str(), &mut counts)?,
            Form::Lines => run_lines(rt, cases, text.as_str(), &mut counts)?,
        }
    }
    let Counts { cases, differ } = counts;
    if differ == 0 {
        println!(rt; "{cases} cases print what is expected")?;
    } else {
        println!(rt; "{differ} of {cases} cases print something else")?;
    }
    Ok(differ)
}

/// Runs the cases of the files that the arguments name. Returns the status: 0 if each is as
/// expected, 1 if one is not, and 3 if a file cannot be read or memory runs out.
pub fn run_files<C: Cases>(
    rt: &(impl Print + Eprint + Env + Files + AllocGlobal),
    form: Form,
    cases: &C,
) -> u8 {
    match run_all(rt, form, cases) {
        Ok(0) => 0,
        Ok(_) => 1,
        Err(error) => {
            let _ = eprintln!(rt; "cases: {error}");
            3
        }
    }
}
