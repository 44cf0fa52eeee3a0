//! Runs cases of the stream: command lines of `rowfn_stream`, what they read, print and end with.
//!
//! ```text
//! == a fault ends the stream at its row
//! rowfn_stream --columns 'a i8, b i8' 'a + b as sum'
//! <
//! a,b
//! 1,2
//! 100,100
//! >
//! sum
//! 3
//! 2>
//! rowfn_stream: row 2: E7 Arithmetic.Add
//! ? 1
//! ```
//!
//! A case is a name, a line of words, as in a shell, and parts that a line begins each:
//!
//! - `<` standard input; `<!` the same, after which reading fails;
//! - `>` standard output; `>..` its beginning; `> 3` the same, which nobody reads after 3 bytes;
//! - `2>` standard error, in the same way;
//! - `= NAME` the file of that name, as it then is;
//! - `? 1` the status.
//!
//! A part that is left out is empty, and the status then 0. A line `* 100` is the next line
//! of the input a hundred times. Blank lines at the end of a case are ignored. `\n`, `\r`, `\t`,
//! `\\` and `\xff` are bytes; any other byte after `\` is itself, and a line that ends in `\` is
//! joined with the next.
//!
//! Each case is run with small and large batches, unless its words have `--batch` or
//! `--batch-bytes` or are wrong, and each time read by few and by many bytes at once. The files are
//! those of `data/`.
//!
//! Words that begin with `read_back`, `left_out` or `bad_rows`, in place of the program's name, ask
//! for streams that are made here, and say how many.
#![tactic(auto)]

mod case;
mod chance;
mod console;
mod drips;
mod escapes;
mod leaving_out;
mod many_rows;
mod reading_back;
mod runs;
mod words;

use case::{Case, read_case};
use case_files::{Cases, Form, run_files};
use leaving_out::left_out;
use many_rows::bad_rows;
use reading_back::read_back;
use runs::holds;
use std::io;
use std::process::ExitCode;
use std::rt::Files;

/// The number that a word is, or 0.
fn number_of(word: &String) -> u64 {
    word.as_str().parse::<u64>().unwrap_or(0)
}

/// Whether a command line, or streams that are made here, end as expected.
fn ends_so(rt: &(impl Print + Files + AllocGlobal), case: &Case<'_>) -> io::Result<bool> {
    match case.words.as_slice() {
        [name, count] if name.as_str() == "read_back" => read_back(rt, number_of(count)),
        [name, count] if name.as_str() == "left_out" => left_out(rt, number_of(count)),
        [name, count, each] if name.as_str() == "bad_rows" => {
            bad_rows(rt, number_of(count), number_of(each))
        }
        _ => holds(rt, case),
    }
}

/// Runs command lines.
struct Commands;

impl Cases for Commands {
    fn holds(&self, rt: &(impl Print + Files + AllocGlobal), text: &str) -> io::Result<bool> {
        match read_case(rt.alloc(), text)? {
            Some(case) => ends_so(rt, &case),
            None => {
                println!(rt; "== {text}\nis no case")?;
                Ok(false)
            }
        }
    }
}

fn main(rt: HostRuntime) -> ExitCode {
    ExitCode::from(run_files(&rt, Form::Blocks, &Commands))
}
