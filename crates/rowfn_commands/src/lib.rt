//! What a command line of `rowfn_stream` does, over any files, standard input, output and error.
#![tactic(auto)]

mod choices;
mod command;
mod failure;
mod first_row;
mod indexing;
mod planned;
mod planning;
mod progress;
mod queries;
mod standard_error;
mod streams;

pub use command::run_command;
