//! What is asked of each row: a program, and where its columns are.
ghost use Rattle.vortex_program.specs.Programs.{AreOptimized};

use vortex_program::Program;

/// A program, and where the columns of its scope are in a row of the input, counted from 0: nothing,
/// as past the last place, for a column that is found by its name. The trees that run are what rules
/// make of those that were written, as `Program::of` makes them.
#[derive(Clone, Copy)]
pub struct Request<'a> {
    pub program: &'a Program,
    pub places: &'a [Option<usize>],
    pub ghost optimized: { ∥ AreOptimized program.now.written.items program.now.optimized.items ∥₁ },
}
