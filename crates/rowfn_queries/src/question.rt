//! A text that is asked of rows.
ghost use Rattle.vortex_program.specs.Programs.{AreOptimized};

use vortex_program::Program;

/// A text that is asked of rows: its program, and where the program's columns stand in a row.
#[derive(Drop)]
pub struct Question {
    pub program: Program,
    /// The place of each column, counted from 0; none where the header says it.
    pub places: Vec<Option<usize>>,
    pub ghost optimized: { ∥ AreOptimized program.written.items program.optimized.items ∥₁ },
}
