//! What is told of a refusal: numbers, and a message in a caller's bytes.
ghost use Rattle.std.specs.Prelude.{◌≡◌, [], MatchResult, string_bytes};
ghost use Rattle.yurkije_core.specs.Reports.{nowhere, of_column, of_row, scope_told};
ghost use Rattle.yurkije_core.specs.Reports.{text_told, program_told, arrow_told};
ghost use Rattle.yurkije_core.specs.Reports.{batch_told, borrowed_told, fault_told, run_told, Tells};
ghost use Rattle.yurkije_columns.specs.Messages.{memory_words};
ghost use Rattle.yurkije_core.specs.Messages.{HasMessage};

use crate::reading::ProgramError;
use crate::running::BatchRunError;
use crate::statuses::{program_status, run_status};
use vortex_arrow::ArrowError;
use vortex_columns::VortexResult;
use vortex_expressions::TextError;
use yurkije_columns::statuses::{column_status, scope_status};
use yurkije_columns::{
    BorrowedError, ColumnError, ColumnFault, FieldError, ScopeFault, put_message,
};

/// Where there is no answer, column, row or byte to tell.
pub const NONE: usize = usize::MAX;

/// Why a call is refused, as C has it: the caller's bytes for a message, and numbers that the call
/// sets.
#[repr(C)]
#[derive(Drop)]
pub struct Report<'a> {
    pub status: u32,
    pub answer: usize,
    pub column: usize,
    pub row: usize,
    pub byte: usize,
    pub line: usize,
    pub character: usize,
    pub message: &'a mut [u8],
    pub message_length: usize,
}

/// The numbers of a refusal.
#[derive(Clone, Copy, Debug, Drop, PartialEq, Eq)]
pub struct ErrorNumbers {
    pub status: u32,
    pub answer: usize,
    pub column: usize,
    pub row: usize,
    pub byte: usize,
    pub line: usize,
    pub character: usize,
}

impl ErrorNumbers {
    /// A status at no place.
    pub fn of(status: u32) -> ErrorNumbers
        ensures { result ≡ nowhere status }
    {
        ErrorNumbers {
            status,
            answer: NONE,
            column: NONE,
            row: NONE,
            byte: NONE,
            line: 0,
            character: 0,
        }
    }

    /// A status of a column.
    fn of_column(column: usize, status: u32) -> ErrorNumbers
        ensures { result ≡ of_column column status }
    {
        ErrorNumbers {
            column,
            ..ErrorNumbers::of(status)
        }
    }

    /// A status of a row of a column.
    fn of_row(column: usize, row: usize, status: u32) -> ErrorNumbers
        ensures { result ≡ of_row column row status }
    {
        ErrorNumbers {
            column,
            row,
            ..ErrorNumbers::of(status)
        }
    }

    /// What is told of fields that are no scope.
    pub fn of_scope(error: FieldError) -> ErrorNumbers
        ensures { result ≡ scope_told error }
    {
        let status = scope_status(error.fault);
        match error.fault {
            ScopeFault::OutOfMemory => ErrorNumbers::of(status),
            _ => ErrorNumbers::of_column(error.field, status),
        }
    }

    /// What is told of a text that is refused.
    fn of_text(error: &TextError, status: u32) -> ErrorNumbers
        ensures { result ≡ text_told error.now status }
    {
        if error.is_out_of_memory() {
            return ErrorNumbers::of(status);
        }
        ErrorNumbers {
            byte: error.byte,
            line: error.line,
            character: error.column,
            ..ErrorNumbers::of(status)
        }
    }

    /// What is told of a text that is no program.
    pub fn of_program(error: &ProgramError) -> ErrorNumbers
        ensures { result ≡ program_told error.now }
    {
        let status = program_status(error);
        match error {
            ProgramError::Text(error) => ErrorNumbers::of_text(error, status),
            ProgramError::NotUtf8 => ErrorNumbers::of(status),
        }
    }

    /// What is told of a column whose buffers are refused.
    fn of_arrow(column: usize, error: ArrowError, status: u32) -> ErrorNumbers
        ensures { result ≡ arrow_told column error status }
    {
        match error {
            ArrowError::UnexpectedNull { row } => ErrorNumbers::of_row(column, row, status),
            ArrowError::InvalidValue { row, fault: _ } => ErrorNumbers::of_row(column, row, status),
            ArrowError::NotUtf8 { row } => ErrorNumbers::of_row(column, row, status),
            ArrowError::OutOfMemory => ErrorNumbers::of(status),
            _ => ErrorNumbers::of_column(column, status),
        }
    }

    /// What is told of a batch of which a column is wrong.
    fn of_batch(error: ColumnError) -> ErrorNumbers
        ensures { result ≡ batch_told error }
    {
        let status = column_status(error.fault);
        match error.fault {
            ColumnFault::Unread(fault) => ErrorNumbers::of_arrow(error.column, fault, status),
            _ => ErrorNumbers::of_column(error.column, status),
        }
    }

    /// What is told of columns that are not taken.
    pub fn of_borrowed(error: BorrowedError) -> ErrorNumbers
        ensures { result ≡ borrowed_told error }
    {
        match error {
            BorrowedError::UnknownKind { column } => ErrorNumbers::of_column(column, 102),
            BorrowedError::OutOfMemory => ErrorNumbers::of(9),
        }
    }

    /// What is told of a program that returns nothing: the row and the answer that faults in it.
    fn of_fault(error: &vortex_program::RunError, status: u32) -> ErrorNumbers
        ensures { result ≡ fault_told error.now status }
    {
        match error {
            vortex_program::RunError::Fault {
                row,
                answer,
                error: _,
            } => ErrorNumbers {
                row: *row,
                answer: *answer,
                ..ErrorNumbers::of(status)
            },
            vortex_program::RunError::Refused(_) => ErrorNumbers::of(status),
            vortex_program::RunError::OutOfMemory => ErrorNumbers::of(status),
        }
    }

    /// What is told of a run that answers nothing.
    pub fn of_run(error: &BatchRunError) -> ErrorNumbers
        ensures { result ≡ run_told error.now }
    {
        match error {
            BatchRunError::Batch(error) => ErrorNumbers::of_batch(*error),
            BatchRunError::Program(fault) => ErrorNumbers::of_fault(fault, run_status(error)),
        }
    }
}

impl Report<'_> {
    /// Tells a refusal in those words, and answers its status.
    pub fn tell(&mut self, told: ErrorNumbers, words: &str) -> u32
        ensures status { result ≡ told.status }
        ensures told { Tells self.new told }
        ensures message { HasMessage words.now self.old self.new }
    {
        self.status = told.status;
        self.answer = told.answer;
        self.column = told.column;
        self.row = told.row;
        self.byte = told.byte;
        self.line = told.line;
        self.character = told.character;
        self.message_length = put_message(words, self.message);
        told.status
    }

    /// The same in words for which memory may have been refused: then that is told.
    pub fn report_text(&mut self, told: ErrorNumbers, words: VortexResult<String>) -> u32
        ensures status { result ≡ told.status }
        ensures told { Tells self.new told }
        ensures message { MatchResult words
            (λ text. HasMessage (string_bytes text) self.old self.new)
            (λ _. HasMessage memory_words self.old self.new) }
    {
        match words {
            Ok(words) => self.tell(told, words.as_str()),
            Err(_) => self.tell(told, "out of memory"),
        }
    }

    /// Tells that nothing is refused, in no words.
    pub fn clear(&mut self) -> u32
        ensures status { result ≡ 0 }
        ensures told { Tells self.new (nowhere 0) }
        ensures message { HasMessage [] self.old self.new }
    {
        self.tell(ErrorNumbers::of(0), "")
    }
}
