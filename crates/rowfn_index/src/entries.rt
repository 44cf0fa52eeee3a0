//! The lines of an index, as they are written.
ghost use Rattle.std.specs.Prelude.{◌∷◌, [], OnOk, decimal};
ghost use Rattle.rowfn_index.specs.IndexTexts.{HasFields, IsEnded, text_entry};

use crate::head::index_format;
use itoa::Buffer;
use rowfn_csv::quote_from;
use std::alloc::{AllocError, Global};
use vortex_columns::ScalarValue;

/// Lines of CSV, field by field.
#[derive(Drop)]
pub(crate) struct Entries {
    pub(crate) bytes: Vec<u8>,
    spare: Vec<u8>,
    /// Whether the line has a field.
    is_begun: bool,
}

impl Entries {
    ghost use Rattle.std.specs.Prelude.{◌≡◌, false};

    /// No lines; takes no memory.
    pub(crate) fn new(alloc: Global) -> Entries
        ensures bytes { result.bytes.items ≡ [] }
        ensures begun { result.is_begun ≡ false }
    {
        Entries {
            bytes: Vec::new(alloc),
            spare: Vec::new(alloc),
            is_begun: false,
        }
    }

    /// Begins the next field of the line: null, unless something is added.
    pub(crate) fn push_null(&mut self) -> Result<(), AllocError>
        ensures { OnOk result (HasFields self.old self.new ([] ∷ [])) }
    {
        if self.is_begun {
            self.bytes.push(b',')?;
        }
        self.is_begun = true;
        Ok(())
    }

    /// Adds a text to the line, in quotes where it needs them.
    pub(crate) fn push_text(&mut self, text: &str) -> Result<(), AllocError>
        ensures { OnOk result (HasFields self.old self.new (text_entry text.now ∷ [])) }
    {
        self.push_null()?;
        let start = self.bytes.len();
        self.bytes.extend_from_slice(text.as_bytes())?;
        quote_from(&mut self.bytes, start, &index_format(), &mut self.spare)
    }

    /// Adds a number to the line.
    pub(crate) fn push_number(&mut self, number: u64) -> Result<(), AllocError>
        ensures { OnOk result (HasFields self.old self.new (decimal number ∷ [])) }
    {
        self.push_null()?;
        let mut buffer = Buffer::new();
        self.bytes
            .extend_from_slice(buffer.format(number).as_bytes())
    }

    /// Adds a number that may be negative to the line.
    fn push_signed(&mut self, number: i128) -> Result<(), AllocError> {
        self.push_null()?;
        let mut buffer = Buffer::new();
        self.bytes
            .extend_from_slice(buffer.format(number).as_bytes())
    }

    /// Adds a truth value to the line.
    pub(crate) fn push_truth(&mut self, truth: bool) -> Result<(), AllocError> {
        self.push_text(if truth { "true" } else { "false" })
    }

    /// Adds an end of a column to the line; null where there is none.
    pub(crate) fn push_end(&mut self, end: &Option<ScalarValue>) -> Result<(), AllocError> {
        match end {
            Some(ScalarValue::Bool(truth)) => self.push_truth(*truth),
            Some(ScalarValue::Int(number)) => self.push_signed(*number),
            Some(ScalarValue::Utf8(text)) => self.push_text(text.as_str()),
            _ => self.push_null(),
        }
    }

    /// Ends the line.
    pub(crate) fn end_line(&mut self) -> Result<(), AllocError>
        ensures { OnOk result (IsEnded self.old self.new) }
    {
        self.is_begun = false;
        self.bytes.push(b'\n')?;
        Ok(())
    }
}
