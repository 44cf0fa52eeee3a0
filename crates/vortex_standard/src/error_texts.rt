//! The texts of errors, those of this list's functions included.
ghost use Rattle.std.specs.Prelude.{◌≡◌};
ghost use Rattle.std.specs.Option.{option_map};
ghost use Rattle.vortex_standard.specs.ErrorTexts.{number_text};

use std::fmt;
use vortex_columns::VortexError;
use vortex_sql_characters::faults::character_fault_text;
use vortex_sql_date_formats::faults::format_fault_text;
use vortex_sql_dates::made::no_date_text;
use vortex_sql_float_functions::functions::root_text;
use vortex_sql_rows::faults::RowFault;

/// The text of the fault with that number.
fn number_text(number: u64) -> Option<&'static str>
    ensures { option_map (λ t. t.now) result ≡ number_text number }
{
    match RowFault::of_number(number) {
        Some(fault) => Some(fault.text()),
        None => root_text(number)
            .or(no_date_text(number))
            .or(format_fault_text(number))
            .or(character_fault_text(number)),
    }
}

/// An error, displayed with the text of its fault: E10 alone has the number.
#[derive(Clone, Copy)]
pub struct ErrorText<'a> {
    pub error: &'a VortexError,
}

impl<'a> ErrorText<'a> {
    ghost use Rattle.std.specs.Prelude.{◌≡◌};
    ghost use Rattle.std.specs.Option.{option_map};
    ghost use Rattle.vortex_standard.specs.ErrorTexts.{fault_in, text_in};

    pub fn new(error: &'a VortexError) -> ErrorText<'a>
        ensures { result.error.now ≡ error.now }
    {
        ErrorText { error }
    }

    /// The fault of a row: that with the number that E10 has. Those of roots, of dates, of formats
    /// and of characters are none of them.
    pub fn fault(self) -> Option<RowFault>
        ensures { result ≡ fault_in self.entry.error.now }
    {
        match self.error {
            VortexError::Custom(code) => RowFault::of_number(*code),
            _ => None,
        }
    }

    /// The text of the fault whose number E10 has, of each function of the list.
    pub fn text(self) -> Option<&'static str>
        ensures { option_map (λ t. t.now) result ≡ text_in self.entry.error.now }
    {
        match self.error {
            VortexError::Custom(code) => number_text(*code),
            _ => None,
        }
    }
}

impl<'a> fmt::Display for ErrorText<'a> {
    ghost use Rattle.std.specs.Prelude.{Some};
    ghost use Rattle.vortex_standard.specs.ErrorTexts.{standard_error_text};

    ghost output = { λ t. Some (standard_error_text t.error.now) };

    fn fmt<W: fmt::Write>(&self, f: &mut fmt::Formatter<W>) -> fmt::Result {
        let error = self.error;
        match self.text() {
            Some(text) => f.write_str(text),
            None => write!(f, "{error}"),
        }
    }
}
