//! The texts of columns and of literals.
ghost use Rattle.std.specs.Prelude.{◌≡◌, string_bytes, true};
ghost use Rattle.vortex_types.specs.Texts.{Appends};
ghost use Rattle.vortex_columns.specs.Words.{AnswersUnlessMemory, type_of};
ghost use Rattle.vortex_columns.specs.Printing.{column_text, literal_text, number_suffix};

use crate::cell::Cell;
use crate::column::Column;
use crate::scalar::Scalar;
use crate::value_text::{Shape, write_value};
use std::alloc::Global;
use std::fmt;
use vortex_types::{DType, ScalarValue, VortexResult};

impl Column {
    /// The type, a colon, and the value of each row after a space, as `i32?: 1 null -3`; of no rows
    /// the type and the colon. Fails only where memory runs out.
    ///
    /// The type is written as by `DType::write_text`. A null is `null`, a truth value `true` or
    /// `false`, a number is without its type, a text in quotes without escapes, and bytes are
    /// `0x` and two hexadecimal digits each. A list is `[1, null]`, a record `{a: 1, b: "x"}`, and
    /// a map the list of its entries, as `[{key: "x", value: 1}]`.
    #[tactic(auto, using(crate::proofs::PrintedColumns::one_more_cell))]
    pub fn text(&self, alloc: Global) -> VortexResult<String>
        ensures { AnswersUnlessMemory result (λ text. string_bytes text ≡ column_text self.now) }
    {
        let mut text = String::new(alloc);
        self.dtype().write_text(&mut text)?;
        text.push_str(":")?;
        for i in 0..self.len() {
            text.push_str(" ")?;
            write_value(&mut text, false, Shape::Of(self.dtype()), &self.cell(i))?;
        }
        Ok(text)
    }
}

impl Scalar {
    /// Writes the value as `Column::text` does, but each whole number with its type, as `1i32`.
    /// Fails only where memory runs out.
    pub fn write_literal(&self, out: &mut String) -> VortexResult<()>
        ensures { AnswersUnlessMemory result
            (λ _. Appends out.old (literal_text self.now.dtype self.now.value) out.new) }
    {
        write_value(out, true, Shape::Of(self.dtype()), &self.cell())
    }
}

impl Scalar {
    /// The text of `write_literal`.
    fn literal(&self, alloc: Global) -> VortexResult<String>
        ensures { AnswersUnlessMemory result
            (λ text. string_bytes text ≡ literal_text self.now.dtype self.now.value) }
    {
        let mut text = String::new(alloc);
        self.write_literal(&mut text)?;
        Ok(text)
    }
}

/// The bytes of `write_literal`; running out of memory is an error.
impl fmt::Debug for Scalar {
    ghost use Rattle.std.specs.Prelude.{Some};
    ghost use Rattle.vortex_columns.specs.Printing.{literal_text};

    ghost debug_output = { λ scalar. Some (literal_text scalar.dtype scalar.value) };

    fn fmt<W: fmt::Write>(&self, f: &mut fmt::Formatter<W>) -> fmt::Result {
        // bytes and lists hold an allocator; values without one need none
        let text = match self.value() {
            None => return write!(f, "null"),
            Some(ScalarValue::Bool(b)) => return write!(f, "{b}"),
            Some(ScalarValue::Int(n)) => return write!(f, "{n}{}", suffix(self.dtype())),
            Some(ScalarValue::Utf8(text)) => return write!(f, "\"{text}\""),
            Some(ScalarValue::Binary(bytes)) => self.literal(*bytes.allocator()),
            Some(ScalarValue::List(items)) => self.literal(*items.allocator()),
        };
        match text {
            Ok(text) => write!(f, "{text}"),
            Err(_) => Err(fmt::Error),
        }
    }
}

/// What follows a whole number in a literal of that type.
fn suffix(dtype: &DType) -> &'static str
    ensures { result.now ≡ number_suffix true (type_of dtype.now) }
{
    match dtype {
        DType::Primitive(ptype, _) => ptype.text(),
        _ => "",
    }
}

/// A value that is no sequence, as `Column::text` writes it.
fn print_cell<W: fmt::Write>(cell: &Cell<'_>, f: &mut fmt::Formatter<W>) -> fmt::Result {
    match cell {
        Cell::Null => write!(f, "null"),
        Cell::Bool(b) => write!(f, "{b}"),
        Cell::Int(n) => write!(f, "{n}"),
        Cell::Text(text) => write!(f, "\"{text}\""),
        Cell::Bytes(bytes) => {
            write!(f, "0x")?;
            for byte in *bytes {
                write!(f, "{byte:02x}")?;
            }
            Ok(())
        }
        Cell::Sequence(_) => Err(fmt::Error),
    }
}

/// The bytes of `text`; running out of memory is an error.
impl fmt::Debug for Column {
    fn fmt<W: fmt::Write>(&self, f: &mut fmt::Formatter<W>) -> fmt::Result {
        if let Some(alloc) = self.allocator() {
            return match self.text(alloc) {
                Ok(text) => write!(f, "{text}"),
                Err(_) => Err(fmt::Error),
            };
        }
        // no value is within another, so each is written directly
        write!(f, "{:?}:", self.dtype())?;
        for i in 0..self.len() {
            write!(f, " ")?;
            print_cell(&self.cell(i), f)?;
        }
        Ok(())
    }
}
