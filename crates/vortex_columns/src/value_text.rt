//! The texts of values, appended to a string.
ghost use Rattle.std.specs.Prelude.{◌++◌, codes};
ghost use Rattle.std.specs.Fmt.{signed_decimal};
ghost use Rattle.std.specs.List.{flat_map};
ghost use Rattle.vortex_types.specs.Texts.{Appends, comma, quote};
ghost use Rattle.vortex_columns.specs.Words.{AnswersUnlessMemory, cell_value, IsCell, IsSequence};
ghost use Rattle.vortex_columns.specs.Words.{sequence_value};
ghost use Rattle.vortex_columns.specs.SingleValue.{single_value};
ghost use Rattle.vortex_columns.specs.ColumnView.{fields_in};
ghost use Rattle.vortex_columns.specs.Printing.{hex_text, value_text, number_suffix};
ghost use Rattle.vortex_columns.specs.Shapes.{shape_type};

use crate::cell::{Cell, Sequence};
use std::fmt::Write;
use vortex_types::{DType, VortexResult, write_separator};

/// A borrowed type: a `DType`, or that of a map's entries, by key and value.
#[derive(Clone, Copy)]
pub(crate) enum Shape<'a> {
    Of(&'a DType),
    Entry(&'a DType, &'a DType),
}

impl<'a> Shape<'a> {
    ghost use Rattle.std.specs.Prelude.{◌≡◌, ◌<◌};
    ghost use Rattle.vortex_types.specs.LogicalTypes.{field_count, field_type};
    ghost use Rattle.vortex_types.specs.FieldNames.{field_name};
    ghost use Rattle.vortex_columns.specs.Printing.{element_type};
    ghost use Rattle.vortex_columns.specs.Shapes.{is_struct};

    /// What follows a whole number: its type, if numbers are typed.
    fn number_suffix(self, typed: bool) -> &'static str
        ensures { result.now ≡ number_suffix typed (shape_type self.entry) }
    {
        match (typed, self) {
            (true, Shape::Of(DType::Primitive(ptype, _))) => ptype.text(),
            _ => "",
        }
    }

    fn is_struct(self) -> bool
        ensures { result ≡ is_struct (shape_type self.entry) }
    {
        match self {
            Shape::Of(DType::Struct(_, _)) => true,
            Shape::Of(_) => false,
            Shape::Entry(_, _) => true,
        }
    }

    /// The type of a list's elements or of a map's entries.
    fn element(self) -> Shape<'a>
        ensures { shape_type result ≡ element_type (shape_type self.entry) }
    {
        match self {
            Shape::Of(DType::List(element, _)) => Shape::Of(element),
            Shape::Of(DType::FixedSizeList(element, _, _)) => Shape::Of(element),
            Shape::Of(DType::Map(key, value, _)) => Shape::Entry(key, value),
            _ => self,
        }
    }

    /// How many fields a struct has, or an entry.
    fn field_count(self) -> usize
        ensures { result ≡ field_count (fields_in (shape_type self.entry)) }
    {
        match self {
            Shape::Of(DType::Struct(fields, _)) => fields.len(),
            Shape::Of(_) => 0,
            Shape::Entry(_, _) => 2,
        }
    }

    fn field_name(self, k: usize) -> &'a str
        requires { k < field_count (fields_in (shape_type self)) }
        ensures { result.now ≡ field_name k (fields_in (shape_type self.entry)) }
    {
        match self {
            Shape::Of(DType::Struct(fields, _)) => fields.name(k),
            Shape::Of(_) => "",
            Shape::Entry(_, _) => { if k == 0 { "key" } else { "value" } }
        }
    }

    /// The type of field `k`.
    fn field(self, k: usize) -> Shape<'a>
        requires { k < field_count (fields_in (shape_type self)) }
        ensures { shape_type result ≡ field_type k (fields_in (shape_type self.entry)) }
    {
        match self {
            Shape::Of(DType::Struct(fields, _)) => Shape::Of(fields.dtype(k)),
            Shape::Of(_) => self,
            Shape::Entry(key, value) => {
                if k == 0 {
                    Shape::Of(key)
                } else {
                    Shape::Of(value)
                }
            }
        }
    }
}

fn write_bytes(out: &mut String, bytes: &[u8]) -> VortexResult<()>
    ensures { AnswersUnlessMemory result
        (λ _. Appends out.old (flat_map hex_text bytes.now) out.new) }
{
    for byte in bytes {
        write!(out, "{byte:02x}")?;
    }
    Ok(())
}

/// A word, unchanged.
fn write_word(out: &mut String, word: &str) -> VortexResult<()>
    ensures { AnswersUnlessMemory result (λ _. Appends out.old word.now out.new) }
{
    out.push_str(word)?;
    Ok(())
}

/// A whole number, and its type if numbers are typed.
fn write_number(out: &mut String, typed: bool, shape: Shape<'_>, n: i128) -> VortexResult<()>
    ensures { AnswersUnlessMemory result (λ _. Appends out.old
        (signed_decimal n ++ number_suffix typed (shape_type shape.entry)) out.new) }
{
    write!(out, "{n}")?;
    out.push_str(shape.number_suffix(typed))?;
    Ok(())
}

/// A text in quotes.
fn write_quoted(out: &mut String, text: &str) -> VortexResult<()>
    ensures { AnswersUnlessMemory result
        (λ _. Appends out.old (quote ++ text.now ++ quote) out.new) }
{
    out.push_str("\"")?;
    out.push_str(text)?;
    out.push_str("\"")?;
    Ok(())
}

/// Bytes, two digits each.
fn write_hexadecimal(out: &mut String, bytes: &[u8]) -> VortexResult<()>
    ensures { AnswersUnlessMemory result
        (λ _. Appends out.old (codes "0x" ++ flat_map hex_text bytes.now) out.new) }
{
    out.push_str("0x")?;
    write_bytes(out, bytes)
}

/// A value that is no sequence; `null` for a sequence.
fn write_single(
    out: &mut String,
    typed: bool,
    shape: Shape<'_>,
    cell: &Cell<'_>,
) -> VortexResult<()>
    requires { IsCell cell.now }
    ensures { AnswersUnlessMemory result (λ _. Appends out.old
        (value_text typed (shape_type shape.entry) (single_value (cell_value cell.now)))
        out.new) }
{
    match cell {
        Cell::Null => write_word(out, "null"),
        Cell::Bool(true) => write_word(out, "true"),
        Cell::Bool(false) => write_word(out, "false"),
        Cell::Int(n) => write_number(out, typed, shape, *n),
        Cell::Text(text) => write_quoted(out, text),
        Cell::Bytes(bytes) => write_hexadecimal(out, bytes),
        Cell::Sequence(_) => write_word(out, "null"),
    }
}

/// A sequence that is being written, of that type, and the index of its next value.
#[derive(Clone, Copy)]
struct Writing<'a, 't> {
    values: Sequence<'a>,
    shape: Shape<'t>,
    next: usize,
}

impl<'a, 't> Writing<'a, 't> {
    ghost use Rattle.std.specs.Prelude.{◌≡◌, ◌<◌};
    ghost use Rattle.vortex_types.specs.Texts.{separator_before};
    ghost use Rattle.vortex_columns.specs.Words.{sequence_values};
    ghost use Rattle.vortex_columns.specs.WrittenValues.{opening, closing, count_written};
    ghost use Rattle.vortex_columns.specs.WrittenValues.{name_before, inner_type};

    /// Writes the opening bracket.
    fn begin(
        out: &mut String,
        shape: Shape<'t>,
        values: Sequence<'a>,
    ) -> VortexResult<Writing<'a, 't>>
        ensures { AnswersUnlessMemory result (λ begun.
            (begun ≡ record { values = values.entry; shape = shape.entry; next = 0 })
            × Appends out.old (opening (shape_type shape.entry)) out.new) }
    {
        out.push_str(if shape.is_struct() { "{" } else { "[" })?;
        Ok(Writing {
            values,
            shape,
            next: 0,
        })
    }

    /// How many values there are to write: for a struct at most one for each field.
    fn count(&self) -> usize
        requires { IsSequence self.now.values }
        ensures { result
            ≡ count_written (shape_type self.now.shape) (sequence_values self.now.values) }
    {
        if self.shape.is_struct() {
            self.values.len().min(self.shape.field_count())
        } else {
            self.values.len()
        }
    }

    /// Writes what comes before the next value: a separator, and the name of a struct's field.
    /// Returns the value's type.
    fn write_before(&self, out: &mut String) -> VortexResult<Shape<'t>>
        requires { self.now.next
            < count_written (shape_type self.now.shape) (sequence_values self.now.values) }
        ensures { AnswersUnlessMemory result (λ inner.
            (shape_type inner ≡ inner_type self.now.next (shape_type self.now.shape))
            × Appends out.old (separator_before comma self.now.next
            ++ name_before self.now.next (shape_type self.now.shape)) out.new) }
    {
        write_separator(out, ", ", self.next)?;
        if !self.shape.is_struct() {
            return Ok(self.shape.element());
        }
        out.push_str(self.shape.field_name(self.next))?;
        out.push_str(": ")?;
        Ok(self.shape.field(self.next))
    }

    /// Writes the closing bracket.
    fn end(&self, out: &mut String) -> VortexResult<()>
        ensures { AnswersUnlessMemory result
            (λ _. Appends out.old (closing (shape_type self.now.shape)) out.new) }
    {
        out.push_str(if self.shape.is_struct() { "}" } else { "]" })?;
        Ok(())
    }
}

/// The values of a sequence, in brackets. Enclosing sequences are kept in a list, so deep nesting
/// uses no stack.
fn write_sequence(
    out: &mut String,
    typed: bool,
    shape: Shape<'_>,
    values: &Sequence<'_>,
) -> VortexResult<()>
    requires { IsSequence values.now }
    ensures { AnswersUnlessMemory result (λ _. Appends out.old
        (value_text typed (shape_type shape.entry) (sequence_value values.now)) out.new) }
{
    let mut above = Vec::new(*out.allocator());
    let mut current = Writing::begin(out, shape, *values)?;
    loop {
        if current.next < current.count() {
            let inner = current.write_before(out)?;
            match current.values.get(current.next) {
                Cell::Sequence(values) => {
                    current.next += 1;
                    above.push(current)?;
                    current = Writing::begin(out, inner, values)?;
                }
                single => {
                    write_single(out, typed, inner, &single)?;
                    current.next += 1;
                }
            }
        } else {
            current.end(out)?;
            let Some(parent) = above.pop() else {
                return Ok(());
            };
            current = parent;
        }
    }
}

/// A value of that type, with the type after each whole number if `typed`.
pub(crate) fn write_value(
    out: &mut String,
    typed: bool,
    shape: Shape<'_>,
    cell: &Cell<'_>,
) -> VortexResult<()>
    requires { IsCell cell.now }
    ensures { AnswersUnlessMemory result
        (λ _. Appends out.old (value_text typed (shape_type shape.entry) (cell_value cell.now))
        out.new) }
{
    match cell {
        Cell::Sequence(values) => write_sequence(out, typed, shape, values),
        _ => write_single(out, typed, shape, cell),
    }
}
