//! The texts of columns, row by row.
ghost use Rattle.std.specs.Prelude.{◌≡◌, ◌<◌, ◌≤◌, ◌+◌, ◌++◌, ℕ, List, true, false, length};
ghost use Rattle.std.specs.Prelude.{slice_index, IsTrue, IfSome};
ghost use Rattle.std.specs.Str.{IsAscii};
ghost use Rattle.vortex_like.specs.Words.{is_text_type, texts_of, text_at, AreTexts, AreAscii};
ghost use Rattle.vortex_like.specs.Words.{IsTextColumn, is_null, row, AnswersUnlessMemory};
ghost use Rattle.vortex_like.specs.Words.{IsRepeated};
ghost use Rattle.std.specs.Int.{w64, to_le_bytes};
ghost use Rattle.std.specs.Vec.{vec_len, vec_capacity};
ghost use Rattle.vortex_views.specs.ViewBytes.{view_bytes, inlined_value, IsInlined};

use vortex_columns::{Cell, Column, ResolvedViews, VortexResult};
use vortex_views::{BinaryView, Row, equal};

/// The texts of a column that is not constant, in place. Bytes under a null are arbitrary.
#[derive(Clone, Copy)]
pub(crate) struct Texts<'a> {
    rows: ResolvedViews<'a>,
}

/// A column of texts, by how its rows are read.
#[derive(Clone, Copy)]
pub(crate) enum TextColumn<'a> {
    /// This text in each row.
    One(&'a str),
    Rows(Texts<'a>),
    /// Null in each row.
    Null,
}

/// How the rows of a column of texts are read. Allocates nothing.
pub(crate) fn text_column(column: &Column) -> TextColumn<'_>
    requires { is_text_type column.now.dtype ≡ true }
    ensures { IsTextColumn column.now result }
{
    // each row has the column's type
    let _ = column.dtype();
    let Some(scalar) = column.as_constant() else {
        return match column.views() {
            Some(rows) => TextColumn::Rows(Texts { rows }),
            None => TextColumn::Null,
        };
    };
    match scalar.cell() {
        Cell::Text(text) => TextColumn::One(text),
        _ => TextColumn::Null,
    }
}

/// Bytes are below 256.
#[inline(always)]
fn learn_bytes(bytes: &[u8])
    ensures { (i : ℕ) → slice_index bytes.now i < 256 }
{}

/// Whether there is capacity for twelve more bytes.
#[inline(always)]
fn has_room(bytes: &Vec<u8>) -> bool
    ensures { IsTrue result → vec_len bytes.now + 12 ≤ vec_capacity bytes.now }
{
    bytes.len() < bytes.capacity() && bytes.capacity() - bytes.len() >= 12
}

/// Adds four bytes, within the capacity.
#[inline(always)]
fn push_four(bytes: &mut Vec<u8>, part: [u8; 4])
    requires { vec_len bytes.old + 4 ≤ vec_capacity bytes.old }
    ensures items { bytes.new.items ≡ bytes.old.items ++ part }
    ensures room { vec_capacity bytes.new ≡ vec_capacity bytes.old }
    ensures len { vec_len bytes.new ≡ vec_len bytes.old + 4 }
{
    let [a, b, c, d] = part;
    bytes.push_reserved(a);
    bytes.push_reserved(b);
    bytes.push_reserved(c);
    bytes.push_reserved(d);
}

/// Adds the eight bytes of a number, little-endian, within the capacity.
#[inline(always)]
fn push_eight(bytes: &mut Vec<u8>, number: u64)
    requires { vec_len bytes.old + 8 ≤ vec_capacity bytes.old }
    ensures { bytes.new.items ≡ bytes.old.items ++ to_le_bytes w64 number }
{
    let [b0, b1, b2, b3, b4, b5, b6, b7] = number.to_le_bytes();
    bytes.push_reserved(b0);
    bytes.push_reserved(b1);
    bytes.push_reserved(b2);
    bytes.push_reserved(b3);
    bytes.push_reserved(b4);
    bytes.push_reserved(b5);
    bytes.push_reserved(b6);
    bytes.push_reserved(b7);
}

/// Adds an inlined text, within the capacity: the view's last twelve bytes, then truncates to the
/// text.
#[inline(always)]
fn push_inlined(bytes: &mut Vec<u8>, view: &BinaryView)
    requires inlined { IsInlined (view_bytes view.now) }
    requires room { vec_len bytes.old + 12 ≤ vec_capacity bytes.old }
    ensures { bytes.new.items ≡ bytes.old.items ++ inlined_value (view_bytes view.now) }
{
    learn_bytes(view.as_bytes());
    let end = bytes.len() + view.len() as usize;
    push_four(bytes, view.prefix());
    push_eight(bytes, view.rest());
    bytes.truncate(end);
}

/// A text for each row that is not null.
pub(crate) trait RowTexts {
    ghost has_row: { Self → ℕ → Type 0 };

    ghost bytes_at: { Self → ℕ → List ℕ };

    fn bytes(&self, i: usize) -> &[u8]
        requires { has_row self.now i }
        ensures { result.now ≡ bytes_at self.now i };
}

impl RowTexts for Texts<'_> {
    ghost has_row = { λ t i. i < length (texts_of t) };

    ghost bytes_at = { λ t. text_at (texts_of t) };

    fn bytes(&self, i: usize) -> &[u8] {
        self.rows.bytes(i)
    }
}

/// The same text in each row.
#[derive(Clone, Copy)]
pub(crate) struct OneText<'a> {
    pub(crate) text: &'a str,
}

impl RowTexts for OneText<'_> {
    ghost has_row = { λ t i. Unit {0} };

    ghost bytes_at = { λ t i. t.text.now };

    fn bytes(&self, _i: usize) -> &[u8] {
        self.text.as_bytes()
    }
}

impl<'a> Texts<'a> {
    ghost use Rattle.vortex_views.specs.BorrowedValue.{row_value};

    /// The text of a row, with the words of its view.
    #[inline(always)]
    pub(crate) fn row(&self, i: usize) -> Row<'a>
        requires { i < length (texts_of self.now) }
        ensures { row_value result ≡ text_at (texts_of self.now) i }
    {
        self.rows.row(i)
    }

    /// How many texts there are.
    pub(crate) fn len(&self) -> usize
        ensures { result ≡ length (texts_of self.now) }
    {
        self.rows.len()
    }

    /// How many bytes the text of a row has.
    #[inline(always)]
    pub(crate) fn text_len(&self, i: usize) -> usize
        requires { i < length (texts_of self.now) }
        ensures { result ≡ length (text_at (texts_of self.now) i) }
    {
        self.rows.view(i).len() as usize
    }

    /// Adds the text of a row after other bytes.
    #[inline(always)]
    pub(crate) fn append(&self, i: usize, bytes: &mut Vec<u8>) -> VortexResult<()>
        requires { i < length (texts_of self.now) }
        ensures { AnswersUnlessMemory result (λ _. bytes.new.items
            ≡ bytes.old.items ++ text_at (texts_of self.now) i) }
    {
        let view = self.rows.view(i);
        if view.is_inlined() && has_room(bytes) {
            push_inlined(bytes, view);
            return Ok(());
        }
        bytes.extend_from_slice(self.rows.bytes(i))?;
        Ok(())
    }

    /// The first row that is not null, if there is one.
    fn first_valid(&self, column: &Column) -> Option<usize>
        ensures valid { IfSome result (λ first. (first < length column.now.rows)
            × (is_null (row column.now.rows first) ≡ false)) }
        ensures before { IfSome result (λ first. (i : ℕ) → i < first
            → is_null (row column.now.rows i) ≡ true) }
    {
        for i in 0..column.len() {
            if column.is_valid(i) {
                return Some(i);
            }
        }
        None
    }

    /// The text of all rows that are not null, if they have the same and there are some. Allocates
    /// nothing.
    pub(crate) fn repeated(&self, column: &Column) -> Option<&'a str>
        requires { AreTexts column.now (texts_of self.now) }
        ensures { IfSome result (λ chars. IsRepeated chars.now column.now) }
    {
        let first = self.first_valid(column)?;
        let own = self.row(first);
        for i in first..column.len() {
            if column.is_valid(i) && !equal(&own, &self.row(i)) {
                return None;
            }
        }
        Some(unsafe { str::from_utf8_unchecked(self.rows.bytes(first)) })
    }

    /// Whether the text of a row is ASCII, if the row is not null.
    fn is_ascii_at(&self, column: &Column, i: usize) -> bool
        requires texts { AreTexts column.now (texts_of self.now) }
        requires row { i < length column.now.rows }
        ensures { result ≡ true → is_null (row column.now.rows i) ≡ false
            → IsAscii (text_at (texts_of self.now) i) }
    {
        if column.is_valid(i) {
            return self.rows.bytes(i).is_ascii();
        }
        true
    }

    /// Whether each text that is not null is ASCII.
    fn are_ascii(&self, column: &Column) -> bool
        requires { AreTexts column.now (texts_of self.now) }
        ensures { result ≡ true → AreAscii column.now (texts_of self.now) }
    {
        for i in 0..column.len() {
            if !self.is_ascii_at(column, i) {
                return false;
            }
        }
        true
    }

    /// Whether case is ignored and each text that is not null is ASCII: then the ASCII forms apply.
    /// The texts are not read if case is not ignored.
    pub(crate) fn fold_as_ascii(&self, column: &Column, case_insensitive: bool) -> bool
        requires { AreTexts column.now (texts_of self.now) }
        ensures { result ≡ true → AreAscii column.now (texts_of self.now) }
    {
        if case_insensitive {
            return self.are_ascii(column);
        }
        false
    }
}
