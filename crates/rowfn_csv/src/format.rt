//! How fields are separated, how null is written and read, and which lines and records are rows.
ghost use Rattle.std.specs.Prelude.{◌≡◌};
ghost use Rattle.std.specs.Str.{bytes_eq};
ghost use Rattle.std.specs.List.{list_any};
ghost use Rattle.rowfn_csv.specs.Formats.{is_null_text, begins_comment, is_comment_line};

use crate::raw::is_text;

/// How fields are separated, how null is written and read, and which lines and records are rows.
#[derive(Clone, Copy)]
pub struct Format<'a> {
    /// The byte between two fields of the input: neither a quote nor the end of a line.
    pub delimiter: u8,
    /// The byte between two fields of the output: neither a quote nor the end of a line.
    pub output_delimiter: u8,
    /// The text that is written for null. In no quotes it is read as null.
    pub null: &'a [u8],
    /// More texts that are read as null where they stand in no quotes.
    pub more_nulls: &'a [&'a [u8]],
    /// Whether these texts are null in quotes too.
    pub quoted_nulls: bool,
    /// A line that begins with this byte is a comment, and is skipped. It is no quote, no delimiter
    /// and no end of a line.
    pub comment: Option<u8>,
    /// Whether the field past the end of a record is null; else it is an empty text.
    pub fits: bool,
    /// Whether an empty line is a row of one empty field; else it is skipped.
    pub blank_rows: bool,
    /// Whether truth values are read in any spelling; they are written as `true` and `false`.
    pub any_truths: bool,
}

/// Whether a text is one of these.
fn is_one_of(text: &[u8], texts: &[&[u8]]) -> bool
    ensures { result ≡ list_any (λ t. bytes_eq text.now t.now) texts.now }
{
    texts.iter().any(|other| is_text(text, other))
}

impl Format<'_> {
    /// Whether a text in no quotes is null.
    #[inline(always)]
    pub fn is_null_text(&self, text: &[u8]) -> bool
        ensures { result ≡ is_null_text self.now text.now }
    {
        is_text(text, self.null) || is_one_of(text, self.more_nulls)
    }

    /// Whether a byte at the start of a line begins a comment.
    #[inline(always)]
    pub fn begins_comment(&self, byte: u8) -> bool
        ensures { result ≡ begins_comment self.now.comment byte }
    {
        self.comment == Some(byte)
    }
}
