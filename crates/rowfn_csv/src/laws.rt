//! What follows from what a record says, and how fields are written. The functions do nothing:
//! their contracts are proved.
ghost use Rattle.rowfn_csv.specs.Records.{EachRecordHasFields};
ghost use Rattle.rowfn_csv.specs.RoundTrip.{CellsReadBack};
ghost use Rattle.rowfn_csv.specs.Comments.{CommentsAreSkipped};

/// Whatever bytes a record has, they say fields, of which the last may be open.
#[tactic(auto, using(crate::proofs::Said::each_record_has_fields))]
pub fn each_record_has_fields()
    ensures { EachRecordHasFields }
{}

/// Cells that are written as a line, in quotes where they need them, and null as its first text,
/// say fields that are those cells, or null for a text that is null in quotes too. The line is no
/// comment, and no line ends within a bare field.
pub fn cells_read_back()
    ensures { CellsReadBack }
{}

/// A comment is read as line feeds, up to the end of its line, and no comment begins within quotes.
pub fn comments_are_skipped()
    ensures { CommentsAreSkipped }
{}
