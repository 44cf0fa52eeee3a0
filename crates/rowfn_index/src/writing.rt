//! The text of an index.
ghost use Rattle.std.specs.Prelude.{◌≡◌, ◌++◌, ◌∷◌, [], codes, decimal, map, IfOk, OnOk};
ghost use Rattle.std.specs.List.{flat_map};
ghost use Rattle.rowfn_index.specs.IndexTexts.{HasFields, HasLine, text_entry, column_entries};
ghost use Rattle.rowfn_index.specs.IndexTexts.{head_text, fact_entries, name_entries, word_entry};

use crate::chunk::Chunk;
use crate::entries::Entries;
use crate::head::{FileFacts, IndexHead, IndexedColumn};
use crate::measured::ColumnEnds;
use std::alloc::{AllocError, Global};

/// How an index begins.
pub(crate) const TITLE: &str = "rowfn_stream index";

/// The version of indexes that are written and read.
pub(crate) const VERSION: &str = "1";

/// The fields of a chunk before those of its columns.
pub(crate) const FACTS: [&str; 5] = ["offset", "bytes", "rows", "whole", "digest"];

/// Adds the first line.
fn push_title(entries: &mut Entries) -> Result<(), AllocError>
    ensures { OnOk result (HasLine entries.old entries.new
        (text_entry (codes "rowfn_stream index") ∷ text_entry (codes "1") ∷ [])) }
{
    entries.push_text(TITLE)?;
    entries.push_text(VERSION)?;
    entries.end_line()
}

/// Adds the line of the options by which the rows were read.
fn push_words(entries: &mut Entries, words: &[String]) -> Result<(), AllocError>
    ensures { OnOk result (HasLine entries.old entries.new
        (text_entry (codes "options") ∷ map word_entry words.now)) }
{
    entries.push_text("options")?;
    for k in 0..words.len() {
        entries.push_text(words[k].as_str())?;
    }
    entries.end_line()
}

/// Adds the line of the file.
fn push_file(entries: &mut Entries, file: &FileFacts) -> Result<(), AllocError>
    ensures { OnOk result (HasLine entries.old entries.new (text_entry (codes "file")
        ∷ decimal file.now.bytes ∷ decimal file.now.header_bytes
        ∷ decimal file.now.header_digest ∷ [])) }
{
    entries.push_text("file")?;
    entries.push_number(file.bytes)?;
    entries.push_number(file.header_bytes)?;
    entries.push_number(file.header_digest)?;
    entries.end_line()
}

/// Adds the three fields of a column.
fn push_column(entries: &mut Entries, column: &IndexedColumn) -> Result<(), AllocError>
    ensures { OnOk result (HasFields entries.old entries.new (column_entries column.now)) }
{
    entries.push_text(column.name.as_str())?;
    entries.push_number(column.place as u64)?;
    entries.push_text(column.dtype.as_str())
}

/// Adds the line of the columns.
fn push_columns(entries: &mut Entries, columns: &[IndexedColumn]) -> Result<(), AllocError>
    ensures { OnOk result (HasLine entries.old entries.new
        (text_entry (codes "columns") ∷ flat_map column_entries columns.now)) }
{
    entries.push_text("columns")?;
    for k in 0..columns.len() {
        push_column(entries, &columns[k])?;
    }
    entries.end_line()
}

/// Adds the names of what a chunk has of a column.
fn push_name(entries: &mut Entries, column: &IndexedColumn) -> Result<(), AllocError>
    ensures { OnOk result (HasFields entries.old entries.new (name_entries column.now)) }
{
    let name = column.name.as_str();
    let alloc = *column.name.allocator();
    entries.push_text(format!(in alloc; "nulls of {name}")?.as_str())?;
    entries.push_text(format!(in alloc; "low of {name}")?.as_str())?;
    entries.push_text(format!(in alloc; "high of {name}")?.as_str())
}

/// Adds the names of what a chunk has of its own.
fn push_facts(entries: &mut Entries) -> Result<(), AllocError>
    ensures { OnOk result (HasFields entries.old entries.new fact_entries) }
{
    let [offset, bytes, rows, whole, digest] = FACTS;
    entries.push_text(offset)?;
    entries.push_text(bytes)?;
    entries.push_text(rows)?;
    entries.push_text(whole)?;
    entries.push_text(digest)?;
    Ok(())
}

/// Adds the names of the fields of a chunk: three for each column.
fn push_names(entries: &mut Entries, columns: &[IndexedColumn]) -> Result<(), AllocError>
    ensures { OnOk result (HasLine entries.old entries.new
        (fact_entries ++ flat_map name_entries columns.now)) }
{
    push_facts(entries)?;
    for k in 0..columns.len() {
        push_name(entries, &columns[k])?;
    }
    entries.end_line()
}

/// The text of an index up to its chunks.
pub fn write_head(alloc: Global, head: &IndexHead) -> Result<Vec<u8>, AllocError>
    ensures { IfOk result (λ text. text.items ≡ head_text head.now) }
{
    let mut entries = Entries::new(alloc);
    push_title(&mut entries)?;
    push_words(&mut entries, &head.words)?;
    push_file(&mut entries, &head.file)?;
    push_columns(&mut entries, &head.columns)?;
    push_names(&mut entries, &head.columns)?;
    Ok(entries.bytes)
}

/// Adds the line of a chunk.
pub(crate) fn push_chunk(
    entries: &mut Entries,
    chunk: &Chunk,
    columns: &[ColumnEnds],
) -> Result<(), AllocError> {
    entries.push_number(chunk.offset)?;
    entries.push_number(chunk.bytes)?;
    entries.push_number(chunk.rows)?;
    entries.push_truth(chunk.whole)?;
    entries.push_number(chunk.digest)?;
    for column in columns {
        entries.push_number(column.nulls)?;
        entries.push_end(&column.low)?;
        entries.push_end(&column.high)?;
    }
    entries.end_line()
}
