//! What an index says is to be done with the file of the rows.

use crate::failure::ProgramError;
use crate::indexing::{length_of, type_text};
use crate::planned::Plan;
use crate::queries::format_with;
use rowfn_batches::StreamError;
use rowfn_index::{
    Chunk, ChunkFile, ChunkTable, FileFacts, IndexError, IndexHead, IndexedColumn, Step,
    check_type, check_words, chunk_steps, digest_of, index_records, number_named, read_chunks,
    read_head, reading_words,
};
use rowfn_options::Options;
use rowfn_queries::{Query, Question};
use std::alloc::Global;
use std::cell::Cell;
use std::fs;
use std::io::{Read, Seek};
use std::rt::Files;
use vortex_columns::ExecutionCtx;
use vortex_program::Program;
use vortex_pruning::{GroupError, prune_groups};

/// The error of an index in the file of that name.
pub(crate) fn index_error(files: &impl AllocGlobal, name: &str, error: IndexError) -> ProgramError {
    match String::from_str(files.alloc(), name) {
        Ok(name) => ProgramError::Index(name, error),
        Err(_) => ProgramError::Stream(StreamError::OutOfMemory),
    }
}

/// The numbers in an index of a program's columns, which have the types of the program there.
fn numbers_of(
    alloc: Global,
    columns: &[IndexedColumn],
    question: &Question,
) -> Result<Vec<usize>, IndexError> {
    let program = &question.program;
    let mut numbers = Vec::new(alloc);
    for place in 0..program.scope.len() {
        let said = question.places.get(place).copied().unwrap_or(None);
        let number = number_named(alloc, columns, program.scope.name(place), said)?;
        let Ok(dtype) = type_text(alloc, program, place) else {
            return Err(IndexError::OutOfMemory);
        };
        check_type(alloc, &columns[number], dtype.as_str())?;
        numbers.push(number)?;
    }
    Ok(numbers)
}

/// Where the columns of a question are in a row: where it is said, else where the index has them.
fn places_of(
    alloc: Global,
    columns: &[IndexedColumn],
    question: &Option<Question>,
) -> Result<Vec<Option<usize>>, IndexError> {
    let mut places = Vec::new(alloc);
    let Some(question) = question else {
        return Ok(places);
    };
    let scope = &question.program.scope;
    for place in 0..scope.len() {
        match question.places.get(place) {
            Some(Some(said)) => places.push(Some(*said))?,
            _ => {
                let number = number_named(alloc, columns, scope.name(place), None)?;
                places.push(Some(columns[number].place))?;
            }
        }
    }
    Ok(places)
}

/// How many rows each chunk has.
fn row_counts(alloc: Global, chunks: &[Chunk]) -> Result<Vec<u64>, IndexError> {
    let mut counts = Vec::new(alloc);
    for chunk in chunks {
        counts.push(chunk.rows)?;
    }
    Ok(counts)
}

/// What is done with chunks, by what is known of the columns of a condition: of the tree that runs.
fn steps_of(
    alloc: Global,
    program: &Program,
    table: &ChunkTable,
    copies: bool,
) -> Result<Vec<Step>, IndexError> {
    let Some(condition) = program.optimized.first() else {
        return Err(IndexError::OutOfMemory);
    };
    let rows = row_counts(alloc, &table.chunks)?;
    let mut ctx = ExecutionCtx::new(alloc);
    match prune_groups(&condition.tree, &table.fields, &rows, &mut ctx) {
        Ok(pruned) => Ok(chunk_steps(alloc, &pruned, &table.chunks, copies)?),
        Err(GroupError::Statistics { group, field }) if field < program.scope.len() => {
            Err(IndexError::Contradiction {
                chunk: group.saturating_add(1),
                name: String::from_str(alloc, program.scope.name(field))?,
            })
        }
        Err(_) => Err(IndexError::OutOfMemory),
    }
}

/// The bytes of a file before its chunks. Fails where the file has another length, or other bytes
/// there.
fn header_of<F: Read + Seek>(
    alloc: Global,
    file: &mut F,
    facts: &FileFacts,
    found: u64,
) -> Result<Vec<u8>, IndexError> {
    if found != facts.bytes {
        return Err(IndexError::OtherLength {
            written: facts.bytes,
            found,
        });
    }
    let mut header = Vec::new(alloc);
    header.resize(facts.header_bytes as usize, 0)?;
    match file.read_exact(&mut header) {
        Ok(()) if digest_of(&header) == facts.header_digest => Ok(header),
        _ => Err(IndexError::OtherHeader),
    }
}

/// What an index says: its head, the steps of a condition, and where columns are.
#[derive(Drop)]
struct Advice {
    head: IndexHead,
    chunks: Vec<Chunk>,
    steps: Vec<Step>,
    answers: Vec<Option<usize>>,
    condition: Vec<Option<usize>>,
}

/// What the text of an index says of a query.
fn advice_of(
    alloc: Global,
    options: &Options<'_>,
    query: &Query,
    text: &[u8],
) -> Result<Advice, IndexError> {
    let Some(condition) = &query.condition else {
        return Err(IndexError::OutOfMemory);
    };
    let format = format_with(options, options.null.as_bytes(), &options.more_nulls);
    let words = reading_words(alloc, &format, options.header, options.max_field as usize)?;
    let mut records = index_records(alloc, text);
    let head = read_head(alloc, &mut records)?;
    check_words(alloc, &head.words, &words)?;
    let numbers = numbers_of(alloc, &head.columns, condition)?;
    let scope = &condition.program.scope;
    let table = read_chunks(alloc, &mut records, &head, scope, &numbers)?;
    let steps = steps_of(alloc, &condition.program, &table, query.answers.is_none())?;
    let answers = places_of(alloc, &head.columns, &query.answers)?;
    let condition = places_of(alloc, &head.columns, &query.condition)?;
    let ChunkTable { chunks, .. } = table;
    Ok(Advice {
        head,
        chunks,
        steps,
        answers,
        condition,
    })
}

/// What is done with the file of the rows, by the index in the file of that name. `changed` gets the
/// number of a chunk that has changed, if one is read.
pub(crate) fn plan_of<'c, Fs: Files + AllocGlobal>(
    files: &Fs,
    options: &Options<'_>,
    query: &Query,
    input: &str,
    name: &str,
    changed: &'c Cell<Option<usize>>,
) -> Result<Plan<'c, Fs::File>, ProgramError> {
    let alloc = files.alloc();
    let text = match fs::read(files, name) {
        Ok(text) => text,
        Err(error) => {
            return Err(ProgramError::Input(String::from_str(alloc, name)?, error));
        }
    };
    let advice = match advice_of(alloc, options, query, &text) {
        Ok(advice) => advice,
        Err(error) => return Err(index_error(files, name, error)),
    };
    let Advice {
        head,
        chunks,
        steps,
        answers,
        condition,
    } = advice;
    let opened = match fs::open(files, input) {
        Ok(mut file) => match length_of(&mut file) {
            Ok(bytes) => Ok((file, bytes)),
            Err(error) => Err(error),
        },
        Err(error) => Err(error),
    };
    match opened {
        Ok((mut file, bytes)) => match header_of(alloc, &mut file, &head.file, bytes) {
            Ok(header) => Ok(Plan {
                file: ChunkFile::new(alloc, file, chunks, changed),
                header,
                steps,
                answers,
                condition,
            }),
            Err(error) => Err(index_error(files, name, error)),
        },
        Err(error) => Err(ProgramError::Input(String::from_str(alloc, input)?, error)),
    }
}
