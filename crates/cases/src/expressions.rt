//! Cases of expressions: columns given by lines, and a text that is read over them.

use crate::groups::groups_text;
use rowfn_lines::parse::parse;
use rowfn_lines::{Line, lines};
use std::alloc::Global;
use vortex_columns::{Column, ExecutionCtx, StructFields, VortexError, VortexResult};
use vortex_expressions::{Answer, read_answers, read_expression, write_expression};
use vortex_syntax::read_syntax;

/// What a case checks of a text.
#[derive(Clone, Copy)]
enum Question {
    /// The tree of an expression, and its type.
    Tree,
    /// The bytes at which the steps of this tree are reported.
    Places,
    /// The text of this tree.
    Written,
    /// The columns of a list of answers.
    Answers,
    /// What statistics say of these answers, as conditions of groups of rows.
    Groups,
    /// What statistics leave of these answers in groups of rows.
    Left,
}

/// The lines that ask them.
const QUESTIONS: [(Question, &str); 6] = [
    (Question::Tree, "\ntree\n"),
    (Question::Places, "\nplaces\n"),
    (Question::Written, "\nwritten\n"),
    (Question::Answers, "\nanswers\n"),
    (Question::Groups, "\ngroups\n"),
    (Question::Left, "\nleft\n"),
];

/// A text, what is checked of it, and the lines of its columns.
#[derive(Clone, Copy)]
pub(crate) struct ExpressionCase<'a> {
    question: Question,
    columns: &'a str,
    text: &'a str,
}

/// Columns, their row count, and their names and types.
#[derive(Drop)]
pub(crate) struct Batch {
    pub(crate) row_count: usize,
    pub(crate) scope: StructFields,
    pub(crate) columns: Vec<Column>,
}

/// The case in the text before the line `--`; none if it is a script.
pub(crate) fn expression_case(script: &str) -> Option<ExpressionCase<'_>> {
    for (question, line) in QUESTIONS {
        if let Some((columns, text)) = script.split_once(line) {
            return Some(ExpressionCase {
                question,
                columns,
                text,
            });
        }
    }
    None
}

/// Adds a column with the row count and a new name.
fn add_column(alloc: Global, batch: &mut Batch, name: &str, column: Column) -> VortexResult<()> {
    if column.len() != batch.row_count {
        return Err(VortexError::InvalidColumn);
    }
    if batch.scope.find(name).is_some() {
        return Err(VortexError::InvalidColumn);
    }
    let dtype = column.dtype().try_clone(alloc)?;
    batch.scope.push(String::from_str(alloc, name)?, dtype)?;
    batch.columns.push(column)?;
    Ok(())
}

/// The columns of `rows` and `col` lines. E12 for any other line.
fn read_batch(alloc: Global, text: &str) -> VortexResult<Batch> {
    let mut batch = Batch {
        row_count: 0,
        scope: StructFields::new(alloc),
        columns: Vec::new(alloc),
    };
    for line in lines(alloc, text.as_bytes())?.iter() {
        match parse(alloc, line)? {
            Line::Nothing => {}
            Line::Rows(count) => batch.row_count = count,
            Line::Column(name, column) => add_column(alloc, &mut batch, name, column)?,
            _ => return Err(VortexError::InvalidColumn),
        }
    }
    Ok(batch)
}

/// The tree of a text and its type, or why there is none.
fn tree_text(alloc: Global, scope: &StructFields, text: &str) -> VortexResult<String> {
    match read_expression(alloc, scope, text) {
        Ok(tree) => {
            let mut line = tree.sql_text(alloc)?;
            line.push_str(": ")?;
            tree.dtype().write_text(&mut line)?;
            Ok(line)
        }
        Err(error) => Ok(format!(in alloc; "{error}")?),
    }
}

/// The bytes at which the steps of a text are reported, or that it is no expression.
fn places_text(alloc: Global, text: &str) -> VortexResult<String> {
    let mut out = String::new(alloc);
    match read_syntax(alloc, text.as_bytes()) {
        Ok(tree) => {
            let mut separator = "";
            for place in tree.places.iter() {
                out.push_str(format!(in alloc; "{separator}{place}")?.as_str())?;
                separator = " ";
            }
        }
        Err(_) => out.push_str("no expression")?,
    }
    Ok(out)
}

/// The text of the tree of a text, followed by the tree of that text if it is another.
fn written_text(alloc: Global, scope: &StructFields, text: &str) -> VortexResult<String> {
    let Ok(tree) = read_expression(alloc, scope, text) else {
        return tree_text(alloc, scope, text);
    };
    let Some(mut written) = write_expression(alloc, &tree)? else {
        return Ok(String::from_str(alloc, "no text")?);
    };
    let again = tree_text(alloc, scope, written.as_str())?;
    if again.as_str() != tree_text(alloc, scope, text)?.as_str() {
        written.push_str(", which is ")?;
        written.push_str(again.as_str())?;
    }
    Ok(written)
}

/// Writes the name of an answer, and its column, as a line.
fn push_answer(
    alloc: Global,
    out: &mut String,
    answer: &Answer,
    batch: &Batch,
) -> VortexResult<()> {
    let mut ctx = ExecutionCtx::new(alloc);
    let column = answer
        .tree
        .execute(&batch.columns, batch.row_count, &mut ctx)?;
    let text = column.into_owned()?.text(alloc)?;
    if let Some(name) = &answer.name {
        out.push_str(name.as_str())?;
        out.push_str(" = ")?;
    }
    out.push_str(text.as_str())?;
    out.push_str("\n")?;
    Ok(())
}

/// The columns of a list of answers, each in a line, or why the text is no list.
fn answers_text(alloc: Global, batch: &Batch, text: &str) -> VortexResult<String> {
    let mut out = String::new(alloc);
    match read_answers(alloc, &batch.scope, &[], text) {
        Ok(answers) => {
            for answer in answers.iter() {
                push_answer(alloc, &mut out, answer, batch)?;
            }
            Ok(out)
        }
        Err(error) => Ok(format!(in alloc; "{error}")?),
    }
}

/// The result of a case, in lines. E12 for a syntax error in its columns; else the fault of the
/// first answer that has one.
pub(crate) fn expression_text(alloc: Global, case: ExpressionCase<'_>) -> VortexResult<String> {
    let batch = read_batch(alloc, case.columns)?;
    match case.question {
        Question::Tree => tree_text(alloc, &batch.scope, case.text),
        Question::Places => places_text(alloc, case.text),
        Question::Written => written_text(alloc, &batch.scope, case.text),
        Question::Answers => answers_text(alloc, &batch, case.text),
        Question::Groups => groups_text(alloc, &batch, case.text, false),
        Question::Left => groups_text(alloc, &batch, case.text, true),
    }
}
