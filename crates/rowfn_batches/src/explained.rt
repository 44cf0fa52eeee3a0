//! What a program answers, in words: each answer as it was written and as rules make it.
ghost use Rattle.std.specs.Prelude.{◌≡◌, ◌≢◌, ◌++◌, ◌∷◌, [], ℕ, List, OnOk, IfSome, MatchBool};
ghost use Rattle.std.specs.Prelude.{length, slice_get, string_bytes, codes, decimal, unwrap_or};
ghost use Rattle.std.specs.Prelude.{option_map};
ghost use Rattle.vortex_errors.specs.Answers.{AnswersUnlessMemory};
ghost use Rattle.vortex_interface.specs.Printing.{tree_text};
ghost use Rattle.vortex_expressions.specs.Writing.{text_of_tree};
ghost use Rattle.rowfn_batches.specs.Explaining.{tree_head, weight_end, AddsTree, AddsRules};
ghost use Rattle.rowfn_batches.specs.Explaining.{AddsAnswer, AreExplained, kind_type};
ghost use Rattle.std.specs.Prelude.{if◌then◌else◌};
ghost use Rattle.vortex_types.specs.TypeOf.{type_of};
ghost use Rattle.vortex_logical.specs.Kinds.{kind_name};

use itoa::Buffer;
use std::alloc::{AllocError, Global};
use vortex_columns::{DType, VortexResult};
use vortex_expressions::write_expression;
use vortex_functions::BoundExpression;
use vortex_logical::kind::Kind;
use vortex_program::{Answer, Program};
use vortex_standard::Standard;

/// The text of a tree as people write it, where it has one. E9 where an allocation fails.
fn text_of(alloc: Global, tree: &BoundExpression<Standard>) -> VortexResult<String>
    ensures { AnswersUnlessMemory result (λ text. string_bytes text
        ≡ unwrap_or (text_of_tree tree.now) (codes "no expression")) }
{
    match write_expression(alloc, tree)? {
        Some(text) => Ok(text),
        None => Ok(String::from_str(alloc, "no expression")?),
    }
}

/// Adds a tree's title and its texts. Fails only where memory runs out.
fn push_head(out: &mut String, title: &str, words: &str, printed: &str) -> Result<(), AllocError>
    ensures { OnOk result (string_bytes out.new
        ≡ string_bytes out.old ++ tree_head title.now words.now printed.now) }
{
    out.push_str("  ")?;
    out.push_str(title)?;
    out.push_str(": ")?;
    out.push_str(words)?;
    out.push_str("\n    printed ")?;
    out.push_str(printed)?;
    out.push_str("\n    type ")
}

/// Adds a weight, behind a type. Fails only where memory runs out.
fn push_weight(out: &mut String, weight: u64) -> Result<(), AllocError>
    ensures { OnOk result (string_bytes out.new ≡ string_bytes out.old ++ weight_end weight) }
{
    let mut buffer = Buffer::new();
    out.push_str(", weight ")?;
    out.push_str(buffer.format(weight))?;
    out.push_str("\n")
}

/// Adds the name of a kind, with the mark of a type that has null. E9 where an allocation fails.
fn push_kind(
    out: &mut String,
    alloc: Global,
    kind: &Kind,
    is_nullable: bool,
) -> Result<(), AllocError>
    ensures { OnOk result (string_bytes out.new ≡ string_bytes out.old
        ++ (kind_name kind.now ++ (if is_nullable then codes "?" else []))) }
{
    let name = format!(in alloc; "{kind}")?;
    out.push_str(name.as_str())?;
    out.push_str(if is_nullable { "?" } else { "" })
}

/// Adds the type of an answer's values: its kind where it has one. E9 where an allocation fails.
fn push_type(out: &mut String, alloc: Global, kind: &Kind, dtype: &DType) -> VortexResult<()>
    ensures { AnswersUnlessMemory result (λ _. string_bytes out.new
        ≡ string_bytes out.old ++ kind_type kind.now (type_of dtype.now)) }
{
    if matches!(kind, Kind::Plain) {
        return dtype.write_text(out);
    }
    push_kind(out, alloc, kind, dtype.is_nullable())?;
    Ok(())
}

/// Adds the lines of a tree, whose values have a kind, under a title. E9 where an allocation fails.
fn push_tree(
    out: &mut String,
    alloc: Global,
    title: &str,
    tree: &BoundExpression<Standard>,
    kind: &Kind,
    printed: &str,
) -> VortexResult<()>
    requires { IfSome (tree_text tree.now) (λ words. printed.now ≡ words) }
    ensures { AnswersUnlessMemory result (λ _. AddsTree title.now tree.now kind.now
        printed.now (string_bytes out.old) (string_bytes out.new)) }
{
    let words = text_of(alloc, tree)?;
    push_head(out, title, words.as_str(), printed)?;
    push_type(out, alloc, kind, tree.dtype())?;
    push_weight(out, tree.weight())?;
    Ok(())
}

/// Whether two texts are one.
fn are_one(text: &str, other: &str) -> bool
    ensures { MatchBool result (text.now ≡ other.now) (text.now ≢ other.now) }
{
    text.as_bytes() == other.as_bytes()
}

/// Adds what rules make of an answer, where that prints itself otherwise than the answer does. E9
/// where an allocation fails.
fn push_rules(
    out: &mut String,
    alloc: Global,
    printed: &str,
    optimized: Option<&Answer>,
) -> VortexResult<()>
    ensures { AnswersUnlessMemory result (λ _. AddsRules printed.now
        (option_map (λ o. o.now) optimized.entry) (string_bytes out.old) (string_bytes out.new)) }
{
    let Some(optimized) = optimized else {
        return Ok(());
    };
    let other = optimized.tree.sql_text(alloc)?;
    if are_one(other.as_str(), printed) {
        return Ok(());
    }
    push_tree(
        out,
        alloc,
        "optimized",
        &optimized.tree,
        &optimized.kind,
        other.as_str(),
    )
}

/// Adds the lines of an answer. E9 where an allocation fails.
fn push_answer(
    out: &mut String,
    alloc: Global,
    answer: &Answer,
    optimized: Option<&Answer>,
) -> VortexResult<()>
    ensures { AnswersUnlessMemory result (λ _. AddsAnswer answer.now
        (option_map (λ o. o.now) optimized.entry) (string_bytes out.old) (string_bytes out.new)) }
{
    out.push_str(answer.name.as_str())?;
    out.push_str("\n")?;
    let printed = answer.tree.sql_text(alloc)?;
    push_tree(
        out,
        alloc,
        "tree",
        &answer.tree,
        &answer.kind,
        printed.as_str(),
    )?;
    push_rules(out, alloc, printed.as_str(), optimized)
}

/// The answer of that number, if there is one.
pub(crate) fn answer_at(answers: &[Answer], place: usize) -> Option<&Answer>
    ensures { option_map (λ a. a.now) result ≡ slice_get answers.now place }
{
    answers.get(place)
}

/// The lines of each answer and of what rules make of it. E9 where an allocation fails.
fn answer_lines(alloc: Global, written: &[Answer], optimized: &[Answer]) -> VortexResult<String>
    ensures { AnswersUnlessMemory result (λ text. AreExplained written.now optimized.now
        (length written.now) (string_bytes text)) }
{
    let mut out = String::new(alloc);
    for k in 0..written.len() {
        push_answer(&mut out, alloc, &written[k], answer_at(optimized, k))?;
    }
    Ok(out)
}

/// Of each answer its name, its texts, type and weight; and those of the tree that rules make of it,
/// where that prints itself otherwise. E9 where an allocation fails.
pub fn explain(alloc: Global, program: &Program) -> VortexResult<String>
    ensures { AnswersUnlessMemory result (λ text. AreExplained program.now.written.items
        program.now.optimized.items (length program.now.written.items) (string_bytes text)) }
{
    answer_lines(alloc, &program.written, &program.optimized)
}
