//! Programs read from the bytes of texts.
ghost use Rattle.std.specs.Prelude.{◌≡◌, List, map, IfOk, IfErr, MatchResult, IsUtf8};
ghost use Rattle.vortex_types.specs.TypeOf.{struct_fields};
ghost use Rattle.vortex_expressions.specs.declared.refusal.Refusal.{Refusal};
ghost use Rattle.vortex_expressions.specs.Answers as specs;
ghost use Rattle.vortex_expressions.specs.Answers.{ExpressesAll, IsRefusedAll};
ghost use Rattle.vortex_program.specs.declared.form.Form.TheVariants.{Answers};
ghost use Rattle.vortex_program.specs.Texts.{AreAnswersOf};
ghost use Rattle.vortex_program.specs.Programs.{trees_of, AreOptimized};
ghost use Rattle.yurkije_core.specs.Programs.{IsOutOfMemory, RefusesFor, IsNoText};

use std::alloc::Global;
use std::str;
use vortex_columns::StructFields;
use vortex_expressions::TextError;
use vortex_logical::kind::Kind;
use vortex_program::Program;

/// Why bytes are no program.
#[derive(Drop)]
pub enum ProgramError {
    /// They are not UTF-8.
    NotUtf8,
    /// The text is no list of answers over the scope, or memory ran out.
    Text(TextError),
}

/// Reads the answers of a text over the fields of a scope, whose values are of these kinds, by place;
/// further fields are plain: `price * stock as worth, price > 100`. Ok exactly where the text is UTF-8 and a list of answers
/// over the scope, where no allocation fails. Bytes that are not UTF-8 are refused as such, whatever
/// memory there is.
pub fn read_program(
    alloc: Global,
    scope: StructFields,
    kinds: Vec<Kind>,
    text: &[u8],
) -> Result<Program, ProgramError>
    ensures scope { IfOk result (λ p. p.scope ≡ scope) }
    ensures kinds { IfOk result (λ p. p.kinds ≡ kinds) }
    // What was read is what the text means, and what runs the rules make of it.
    ensures found { IfOk result
        (λ p. AreAnswersOf Answers (struct_fields scope) kinds.items text.now p.written.items) }
    ensures kept { IfOk result (λ p. AreOptimized p.written.items p.optimized.items) }
    // What the text means is read.
    ensures only { (list : List specs.Answer) → IsUtf8 text.now
        → ExpressesAll (struct_fields scope) kinds.items text.now list
        → MatchResult result (λ p. trees_of p.written.items ≡ map (λ a. a.tree) list)
        IsOutOfMemory }
    // A text that is refused is refused so.
    ensures refused { (r : Refusal) → IsUtf8 text.now
        → IsRefusedAll (struct_fields scope) kinds.items text.now r → RefusesFor r result }
    ensures text { IfErr result (IsNoText text.now) }
{
    let text = match str::from_utf8(text) {
        Ok(text) => text,
        Err(_) => return Err(ProgramError::NotUtf8),
    };
    match Program::read(alloc, scope, kinds, text) {
        Ok(program) => Ok(program),
        Err(error) => Err(ProgramError::Text(error)),
    }
}
