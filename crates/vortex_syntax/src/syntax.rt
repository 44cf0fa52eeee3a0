//! The tree of a text, in postfix order.
ghost use Rattle.std.specs.Prelude.{◌≡◌, map, length, IfOk, IfErr};
ghost use Rattle.vortex_syntax.specs.Syntax.{Syntax};
ghost use Rattle.vortex_syntax.specs.Postfix.{step_in, postfix};
ghost use Rattle.vortex_syntax.specs.Grammar.{Reads};
ghost use Rattle.vortex_syntax.specs.Errors.{AnswersUnlessMemory};
ghost use Rattle.vortex_syntax.specs.Refusals.{RefusesBy, TreeStopsAt};

use crate::error::SyntaxError;
use crate::expected::Expected;
use crate::lexing::read_tokens;
use crate::nesting::too_deep;
use crate::reader::read_steps;
use crate::tree::SyntaxTree;
use std::alloc::Global;

/// Parses an expression: its steps in postfix order. Fails exactly where the text is no expression:
/// `NoToken`, `TooDeep`, or `Unexpected` with what was expected, each with the byte.
pub fn read_syntax(alloc: Global, text: &[u8]) -> Result<SyntaxTree<'_>, SyntaxError>
    // The result is a tree of the text.
    ensures found { IfOk result (λ v. (t : Syntax) × Reads text.now t
        × (map step_in v.steps.items ≡ postfix t)) }
    // A tree of the text is returned.
    ensures only { (t : Syntax) → Reads text.now t
        → AnswersUnlessMemory result (λ v. map step_in v.steps.items ≡ postfix t) }
    // An error is the text's, with its byte.
    ensures refused { IfErr result (RefusesBy TreeStopsAt text.now) }
    ensures paired { IfOk result (λ v. length v.places.items ≡ length v.steps.items) }
{
    let read = read_tokens(alloc, text)?;
    let tokens = read.tokens.as_slice();
    if let Some(number) = too_deep(tokens) {
        return Err(SyntaxError::TooDeep(read.byte(number)));
    }
    read_steps(alloc, tokens, read.placed(Expected::OperatorOrEnd))
}
