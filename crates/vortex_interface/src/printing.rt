//! The parts of a call's text, in the bytes of UTF-8, appended to a string. Each fails only where
//! memory runs out (E9).
ghost use Rattle.std.specs.Prelude.{◌≡◌, map, string_bytes};
ghost use Rattle.vortex_interface.specs.Words.{AnswersUnlessMemory, Appends, options_text, opening};
ghost use Rattle.vortex_interface.specs.Words.{text_at};

use vortex_columns::VortexResult;

/// A call's identity and `(`, before its first argument.
pub(crate) fn write_opening(out: &mut String, id: &str, index: usize) -> VortexResult<()>
    ensures { AnswersUnlessMemory result (λ _. Appends out.old (opening id.now index) out.new) }
{
    if index == 0 {
        out.push_str(id)?;
        out.push_str("(")?;
    }
    Ok(())
}

/// The text of a function's options, unless it is empty.
pub(crate) fn write_options(out: &mut String, options: &str) -> VortexResult<()>
    ensures { AnswersUnlessMemory result (λ _. Appends out.old (options_text options.now) out.new) }
{
    if !options.is_empty() {
        out.push_str(", opts=")?;
        out.push_str(options)?;
    }
    Ok(())
}

/// The text of the argument of that index, if there is one.
pub fn argument_text(place: usize, children: &[String]) -> &str
    ensures { result.now ≡ text_at place (map string_bytes children.now) }
{
    match children.get(place) {
        Some(text) => text.as_str(),
        None => "",
    }
}
