//! The texts of calls. Each fails only where memory runs out (E9).
ghost use Rattle.std.specs.Prelude.{◌≡◌, ◌++◌, codes};
ghost use Rattle.vortex_shipped.specs.Words.{Shipped, AnswersUnlessMemory, Appends, unary_before};
ghost use Rattle.vortex_shipped.specs.Words.{WritesBefore, AppendsCall};

use vortex_columns::VortexResult;
use vortex_interface::argument_text;

/// The text of a function's calls with these options, part by part.
pub(crate) trait CallText<Options> {
    ghost call: { Options → Shipped };

    /// Writes what comes before the argument that is printed `index`-th, or the end; returns which
    /// argument that is.
    fn write_part(&self, options: &Options, index: usize, out: &mut String) -> VortexResult<usize>
        ensures { AnswersUnlessMemory result
            (WritesBefore (call options.now) index out.old out.new) };

    /// The text of a call, from the texts of its arguments.
    final fn write_call(
        &self,
        options: &Options,
        children: &[String],
        out: &mut String,
    ) -> VortexResult<()>
        ensures { AnswersUnlessMemory result
            (λ _. AppendsCall (call options.now) children.now out.old out.new) }
    {
        for index in 0..children.len() + 1 {
            let place = self.write_part(options, index, out)?;
            out.push_str(argument_text(place, children))?;
        }
        Ok(())
    }
}

/// What comes before the only argument of a call, and at the end: `name(` and what ends it.
pub(crate) fn write_unary(
    out: &mut String,
    name: &str,
    end: &str,
    index: usize,
) -> VortexResult<usize>
    ensures { AnswersUnlessMemory result (λ place.
        Appends out.old (unary_before name.now end.now index) out.new × (place ≡ index)) }
{
    if index == 0 {
        out.push_str(name)?;
        out.push_str("(")?;
    } else {
        out.push_str(end)?;
    }
    Ok(index)
}

/// An operator, with a space on each side.
pub(crate) fn write_spaced(out: &mut String, operator: &str) -> VortexResult<()>
    ensures { AnswersUnlessMemory result
        (λ _. Appends out.old (codes " " ++ operator.now ++ codes " ") out.new) }
{
    out.push_str(" ")?;
    out.push_str(operator)?;
    out.push_str(" ")?;
    Ok(())
}
