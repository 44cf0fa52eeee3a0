//! A tree in postfix order, and the positions of its steps in the text.
ghost use Rattle.std.specs.Prelude.{◌≡◌, ◌++◌, ◌∷◌, [], length, map, OnOk, MatchOption, None};
ghost use Rattle.vortex_syntax.specs.Tokens.{name};
ghost use Rattle.vortex_syntax.specs.Postfix.{step_in, operand, last_name};

use crate::named::name_of;
use crate::step::Step;
use std::alloc::{AllocError, Global};

/// The steps in postfix order, and for each the byte of the text at which it is reported. Operands,
/// literals and types are reported at their first token, a cast at its type, a call at the first
/// token of its operator (`+`, `not`, `is`, `between`, `like`), also with an escape. These bytes
/// are tested, not proved.
#[derive(Drop)]
pub struct SyntaxTree<'a> {
    pub steps: Vec<Step<'a>>,
    pub places: Vec<usize>,
    pub ghost paired: { length places.items ≡ length steps.items },
}

impl<'a> SyntaxTree<'a> {
    pub(crate) fn new(alloc: Global) -> SyntaxTree<'a>
        ensures { result.steps.items ≡ [] }
    {
        SyntaxTree {
            steps: Vec::new(alloc),
            places: Vec::new(alloc),
        }
    }

    /// Adds a step that is reported at that byte. Fails only where memory runs out.
    pub(crate) fn push(&mut self, step: Step<'a>, place: usize) -> Result<(), AllocError>
        ensures { OnOk result
            (self.new.steps.items ≡ self.old.steps.items ++ (step.entry ∷ [])) }
    {
        self.steps.reserve(1)?;
        self.places.push(place)?;
        self.steps.push(step).unwrap();
        Ok(())
    }

    /// Takes the last step, and returns it with its byte if it is a bare name.
    pub(crate) fn pop_name(&mut self) -> Option<(&'a [u8], usize)>
        ensures { MatchOption result (last_name (map step_in self.old.steps.items) ≡ None)
            (λ x. map step_in self.old.steps.items
            ≡ map step_in self.new.steps.items ++ (operand (name x.0.now) ∷ [])) }
    {
        let Some(step) = self.steps.pop() else {
            return None;
        };
        let place = self.places.pop().unwrap_or(0);
        match name_of(step) {
            Some(name) => Some((name, place)),
            None => None,
        }
    }
}
