//! Reading tokens from left to right.
ghost use Rattle.std.specs.Prelude.{◌≡◌, map, option_map, IfOk, IfErr, MatchResult, Some};
ghost use Rattle.std.specs.Prelude.{None};
ghost use Rattle.vortex_syntax.specs.Tokens.{token_in};
ghost use Rattle.vortex_syntax.specs.Postfix.{step_in};
ghost use Rattle.vortex_syntax.specs.Reading as specs;
ghost use Rattle.vortex_syntax.specs.Reading.{frames_in, steps_in, Gives, steps_of};
ghost use Rattle.vortex_syntax.specs.Errors.{UnlessMemory};
ghost use Rattle.vortex_syntax.specs.Refusals.{TreeStopsAt, NamesPlace};

use crate::error::SyntaxError;
use crate::frame::Mode;
use crate::levels::{ATOM, OR};
use crate::places::TokenPlaces;
use crate::reading::Reading;
use crate::token::Token;
use crate::tree::SyntaxTree;
use std::alloc::{AllocError, Global};

/// Where a token is reported: its own byte, unless it belongs to an earlier token.
fn reported_at(mode: Mode, before: usize, place: usize) -> usize {
    match mode {
        Mode::Signed
        | Mode::Is(_)
        | Mode::Distinct(_)
        | Mode::Listing(_)
        | Mode::Negating(_)
        | Mode::Escaping(_) => before,
        _ => place,
    }
}

impl<'a> Reading<'a> {
    /// What the next token, at that byte, does to what is read.
    #[tactic(auto, unfolding(crate::specs::Reading::next))]
    fn next(
        &mut self,
        mode: Mode,
        token: Token<'a>,
        place: usize,
    ) -> Result<Option<Mode>, AllocError>
        ensures { Gives result self.new
            (specs.next mode (frames_in self.old) (steps_in self.old) (token_in token.entry)) }
    {
        self.at = reported_at(mode, self.at, place);
        match mode {
            Mode::Want => self.before_operand(token),
            Mode::Signed => self.signed(token, place),
            Mode::Have(level) => self.behind(level, token),
            Mode::Named => self.after_name(token),
            Mode::Unit => self.unit_expected(token),
            Mode::Typing => self.type_expected(token),
            Mode::Is(negated) => self.after_is(negated, token),
            Mode::Distinct(negated) => self.after_distinct(negated, token),
            Mode::Listing(negated) => self.after_in(negated, token),
            Mode::Negating(level) => self.negating(level, token),
            Mode::Converting(level) => self.conversion_expected(level, token),
            Mode::Casting(tried) => self.after_cast(tried, token),
            Mode::CastType(tried) => self.cast_expected(tried, token),
            Mode::CastEnd => self.after_cast_type(token),
            Mode::Escaping(kind) => self.after_escape(kind, token),
        }
    }

    /// The tree, where the tokens end.
    #[tactic(auto, unfolding(crate::specs::Reading::finish))]
    fn finish(mut self, mode: Mode) -> Result<Option<SyntaxTree<'a>>, AllocError>
        ensures { IfOk result (λ r. option_map (λ v. map step_in v.steps.items) r
            ≡ specs.finish mode (frames_in self.entry) (steps_in self.entry)) }
    {
        let level = match mode {
            Mode::Have(level) => level,
            Mode::Named => ATOM,
            _ => return Ok(None),
        };
        let _level = self.settle(OR, level)?;
        if self.frames.is_empty() {
            Ok(Some(self.tree))
        } else {
            Ok(None)
        }
    }
}

/// The tree that the tokens spell; else the first token with which none continues, by its byte.
pub(crate) fn read_steps<'a>(
    alloc: Global,
    tokens: &[Token<'a>],
    places: TokenPlaces<'_>,
) -> Result<SyntaxTree<'a>, SyntaxError>
    ensures read { MatchResult result
        (λ v. steps_of (map token_in tokens.now) ≡ Some (map step_in v.steps.items))
        (UnlessMemory (steps_of (map token_in tokens.now) ≡ None)) }
    ensures refused { IfErr result
        (NamesPlace (TreeStopsAt (map token_in tokens.now)) places.entry) }
{
    let mut reading = Reading::new(alloc);
    let mut mode = Mode::Want;
    for (i, token) in tokens.iter().enumerate() {
        let place = places.byte(i);
        let Some(next) = reading.next(mode, *token, place)? else {
            let expected = reading.expected(mode, Some(*token), places.behind);
            return Err(SyntaxError::Unexpected(place, expected));
        };
        mode = next;
    }
    let expected = reading.expected(mode, None, places.behind);
    match reading.finish(mode)? {
        Some(tree) => Ok(tree),
        None => Err(SyntaxError::Unexpected(places.byte(tokens.len()), expected)),
    }
}
