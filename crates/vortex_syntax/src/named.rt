//! Steps that are bare names.
ghost use Rattle.std.specs.Prelude.{◌≡◌, ◌∷◌, [], option_map};
ghost use Rattle.vortex_syntax.specs.Tokens.{token_in};
ghost use Rattle.vortex_syntax.specs.Postfix.{step_in, operand, last_name};

use crate::step::Step;
use crate::token::Token;

/// The name of a column without quotes.
#[tactic(auto, unfolding(crate::specs::Postfix::last_name))]
fn bare_name(token: Token<'_>) -> Option<&[u8]>
    ensures { option_map (λ w. w.now) result
        ≡ option_map (λ x. x.1) (last_name (operand (token_in token.entry) ∷ [])) }
{
    match token {
        Token::Name(name) => Some(name),
        _ => None,
    }
}

/// The name that is the step, if it is the column of a name without quotes.
#[tactic(auto, unfolding(crate::specs::Postfix::last_name))]
pub(crate) fn name_of(step: Step<'_>) -> Option<&[u8]>
    ensures { option_map (λ w. w.now) result
        ≡ option_map (λ x. x.1) (last_name (step_in step.entry ∷ [])) }
{
    match step {
        Step::Operand(token) => bare_name(token),
        _ => None,
    }
}
