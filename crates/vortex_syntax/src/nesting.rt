//! How deep brackets nest.
ghost use Rattle.std.specs.Prelude.{◌≡◌, map, is_none, IfSome};
ghost use Rattle.vortex_syntax.specs.Tokens.{token_in};
ghost use Rattle.vortex_syntax.specs.Nesting.{nests};
ghost use Rattle.vortex_syntax.specs.Refusals.{NestsTooDeepAt};

use crate::token::{Sign, Token};

/// How deep brackets may nest.
pub const DEPTH: usize = 1000;

/// The number of the token at which brackets nest too deep.
pub(crate) fn too_deep(tokens: &[Token<'_>]) -> Option<usize>
    ensures nests { is_none result ≡ nests (map token_in tokens.now) }
    ensures first { IfSome result (NestsTooDeepAt (map token_in tokens.now)) }
{
    let mut depth = 0usize;
    for (i, token) in tokens.iter().enumerate() {
        match token {
            Token::Sign(Sign::Open) => {
                if depth == DEPTH {
                    return Some(i);
                }
                depth += 1;
            }
            Token::Function(_) => {
                if depth == DEPTH {
                    return Some(i);
                }
                depth += 1;
            }
            Token::Sign(Sign::Close) => {
                if depth == 0 {
                    return None;
                }
                depth -= 1;
            }
            _ => {}
        }
    }
    None
}
