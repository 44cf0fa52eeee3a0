//! LIKE and ILIKE, as functions of trees.
ghost use Rattle.std.specs.Prelude.{◌≡◌};
ghost use Rattle.vortex_functions.specs.Words.{like_word};

use crate::erased::ScalarFnRef;
use crate::ext::ScalarFnVTableExt;
use vortex_interface::ScalarFnVTable;
use vortex_like::LikeOptions;
use vortex_shipped::Like;

/// The options that a word of a script names: `like`, `not_like`, `ilike`, `not_ilike`, each with
/// backslash escape.
fn like_word(word: &str) -> Option<LikeOptions>
    ensures { result ≡ like_word word.now }
{
    let (negated, case_insensitive) = if word == "like" {
        (false, false)
    } else if word == "not_like" {
        (true, false)
    } else if word == "ilike" {
        (false, true)
    } else if word == "not_ilike" {
        (true, true)
    } else {
        return None;
    };
    Some(LikeOptions {
        negated,
        case_insensitive,
        escape: Some('\\'),
    })
}

impl ScalarFnVTableExt for Like {
    ghost use Rattle.std.specs.Option.{option_map};
    ghost use Rattle.vortex_interface.specs.Shipped as shipped;
    ghost use Rattle.vortex_functions.specs.Words.{like_named};

    ghost ships = { shipped.Like };

    ghost names = { λ words. option_map shipped.Like (like_named words) };

    fn bind<C: ScalarFnVTable>(&self, options: LikeOptions) -> ScalarFnRef<C> {
        ScalarFnRef::Like(options)
    }

    fn named(&self, words: &[&str]) -> Option<LikeOptions> {
        match words {
            [word] => like_word(word),
            _ => None,
        }
    }
}
