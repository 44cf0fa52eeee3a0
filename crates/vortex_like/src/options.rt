//! The options of a LIKE.

use std::fmt;

/// Whether a LIKE is negated, whether it ignores case, and the escape of its patterns, if there is
/// one. By default neither, and the backslash.
#[derive(Clone, Copy, Debug, PartialEq, Eq, Hash)]
pub struct LikeOptions {
    pub negated: bool,
    pub case_insensitive: bool,
    pub escape: Option<char>,
}

impl Default for LikeOptions {
    ghost use Rattle.vortex_like.specs.Options.{default_options};
    ghost use Rattle.std.specs.Prelude.{◌≡◌};

    ghost is_default = { λ options. options ≡ default_options };

    fn default() -> LikeOptions {
        LikeOptions {
            negated: false,
            case_insensitive: false,
            escape: Some('\\'),
        }
    }
}

/// `LIKE`, `NOT LIKE`, `ILIKE` or `NOT ILIKE`; then ` ESCAPE '!'` for an escape other than the
/// backslash, with that character unchanged, or ` ESCAPE ''` for none.
impl fmt::Display for LikeOptions {
    ghost use Rattle.std.specs.Prelude.{Some};
    ghost use Rattle.vortex_like.specs.Options.{options_text};

    ghost output = { λ options. Some (options_text options) };

    fn fmt<W: fmt::Write>(&self, f: &mut fmt::Formatter<W>) -> fmt::Result {
        let text = match (self.negated, self.case_insensitive) {
            (false, false) => "LIKE",
            (true, false) => "NOT LIKE",
            (false, true) => "ILIKE",
            (true, true) => "NOT ILIKE",
        };
        match self.escape {
            Some('\\') => write!(f, "{text}"),
            Some(c) => write!(f, "{text} ESCAPE '{c}'"),
            None => write!(f, "{text} ESCAPE ''"),
        }
    }
}
