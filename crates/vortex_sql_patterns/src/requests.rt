//! What a row of `regexp_replace` asks for.
ghost use Rattle.std.specs.Prelude.{◌≡◌, map, option_map};
ghost use Rattle.vortex_columns.specs.Cells.{cell_value};
ghost use Rattle.vortex_sql_rows.specs.Shapes as shapes;
ghost use Rattle.vortex_sql_patterns.specs.RegexpReplace.{asked_by, asked_in, asks, asks_by};

use vortex_columns::Cell;
use vortex_sql_rows::cells::text_in;

/// What a row asks for.
#[derive(Clone, Copy)]
pub(crate) struct Request<'a> {
    /// Empty where the row has none.
    pub(crate) flags: &'a str,
    pub(crate) text: &'a str,
    pub(crate) pattern: &'a str,
    /// The replacement.
    pub(crate) other: &'a str,
}

/// The request of three cells.
fn request_with<'a>(
    flags: &'a str,
    text: &Cell<'a>,
    pattern: &Cell<'a>,
    other: &Cell<'a>,
) -> Option<Request<'a>>
    ensures { option_map asked_by result ≡ asks flags.now (shapes.text_in (cell_value text.now))
        (shapes.text_in (cell_value pattern.now)) (shapes.text_in (cell_value other.now)) }
{
    let Some(text) = text_in(text) else {
        return None;
    };
    let Some(pattern) = text_in(pattern) else {
        return None;
    };
    let Some(other) = text_in(other) else {
        return None;
    };
    Some(Request {
        flags,
        text,
        pattern,
        other,
    })
}

/// The request of four cells.
fn request_by<'a>(
    flags: &Cell<'a>,
    text: &Cell<'a>,
    pattern: &Cell<'a>,
    other: &Cell<'a>,
) -> Option<Request<'a>>
    ensures { option_map asked_by result ≡ asks_by (shapes.text_in (cell_value flags.now))
        (shapes.text_in (cell_value text.now)) (shapes.text_in (cell_value pattern.now))
        (shapes.text_in (cell_value other.now)) }
{
    match text_in(flags) {
        Some(flags) => request_with(flags, text, pattern, other),
        None => None,
    }
}

/// What a row asks for; none where it is no row of texts.
pub(crate) fn request_in<'a>(cells: &[Cell<'a>]) -> Option<Request<'a>>
    ensures { option_map asked_by result ≡ asked_in (map cell_value cells.now) }
{
    match cells {
        [text, pattern, other] => request_with("", text, pattern, other),
        [text, pattern, other, flags] => request_by(flags, text, pattern, other),
        [] => None,
        [_] => None,
        [_, _] => None,
        [_, _, _, _, _, ..] => None,
    }
}
