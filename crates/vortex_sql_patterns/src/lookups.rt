//! What the rows of a call ask for.
ghost use Rattle.std.specs.Prelude.{◌≡◌, map, option_map};
ghost use Rattle.vortex_columns.specs.Cells.{cell_value};
ghost use Rattle.vortex_sql_rows.specs.Shapes as shapes;
ghost use Rattle.vortex_sql_patterns.specs.RegexpExtract.{all_three, extract_asks};
ghost use Rattle.vortex_sql_patterns.specs.Lookups.{lookup_in};

use crate::functions::PatternFunction;
use vortex_columns::Cell;
use vortex_sql_rows::cells::{int_in, text_in};

/// What the rows of a call ask for.
#[derive(Clone, Copy)]
pub(crate) enum Lookup {
    /// A function of a text and a pattern.
    Function(PatternFunction),
    /// What the group of a number takes, of a text and a pattern.
    Group,
}

/// The number of a group.
#[derive(Clone, Copy)]
pub(crate) struct GroupNumber {
    pub(crate) number: i128,
}

/// The texts of a row of two cells.
fn both_texts<'a>(cells: &[Cell<'a>]) -> Option<(&'a str, &'a str)>
    ensures { option_map (λ x. (x.0.now, x.1.now)) result
        ≡ shapes.both_texts (map cell_value cells.now) }
{
    let [a, b] = cells else {
        return None;
    };
    match (text_in(a), text_in(b)) {
        (Some(a), Some(b)) => Some((a, b)),
        (Some(_), None) => None,
        (None, _) => None,
    }
}

/// Two texts and a number.
fn all_three<'a>(
    text: &Cell<'a>,
    pattern: &Cell<'a>,
    number: &Cell<'_>,
) -> Option<(&'a str, &'a str, GroupNumber)>
    ensures { option_map (λ x. (x.0.now, x.1.now, x.2.number)) result
        ≡ all_three (shapes.text_in (cell_value text.now))
        (shapes.text_in (cell_value pattern.now)) (shapes.number_in (cell_value number.now)) }
{
    let Some(text) = text_in(text) else {
        return None;
    };
    let Some(pattern) = text_in(pattern) else {
        return None;
    };
    let Some(number) = int_in(number) else {
        return None;
    };
    Some((text, pattern, GroupNumber { number }))
}

/// The texts and the number of a row of three cells.
fn three_in<'a>(cells: &[Cell<'a>]) -> Option<(&'a str, &'a str, GroupNumber)>
    ensures { option_map (λ x. (x.0.now, x.1.now, x.2.number)) result
        ≡ extract_asks (map cell_value cells.now) }
{
    match cells {
        [text, pattern, number] => all_three(text, pattern, number),
        [] => None,
        [_] => None,
        [_, _] => None,
        [_, _, _, _, ..] => None,
    }
}

/// The text, the pattern and the number of a row, which is 0 where it has none.
pub(crate) fn lookup_in<'a>(
    lookup: Lookup,
    cells: &[Cell<'a>],
) -> Option<(&'a str, &'a str, GroupNumber)>
    ensures { option_map (λ x. (x.0.now, x.1.now, x.2.number)) result
        ≡ lookup_in lookup (map cell_value cells.now) }
{
    match lookup {
        Lookup::Function(_) => match both_texts(cells) {
            Some((text, pattern)) => Some((text, pattern, GroupNumber { number: 0 })),
            None => None,
        },
        Lookup::Group => three_in(cells),
    }
}
