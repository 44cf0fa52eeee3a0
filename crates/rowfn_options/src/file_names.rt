//! What the name of the file of the rows says.
ghost use Rattle.std.specs.Prelude.{◌≡◌, ◌↔◌, IfSome, IsTrue};
ghost use Rattle.rowfn_options.specs.Fields.{MayPart};
ghost use Rattle.rowfn_options.specs.FileNames.{EndsAs, IsTabbed};

use clap::ArgMatches;

/// Whether a name ends with that text, whatever the case of its letters.
fn ends_as(name: &str, end: &[u8]) -> bool
    ensures { IsTrue result ↔ EndsAs end.now name.now }
{
    let name = name.as_bytes();
    let last = &name[name.len().saturating_sub(end.len())..];
    last.eq_ignore_ascii_case(end)
}

/// Whether a file of that name has tabs between fields.
fn is_tabbed(name: &str) -> bool
    ensures { IsTrue result ↔ IsTabbed name.now }
{
    ends_as(name, b".tsv") || ends_as(name, b".tab")
}

/// Whether a word has neither a blank nor a quote, so that it may be a path and no expression.
pub(crate) fn is_bare_word(word: &str) -> bool {
    word.as_bytes()
        .iter()
        .all(|byte| !matches!(*byte, b' ' | b'\'' | b'"'))
}

/// The word that names the file of the rows, if one does. Next to a condition alone the first one
/// may.
fn rows_word<'a>(matches: &ArgMatches<'a>) -> Option<&'a str> {
    let named = matches.get_str("input").or(matches.get_str("input-file"));
    if named.is_some() {
        return named;
    }
    let word = matches.get_str("expression");
    if matches.contains_id("file") {
        return word;
    }
    word.filter(|word| matches.contains_id("where") && is_bare_word(word))
}

/// The byte between two fields where no option says it: a tab in a file whose name says so, else a
/// comma.
pub(crate) fn usual_delimiter(matches: &ArgMatches<'_>) -> u8
    ensures { MayPart result }
{
    match rows_word(matches) {
        Some(name) if is_tabbed(name) => b'\t',
        _ => b',',
    }
}
