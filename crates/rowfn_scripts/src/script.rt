//! Runs a script.
ghost use Rattle.std.specs.Prelude.{◌≡◌};
ghost use Rattle.vortex_interface.specs.ValidityRules.{default_rules};
ghost use Rattle.vortex_functions.specs.Fixed.{fixed_meaning};
ghost use Rattle.vortex_functions.specs.declared.custom.NoCustom.{NoCustom};
ghost use Rattle.vortex_interface.specs.declared.options.EmptyOptions.{EmptyOptions};
ghost use Rattle.rowfn_scripts.specs.Sessions.{fresh};
ghost use Rattle.rowfn_scripts.specs.Scripts.{IsOutcome};
ghost use Rattle.rowfn_scripts.specs.Stepping.{script_meaning, script_rules};

use crate::ending::End;
use crate::session::Session;
use rowfn_lines::lines;
use std::alloc::Global;
use vortex_columns::VortexError;

/// What a script prints, and how it ends.
#[derive(Drop)]
pub struct Outcome {
    /// The printed lines.
    pub out: Vec<u8>,
    /// How the script ends.
    pub ending: End,
}

/// Runs the lines one by one, up to the first that does not continue.
fn read_lines(alloc: Global, script: &[u8], session: &mut Session) -> End
    requires { session.old ≡ fresh }
    ensures { IsOutcome script_meaning script_rules script.now session.new.printed result }
{
    let Ok(lines) = lines(alloc, script) else {
        return End::Refused(VortexError::OutOfMemory);
    };
    for (i, line) in lines.iter().enumerate() {
        if let Err(stop) = session.read_line(alloc, line) {
            return stop.ending(i + 1);
        }
    }
    End::Done
}

/// Runs a script.
///
/// A line ends at a newline or with the script. Spaces at its ends are ignored; a line without
/// words, or that then begins with `#`, does nothing. Words are between spaces, and one that
/// begins with `"` runs to the next `"`, may hold spaces, and has no escapes.
///
/// - `rows n`, first and once: that many rows, by at most six digits.
/// - `col name type cells`: a column of n cells. A name has ASCII letters, digits and `_`. Types
///   are `bool`, `i8` to `i64`, `u8` to `u64` and `utf8`, nullable with a `?` at the end; cells are
///   `null`, `true`, `false`, decimal numbers with a minus sign or without, and texts in quotes, of
///   at most 4,294,967,295 bytes.
/// - `get name` pushes the column's leaf, and `lit type cell` a literal.
/// - `call f` calls `and`, `or`, `=`, `!=`, `<`, `<=`, `>`, `>=`, `+`, `-`, `*` or `/` on the last
///   two trees, the last on the right, or `not`, `is_null`, `is_not_null` or `cast` on the
///   last one; or `between` and two words, each `<` or `<=`, on the last three: a value, its lower
///   bound by the first, its upper bound by the second; or `like`, `not_like`, `ilike` or
///   `not_ilike` on the last two: a text, and its pattern on the right. E3 if it does not accept
///   their types.
/// - `show` prints the last tree's text, and `run` its column: the type, a colon, and each cell
///   after a space. E7 if in some row two numbers have no result that their type holds.
/// - `optimize` replaces the last tree by the result of `optimize_recursive`, with its weight as
///   the limit, and prints `steps`, their number, `done`, and whether no rule is left.
/// - `run k` prints the column that `run` of `vortex_rewriting` returns with the limit k; the
///   tree is unchanged. E7 as for `run`, of the tree that the rules make.
///
/// Any other line is malformed. docs/SCRIPTS.md has every line with an example.
///
/// The script ends at the first line that is malformed or whose call fails; E11 for `get` of an
/// unknown name. The output of the lines before it is kept. E9 where memory runs out, at any line.
pub fn interpret(alloc: Global, script: &[u8]) -> Outcome
    ensures { IsOutcome {V = NoCustom} {O = EmptyOptions} fixed_meaning
        (default_rules fixed_meaning) script.now result.out.items result.ending }
{
    let mut session = Session::new(alloc);
    let ending = read_lines(alloc, script, &mut session);
    Outcome {
        out: session.into_out(),
        ending,
    }
}
