//! Functions by their rows: what a function says of itself, and its result in one row.
ghost use Rattle.std.specs.Prelude.{◌≡◌, ◌&&◌, true, map, All};
ghost use Rattle.std.specs.List.{list_any};
ghost use Rattle.vortex_errors.specs.declared.arity.Arity.TheVariants.{Exact};
ghost use Rattle.vortex_types.specs.Values.{is_null};
ghost use Rattle.vortex_columns.specs.Cells.{cell_value, IsCell};
ghost use Rattle.vortex_sql_rows.specs.AnsweredRows.{AnswersRow, MakesRow};
ghost use Rattle.vortex_sql_rows.specs.Row.{Row, LawfulRow, row_gives};
ghost use Rattle.vortex_sql_rows.specs.Shapes.{strict_types};
ghost use Rattle.vortex_sql_rows.specs.Signatures.{Describes};

use crate::cells::is_null;
use crate::types::{Gives, Nulls, Takes, Types};
use std::alloc::Global;
use vortex_columns::{Arity, Cell, PType, VortexResult};
use vortex_interface::ScalarFnId;

/// What a function says of itself.
#[derive(Clone, Copy)]
pub struct Signature {
    /// The identity, as `sql.coalesce`.
    pub id: ScalarFnId,
    pub arity: Arity,
    pub types: Types,
    /// Whether a null argument makes the result null. The function then sees no null.
    pub is_strict: bool,
    pub is_infallible: bool,
}

impl Signature {
    /// A strict function of that many arguments.
    pub fn strict(
        id: ScalarFnId,
        count: usize,
        takes: Takes,
        gives: Gives,
        is_infallible: bool,
    ) -> Signature
        ensures id { result.id.now ≡ id.now }
        ensures arity { result.arity ≡ Exact count }
        ensures types { result.types ≡ strict_types takes gives }
        ensures strict { result.is_strict ≡ true }
        ensures infallible { result.is_infallible ≡ is_infallible }
    {
        Signature {
            id,
            arity: Arity::Exact(count),
            types: Types {
                takes,
                nulls: Nulls::WhereAny,
                gives,
            },
            is_strict: true,
            is_infallible,
        }
    }
}

/// A function whose results are cells.
pub trait RowFn {
    ghost about: { Self → Row };

    fn signature(&self) -> Signature
        ensures { Describes (about self.now) result };

    /// The value of one row, or its fault. `ptype` is the integer type of the argument that the
    /// result's type goes by, or `I64` where that is no integer.
    fn answer<'a>(&self, ptype: PType, cells: &[Cell<'a>]) -> VortexResult<Cell<'a>>
        requires { All IsCell cells.now }
        ensures { AnswersRow ((about self.now).of ptype (map cell_value cells.now)) result };

    ghost lawful: { (f : Self) → LawfulRow (about f) };
}

/// A function whose results are texts that it makes.
pub trait TextFn {
    ghost about: { Self → Row };

    fn signature(&self) -> Signature
        ensures { Describes (about self.now) result };

    /// The text of one row, or none for null; or the row's fault.
    fn make(&self, alloc: Global, ptype: PType, cells: &[Cell<'_>]) -> VortexResult<Option<String>>
        requires { All IsCell cells.now }
        ensures { MakesRow ((about self.now).of ptype (map cell_value cells.now)) result };

    ghost lawful: { (f : Self) → LawfulRow (about f) };
}

/// Whether a cell is null.
pub fn any_null(cells: &[Cell<'_>]) -> bool
    ensures { result ≡ list_any (λ c. is_null (cell_value c)) cells.now }
{
    for cell in cells {
        if is_null(cell) {
            return true;
        }
    }
    false
}

/// Whether the result is null because the function is strict and an argument is null.
#[tactic(auto, using(crate::proofs::Maps::any_map))]
fn is_null_row(strict: bool, cells: &[Cell<'_>]) -> bool
    ensures { result ≡ (strict && list_any is_null (map cell_value cells.now)) }
{
    strict && any_null(cells)
}

/// The value of one row, null included.
pub fn answer_row<'a, F: RowFn>(
    function: &F,
    ptype: PType,
    cells: &[Cell<'a>],
) -> VortexResult<Cell<'a>>
    requires { All IsCell cells.now }
    ensures { AnswersRow
        (row_gives (F.about function.now) ptype (map cell_value cells.now)) result }
{
    if is_null_row(function.signature().is_strict, cells) {
        return Ok(Cell::Null);
    }
    function.answer(ptype, cells)
}

/// The text of one row, null included.
pub fn make_row<F: TextFn>(
    alloc: Global,
    function: &F,
    ptype: PType,
    cells: &[Cell<'_>],
) -> VortexResult<Option<String>>
    requires { All IsCell cells.now }
    ensures { MakesRow (row_gives (F.about function.now) ptype (map cell_value cells.now)) result }
{
    if is_null_row(function.signature().is_strict, cells) {
        return Ok(None);
    }
    function.make(alloc, ptype, cells)
}
