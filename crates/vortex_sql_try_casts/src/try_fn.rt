//! A function that is tried: null where it faults.
ghost use Rattle.std.specs.Prelude.{◌≡◌, ℕ, List};
ghost use Rattle.vortex_sql_try_casts.specs.TriedRows.{MayTry, tried_row, tried_lawful};

use vortex_columns::{Cell, PType, VortexResult};
use vortex_interface::ScalarFnId;
use vortex_sql_rows::row::{RowFn, Signature};
use vortex_sql_rows::types::{Nulls, Types};

/// A function that may be tried.
pub trait Tried: RowFn {
    ghost tried_id: { Self → List ℕ };

    /// The identity of the function that tries this one.
    fn tried_id(&self) -> ScalarFnId
        ensures { result.now ≡ tried_id self.now };

    ghost may_try: { (f : Self) → MayTry (tried_id f) (Self.about f) };
}

/// Tries a function: its value, and null where it faults.
#[derive(Drop)]
pub struct Try<'f, F> {
    pub function: &'f F,
}

impl<'f, F: Tried> RowFn for Try<'f, F> {
    ghost about = { λ t. tried_row (F.tried_id t.function.now) (F.about t.function.now) };

    fn signature(&self) -> Signature {
        let tried = self.function.signature();
        Signature {
            id: self.function.tried_id(),
            arity: tried.arity,
            types: Types {
                takes: tried.types.takes,
                nulls: Nulls::Always,
                gives: tried.types.gives,
            },
            is_strict: tried.is_strict,
            is_infallible: true,
        }
    }

    fn answer<'a>(&self, ptype: PType, cells: &[Cell<'a>]) -> VortexResult<Cell<'a>> {
        match self.function.answer(ptype, cells) {
            Ok(value) => Ok(value),
            Err(_) => Ok(Cell::Null),
        }
    }

    ghost lawful = { λ t.
        tried_lawful (F.tried_id t.function.now) (F.about t.function.now)
        (F.may_try t.function.now) (F.lawful t.function.now) };
}
