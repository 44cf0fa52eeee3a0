//! Texts in one, where nulls are passed over: `concat`.
ghost use Rattle.std.specs.Prelude.{◌≡◌, map, string_bytes};
ghost use Rattle.vortex_errors.specs.Answers.{Answers};
ghost use Rattle.vortex_columns.specs.Cells.{cell_value};
ghost use Rattle.vortex_sql_texts.specs.Concats.{concat_all_lawful, concat_all_row, texts_of};
ghost use Rattle.vortex_sql_texts.specs.MadeTexts.{IsTooLong};

use crate::made::{push_text, text_or_fault};
use std::alloc::Global;
use vortex_columns::{Arity, Cell, PType, VortexResult};
use vortex_sql_rows::cells::text_in;
use vortex_sql_rows::row::{Signature, TextFn};
use vortex_sql_rows::types::{Gives, Kind, Nulls, Takes, Types};

/// `concat(a, ..)`
pub struct ConcatAll;

/// The texts in one; a fault once it is too long.
fn texts_of(alloc: Global, cells: &[Cell<'_>]) -> VortexResult<String>
    ensures { Answers result (λ made. string_bytes made ≡ texts_of (map cell_value cells.now))
        (IsTooLong (texts_of (map cell_value cells.now))) }
{
    let mut made = String::new(alloc);
    for cell in cells {
        push_text(&mut made, text_in(cell).unwrap_or(""))?;
    }
    Ok(made)
}

impl TextFn for ConcatAll {
    ghost about = { λ f. concat_all_row };

    fn signature(&self) -> Signature {
        Signature {
            id: "sql.concat",
            arity: Arity::Variadic { min: 1, max: None },
            types: Types {
                takes: Takes::Alike(Kind::Text),
                nulls: Nulls::Never,
                gives: Gives::Text,
            },
            is_strict: false,
            is_infallible: false,
        }
    }

    #[tactic(auto, using(crate::proofs::TextRoom::too_long_rows))]
    fn make(
        &self,
        alloc: Global,
        _ptype: PType,
        cells: &[Cell<'_>],
    ) -> VortexResult<Option<String>> {
        match texts_of(alloc, cells) {
            Ok(made) => text_or_fault(made),
            Err(error) => Err(error),
        }
    }

    ghost lawful = { λ f. concat_all_lawful };
}
