//! Casts of floats to texts.
ghost use Rattle.std.specs.Prelude.{◌≡◌};
ghost use Rattle.vortex_sql_rows.specs.AnsweredRows.{MakesRow};
ghost use Rattle.vortex_sql_rows.specs.Integers.{checked};
ghost use Rattle.vortex_sql_kind_texts.specs.FloatTexts as specs;

use crate::cells::{no_text, stored_in};
use crate::to_texts::{bytes_or_fault, day_in};
use std::alloc::Global;
use vortex_columns::{Cell, PType, VortexResult};
use vortex_float_texts::texts::float_text;
use vortex_float_texts::width::Width;
use vortex_interface::ScalarFnId;
use vortex_sql_rows::cells::only_int;
use vortex_sql_rows::faults::RowFault;
use vortex_sql_rows::row::{Signature, TextFn};
use vortex_sql_rows::types::{Gives, Kind, Takes};

/// A cast of the integer that stands for a float to its text, as `2.5`, `1e20` and `NaN`: the fewest
/// digits that are read back as the float. The fault `OtherValues` where it stands for none.
#[derive(Clone, Copy, Debug, PartialEq, Eq)]
pub struct FloatToText {
    pub width: Width,
}

/// The type of the stored integers.
fn stored_type(width: Width) -> PType
    ensures { result ≡ specs.stored_type width }
{
    match width {
        Width::F64 => PType::I64,
        Width::F32 => PType::I32,
    }
}

/// The text of a stored integer, or the fault where it has none.
#[tactic(auto, unfolding(crate::specs::FloatTexts::made_text))]
fn made_text(alloc: Global, width: Width, number: i64) -> VortexResult<Option<String>>
    ensures { MakesRow (specs.made_text width number) result }
{
    match float_text(alloc, width, number)? {
        Some(bytes) => bytes_or_fault(bytes),
        None => no_text(RowFault::OtherValues),
    }
}

fn of_width(width: Width, number: i128) -> Option<i64>
    ensures { result ≡ checked (specs.stored_type width) number }
{
    match width {
        Width::F64 => stored_in(number),
        Width::F32 => day_in(number),
    }
}

fn number_text(alloc: Global, width: Width, number: i128) -> VortexResult<Option<String>>
    ensures { MakesRow (specs.number_text width number) result }
{
    match of_width(width, number) {
        Some(number) => made_text(alloc, width, number),
        None => no_text(RowFault::OtherValues),
    }
}

fn float_id(width: Width) -> ScalarFnId
    ensures { result.now ≡ specs.float_id width }
{
    match width {
        Width::F64 => "sql.f64_to_utf8",
        Width::F32 => "sql.f32_to_utf8",
    }
}

impl TextFn for FloatToText {
    ghost about = { λ f. specs.float_row f.width };

    fn signature(&self) -> Signature {
        Signature::strict(
            float_id(self.width),
            1,
            Takes::Alike(Kind::Within(stored_type(self.width))),
            Gives::Text,
            false,
        )
    }

    fn make(
        &self,
        alloc: Global,
        _ptype: PType,
        cells: &[Cell<'_>],
    ) -> VortexResult<Option<String>> {
        match only_int(cells) {
            Some(a) => number_text(alloc, self.width, a),
            None => Ok(None),
        }
    }

    ghost lawful = { λ f. specs.float_lawful f.width };
}
