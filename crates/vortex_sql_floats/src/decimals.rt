//! Decimals, integers at a scale, as floats of 64 bits.
ghost use Rattle.std.specs.Prelude.{◌≡◌, neg_ℤ, pos};
ghost use Rattle.vortex_sql_rows.specs.AnsweredRows.{AnswersRow};
ghost use Rattle.vortex_sql_floats.specs.Decimals.{decimal_float, decimal_id, decimal_lawful};
ghost use Rattle.vortex_sql_floats.specs.Decimals.{decimal_row, from_decimal};

use crate::keys::{float_cell, key_in, other_values};
use vortex_columns::{Cell, PType, VortexResult};
use vortex_interface::ScalarFnId;
use vortex_sql_rows::cells::only_int;
use vortex_sql_rows::row::{RowFn, Signature};
use vortex_sql_rows::types::{Gives, Kind, Takes};

/// A decimal as the nearest float, rounded once. Decimal kinds have scales from 0 to 18.
#[derive(Clone, Copy, Debug, PartialEq, Eq)]
pub struct DecimalToFloat {
    /// How many digits of the stored integer are after the point.
    pub scale: u8,
}

fn exponent_of(scale: u8) -> i64
    ensures { result ≡ neg_ℤ (pos scale) }
{
    -i64::from(scale)
}

/// The float nearest to the number over 10 to the power of the scale.
#[tactic(auto, using(crate::proofs::NearestDecimals::nearest_is))]
fn decimal_float(scale: u8, number: i64) -> f64
    ensures { result ≡ decimal_float scale number }
{
    fast_float::from_parts::<f64>(number < 0, number.unsigned_abs(), exponent_of(scale))
}

fn from_decimal<'a>(scale: u8, number: i128) -> VortexResult<Cell<'a>>
    ensures { AnswersRow (from_decimal scale number) result }
{
    match key_in(number) {
        Some(number) => float_cell(decimal_float(scale, number)),
        None => other_values(),
    }
}

fn decimal_id(scale: u8) -> ScalarFnId
    ensures { result.now ≡ decimal_id scale }
{
    match scale {
        0 => "sql.decimal_0_to_float",
        1 => "sql.decimal_1_to_float",
        2 => "sql.decimal_2_to_float",
        3 => "sql.decimal_3_to_float",
        4 => "sql.decimal_4_to_float",
        5 => "sql.decimal_5_to_float",
        6 => "sql.decimal_6_to_float",
        7 => "sql.decimal_7_to_float",
        8 => "sql.decimal_8_to_float",
        9 => "sql.decimal_9_to_float",
        10 => "sql.decimal_10_to_float",
        11 => "sql.decimal_11_to_float",
        12 => "sql.decimal_12_to_float",
        13 => "sql.decimal_13_to_float",
        14 => "sql.decimal_14_to_float",
        15 => "sql.decimal_15_to_float",
        16 => "sql.decimal_16_to_float",
        17 => "sql.decimal_17_to_float",
        18 => "sql.decimal_18_to_float",
        _ => "sql.decimal_to_float",
    }
}

impl RowFn for DecimalToFloat {
    ghost about = { λ f. decimal_row f.scale };

    fn signature(&self) -> Signature {
        Signature::strict(
            decimal_id(self.scale),
            1,
            Takes::Alike(Kind::Within(PType::I64)),
            Gives::Integer(PType::I64),
            true,
        )
    }

    fn answer<'a>(&self, _ptype: PType, cells: &[Cell<'a>]) -> VortexResult<Cell<'a>> {
        match only_int(cells) {
            Some(a) => from_decimal(self.scale, a),
            None => Ok(Cell::Null),
        }
    }

    ghost lawful = { λ f. decimal_lawful f.scale };
}
