//! The casts that may fault, tried.
ghost use Rattle.vortex_sql_try_casts.specs.TryCasts.{try_cast_id, try_text_id, try_truth_id};
ghost use Rattle.vortex_sql_try_casts.specs.TryCasts.{may_try_cast, may_try_text, may_try_truth};
ghost use Rattle.vortex_sql_try_casts.specs.TryCasts.{try_float_id, may_try_float};
ghost use Rattle.std.specs.Prelude.{◌≡◌};

use crate::try_fn::Tried;
use vortex_columns::PType;
use vortex_interface::ScalarFnId;
use vortex_sql_floats::integers::FloatToInt;
use vortex_sql_numbers::integer_casts::Cast;
use vortex_sql_texts::text_casts::{TextToInt, TextToTruth};

fn try_cast_id(ptype: PType) -> ScalarFnId
    ensures { result.now ≡ try_cast_id ptype }
{
    match ptype {
        PType::I8 => "sql.try_to_i8",
        PType::I16 => "sql.try_to_i16",
        PType::I32 => "sql.try_to_i32",
        PType::I64 => "sql.try_to_i64",
        PType::U8 => "sql.try_to_u8",
        PType::U16 => "sql.try_to_u16",
        PType::U32 => "sql.try_to_u32",
        PType::U64 => "sql.try_to_u64",
    }
}

/// Null where the type does not have the integer.
impl Tried for Cast {
    ghost tried_id = { λ f. try_cast_id f.ptype };

    fn tried_id(&self) -> ScalarFnId {
        try_cast_id(self.ptype)
    }

    ghost may_try = { λ f. may_try_cast f.ptype };
}

fn try_text_id(ptype: PType) -> ScalarFnId
    ensures { result.now ≡ try_text_id ptype }
{
    match ptype {
        PType::I8 => "sql.try_utf8_to_i8",
        PType::I16 => "sql.try_utf8_to_i16",
        PType::I32 => "sql.try_utf8_to_i32",
        PType::I64 => "sql.try_utf8_to_i64",
        PType::U8 => "sql.try_utf8_to_u8",
        PType::U16 => "sql.try_utf8_to_u16",
        PType::U32 => "sql.try_utf8_to_u32",
        PType::U64 => "sql.try_utf8_to_u64",
    }
}

/// Null where the text is no number of the type.
impl Tried for TextToInt {
    ghost tried_id = { λ f. try_text_id f.ptype };

    fn tried_id(&self) -> ScalarFnId {
        try_text_id(self.ptype)
    }

    ghost may_try = { λ f. may_try_text f.ptype };
}

fn try_float_id(ptype: PType) -> ScalarFnId
    ensures { result.now ≡ try_float_id ptype }
{
    match ptype {
        PType::I8 => "sql.try_float_to_i8",
        PType::I16 => "sql.try_float_to_i16",
        PType::I32 => "sql.try_float_to_i32",
        PType::I64 => "sql.try_float_to_i64",
        PType::U8 => "sql.try_float_to_u8",
        PType::U16 => "sql.try_float_to_u16",
        PType::U32 => "sql.try_float_to_u32",
        PType::U64 => "sql.try_float_to_u64",
    }
}

/// Null where the type does not have the nearest integer.
impl Tried for FloatToInt {
    ghost tried_id = { λ f. try_float_id f.ptype };

    fn tried_id(&self) -> ScalarFnId {
        try_float_id(self.ptype)
    }

    ghost may_try = { λ f. may_try_float f.ptype };
}

/// Null where the text is no truth value.
impl Tried for TextToTruth {
    ghost tried_id = { λ f. try_truth_id };

    fn tried_id(&self) -> ScalarFnId {
        "sql.try_utf8_to_bool"
    }

    ghost may_try = { λ f. may_try_truth };
}
