//! The casts to values of kinds that may fault, tried.
ghost use Rattle.std.specs.Prelude.{◌≡◌};
ghost use Rattle.vortex_sql_kind_texts.specs.Tried as specs;

use crate::float_decimals::FloatToDecimal;
use crate::from_texts::{TextToDecimal, TextToKind};
use crate::kinds::StoredKind;
use crate::scales::DecimalScaled;
use vortex_interface::ScalarFnId;
use vortex_sql_try_casts::try_fn::Tried;

fn try_text_id(stored: StoredKind) -> ScalarFnId
    ensures { result.now ≡ specs.try_text_id stored }
{
    match stored {
        StoredKind::Date => "sql.try_utf8_to_date",
        StoredKind::Timestamp => "sql.try_utf8_to_timestamp",
        StoredKind::F64 => "sql.try_utf8_to_f64",
        StoredKind::F32 => "sql.try_utf8_to_f32",
    }
}

/// Null where the text is none of the kind.
impl Tried for TextToKind {
    ghost tried_id = { λ f. specs.try_text_id f.kind };

    fn tried_id(&self) -> ScalarFnId {
        try_text_id(self.kind)
    }

    ghost may_try = { λ f. specs.may_try_text f.kind };
}

/// Null where the text is no decimal of the digits, and where there are no such digits.
impl Tried for TextToDecimal {
    ghost tried_id = { λ f. specs.try_decimal_id };

    fn tried_id(&self) -> ScalarFnId {
        "sql.try_utf8_to_decimal"
    }

    ghost may_try = { λ f. specs.may_try_decimal };
}

/// Null where the decimal does not have the number.
impl Tried for DecimalScaled {
    ghost tried_id = { λ f. specs.try_scaled_id };

    fn tried_id(&self) -> ScalarFnId {
        "sql.try_decimal_scaled"
    }

    ghost may_try = { λ f. specs.may_try_scaled };
}

/// Null where the decimal does not have the float, and of a NaN and an infinity.
impl Tried for FloatToDecimal {
    ghost tried_id = { λ f. specs.try_float_id };

    fn tried_id(&self) -> ScalarFnId {
        "sql.try_float_to_decimal"
    }

    ghost may_try = { λ f. specs.may_try_float };
}
