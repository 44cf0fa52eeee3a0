//! The texts that are read by formats, tried.
ghost use Rattle.vortex_sql_date_formats.specs.TriedFormats as specs;

use crate::from_texts::{TextToDateBy, TextToTimestampBy};
use vortex_interface::ScalarFnId;
use vortex_sql_try_casts::try_fn::Tried;

/// Null where the text is no date by the format, and where the format is none that is taken.
impl Tried for TextToDateBy {
    ghost tried_id = { λ f. specs.try_date_id };

    fn tried_id(&self) -> ScalarFnId {
        "sql.try_date_by"
    }

    ghost may_try = { λ f. specs.may_try_date };
}

/// Null where the text is no timestamp by the format, and where the format is none that is taken.
impl Tried for TextToTimestampBy {
    ghost tried_id = { λ f. specs.try_timestamp_id };

    fn tried_id(&self) -> ScalarFnId {
        "sql.try_timestamp_by"
    }

    ghost may_try = { λ f. specs.may_try_timestamp };
}
