//! The operators, each as a type of its own, so that each has a loop of its own.
ghost use Rattle.std.specs.Prelude.{◌≡◌, true, false};

use vortex_float_bits::{is_finite, is_zero};

/// An operator of two floats.
pub(crate) trait Operation {
    ghost use Rattle.std.specs.Prelude.{◌≡◌, true, is_nan, false};
    ghost use Rattle.vortex_float_bits.specs.FloatBits.{float_of};
    ghost use Rattle.vortex_sql_floats.specs.declared.floats.FloatOperator.{FloatOperator};
    ghost use Rattle.vortex_sql_floats.specs.FloatArithmetic.{applied};
    ghost use Rattle.vortex_sql_float_columns.specs.PlainRows.{is_plain, is_right_side, vanishes};

    ghost operator: { FloatOperator };

    /// The result, rounded once.
    fn applied(x: f64, y: f64) -> f64
        requires { is_plain operator x y ≡ true }
        ensures value { result ≡ applied operator x y }
        ensures number { is_nan result ≡ false };

    /// Whether the operator has a result for a finite left side and this right one.
    fn is_right_side(y: i64) -> bool
        ensures { result ≡ is_right_side operator (float_of y) };

    /// Whether a result of zero was rounded to zero.
    fn vanishes(x: i64, y: i64) -> bool
        ensures { result ≡ vanishes operator (float_of x) (float_of y) };
}

/// `a + b`
pub(crate) struct Added {}

/// `a - b`
pub(crate) struct Subtracted {}

/// `a * b`
pub(crate) struct Multiplied {}

/// `a / b`
pub(crate) struct Divided {}

impl Operation for Added {
    ghost use Rattle.vortex_sql_floats.specs.declared.floats.FloatOperator.TheVariants.{Add};

    ghost operator = { Add };

    fn applied(x: f64, y: f64) -> f64 {
        x + y
    }

    fn is_right_side(y: i64) -> bool {
        is_finite(y)
    }

    fn vanishes(_x: i64, _y: i64) -> bool {
        false
    }
}

impl Operation for Subtracted {
    ghost use Rattle.vortex_sql_floats.specs.declared.floats.FloatOperator.TheVariants.{Subtract};

    ghost operator = { Subtract };

    fn applied(x: f64, y: f64) -> f64 {
        x - y
    }

    fn is_right_side(y: i64) -> bool {
        is_finite(y)
    }

    fn vanishes(_x: i64, _y: i64) -> bool {
        false
    }
}

impl Operation for Multiplied {
    ghost use Rattle.vortex_sql_floats.specs.declared.floats.FloatOperator.TheVariants.{Multiply};

    ghost operator = { Multiply };

    fn applied(x: f64, y: f64) -> f64 {
        x * y
    }

    fn is_right_side(y: i64) -> bool {
        is_finite(y)
    }

    fn vanishes(x: i64, y: i64) -> bool {
        !(is_zero(x) | is_zero(y))
    }
}

impl Operation for Divided {
    ghost use Rattle.vortex_sql_floats.specs.declared.floats.FloatOperator.TheVariants.{Divide};

    ghost operator = { Divide };

    fn applied(x: f64, y: f64) -> f64 {
        x / y
    }

    fn is_right_side(y: i64) -> bool {
        is_finite(y) & !is_zero(y)
    }

    fn vanishes(x: i64, _y: i64) -> bool {
        !is_zero(x)
    }
}
