//! PostgreSQL's functions of one float of 64 bits, and the fault that one of them has.
ghost use Rattle.std.specs.Prelude.{◌≡◌, None};
ghost use Rattle.std.specs.Option.{option_map};
ghost use Rattle.vortex_sql_rows.specs.Faults.{fault_of};
ghost use Rattle.vortex_sql_float_functions.specs.FloatFunctions as specs;
ghost use Rattle.vortex_sql_float_functions.specs.RootFaults.{root_number, root_text};

/// A function of one float.
#[derive(Clone, Copy, Debug, PartialEq, Eq)]
pub enum FloatFunction {
    /// To the nearest whole number, from halfway the one farther from zero.
    Round,
    /// To the greatest whole number that is not above it.
    Floor,
    /// To the least whole number that is not below it.
    Ceil,
    /// Without what stands after the point.
    Trunc,
    /// The square root, rounded once.
    Sqrt,
    /// Without its sign.
    Abs,
    /// -1, 0 or 1; that of a NaN is a NaN.
    Sign,
}

/// The number that E10 has where a negative number has no square root: that behind the numbers of
/// `RowFault`.
pub const NEGATIVE_ROOT: u64 = 29;

/// The text of the fault with that number, if it is that of a root.
pub fn root_text(number: u64) -> Option<&'static str>
    ensures { option_map (λ t. t.now) result ≡ root_text number }
{
    if number == NEGATIVE_ROOT {
        Some("cannot take square root of a negative number")
    } else {
        None
    }
}

/// No other fault of a row has that number.
pub fn root_number_is_its_own()
    ensures { fault_of root_number ≡ None }
{}

fn sign(x: f64) -> f64
    ensures { result ≡ specs.sign x }
{
    if x == 0.0 { 0.0 } else { x.signum() }
}

/// The result, where the function has one.
pub fn applied(function: FloatFunction, x: f64) -> f64
    ensures { result ≡ specs.applied function x }
{
    match function {
        FloatFunction::Round => x.round(),
        FloatFunction::Floor => x.floor(),
        FloatFunction::Ceil => x.ceil(),
        FloatFunction::Trunc => x.trunc(),
        FloatFunction::Sqrt => x.sqrt(),
        FloatFunction::Abs => x.abs(),
        FloatFunction::Sign => sign(x),
    }
}

/// Whether a root of a negative number is asked for. -0 is none, nor is a NaN.
pub fn lacks_root(function: FloatFunction, x: f64) -> bool
    ensures { result ≡ specs.lacks_root function x }
{
    match function {
        FloatFunction::Sqrt => x < 0.0,
        FloatFunction::Round
        | FloatFunction::Floor
        | FloatFunction::Ceil
        | FloatFunction::Trunc
        | FloatFunction::Abs
        | FloatFunction::Sign => false,
    }
}
