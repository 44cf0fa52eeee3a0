//! The operators of two floats of 64 bits, and their faults.
ghost use Rattle.std.specs.Prelude.{◌≡◌};
ghost use Rattle.vortex_sql_floats.specs.FloatArithmetic.{applied, fault_by, is_zero};
ghost use Rattle.vortex_sql_floats.specs.FloatArithmetic.{divides_by_zero, overflows, underflows};

use vortex_sql_rows::faults::RowFault;

/// `a + b`, `a - b`, `a * b` or `a / b`
#[derive(Clone, Copy, Debug, PartialEq, Eq)]
pub enum FloatOperator {
    Add,
    Subtract,
    Multiply,
    Divide,
}

/// The result, rounded once.
pub fn applied(operator: FloatOperator, x: f64, y: f64) -> f64
    ensures { result ≡ applied operator x y }
{
    match operator {
        FloatOperator::Add => x + y,
        FloatOperator::Subtract => x - y,
        FloatOperator::Multiply => x * y,
        FloatOperator::Divide => x / y,
    }
}

fn is_zero(x: f64) -> bool
    ensures { result ≡ is_zero x }
{
    x == 0.0
}

fn divides_by_zero(operator: FloatOperator, x: f64, y: f64) -> bool
    ensures { result ≡ divides_by_zero operator x y }
{
    match operator {
        FloatOperator::Divide => is_zero(y) && !x.is_nan(),
        FloatOperator::Add => false,
        FloatOperator::Subtract => false,
        FloatOperator::Multiply => false,
    }
}

fn overflows(operator: FloatOperator, x: f64, y: f64) -> bool
    ensures { result ≡ overflows operator x y }
{
    applied(operator, x, y).is_infinite() && !(x.is_infinite() || y.is_infinite())
}

fn underflows(operator: FloatOperator, x: f64, y: f64) -> bool
    ensures { result ≡ underflows operator x y }
{
    match operator {
        FloatOperator::Multiply => {
            is_zero(applied(operator, x, y)) && !(is_zero(x) || is_zero(y))
        }
        FloatOperator::Divide => {
            is_zero(applied(operator, x, y)) && !(is_zero(x) || y.is_infinite())
        }
        FloatOperator::Add => false,
        FloatOperator::Subtract => false,
    }
}

/// Why the operator has no result for two floats, if it has none.
pub fn fault_by(operator: FloatOperator, x: f64, y: f64) -> Option<RowFault>
    ensures { result ≡ fault_by operator x y }
{
    if divides_by_zero(operator, x, y) {
        return Some(RowFault::ZeroDivisor);
    }
    if overflows(operator, x, y) {
        return Some(RowFault::FloatOverflow);
    }
    if underflows(operator, x, y) {
        return Some(RowFault::FloatUnderflow);
    }
    None
}
