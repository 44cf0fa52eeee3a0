//! Checked arithmetic of one row, and divisors and factors that are looked at before the rows.

use vortex_checked::{
    CheckedAdd, CheckedDiv, CheckedMul, CheckedPrimitiveOp, CheckedSub, ConstantArithmetic,
    Divisor, bounded_product, factor_ends,
};

#[test]
fn each_operation_answers_and_tells_faults(rt: HostRuntime) {
    assert!(rt; CheckedAdd::apply(200u8, 100) == (44, true));
    assert!(rt; CheckedSub::apply(-3i32, 4) == (-7, false));
    assert!(rt; CheckedMul::apply(300i16, 300) == (24464, true));
    assert!(rt; CheckedDiv::apply(-7i8, 2) == (-3, false));
}

#[test]
fn names_the_faults(rt: HostRuntime) {
    let add = <CheckedAdd as CheckedPrimitiveOp<u8>>::ERROR;
    assert!(rt; add == "integer overflow in checked add");
    let sub = <CheckedSub as CheckedPrimitiveOp<u8>>::ERROR;
    assert!(rt; sub == "integer overflow in checked sub");
    let mul = <CheckedMul as CheckedPrimitiveOp<u8>>::ERROR;
    assert!(rt; mul == "integer overflow in checked mul");
    let div = <CheckedDiv as CheckedPrimitiveOp<u8>>::ERROR;
    assert!(rt; div == "integer division by zero or overflow in checked div");
}

/// The quotient by a divisor's inverse, where the divisor has one.
fn divided<T: ConstantArithmetic>(number: T, divisor: T) -> Option<T> {
    let divisor = divisor.divisor()?;
    Some(divisor.divide(number))
}

/// Whether the product is reported as one that the type does not hold.
fn overflows<T: ConstantArithmetic>(number: T, factor: T) -> bool {
    let (least, greatest) = factor_ends(factor);
    bounded_product(number, factor, least, greatest).1
}

#[test]
fn constants_are_looked_at_before_the_rows(rt: HostRuntime) {
    assert!(rt; divided(-9223372036854775808i64, 7) == Some(-1317624576693539401));
    assert!(rt; !overflows(1317624576693539401i64, 7));
    assert!(rt; overflows(1317624576693539402i64, 7));
}
