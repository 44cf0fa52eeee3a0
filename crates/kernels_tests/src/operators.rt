//! The tables of the operators: their texts, their order, and what turns them.

use crate::questions::{COMPARISONS, sure};
use fixtures::same;
use vortex_columns::VortexResult;
use vortex_kernels::{CompareOperator, Operator};

/// Whether each is greater than the one before it.
fn are_in_order(operators: &[CompareOperator]) -> bool {
    let mut last = None;
    for operator in operators {
        if !(last < Some(*operator)) {
            return false;
        }
        last = Some(*operator);
    }
    true
}

/// Whether a comparison is written so, and its operator found by that text.
fn is_written(rt: HostRuntime, compare: CompareOperator, text: &str) -> VortexResult<bool> {
    let operator = Operator::from(compare);
    let printed = format!(in rt.alloc(); "{compare}")?;
    let found = Operator::from_text(text) == Some(operator) && operator.is_comparison();
    Ok(found && same(rt, printed.as_str(), text) && same(rt, operator.text(), text))
}

#[test]
fn comparisons_have_an_order_and_texts(rt: HostRuntime) {
    assert!(rt; are_in_order(&COMPARISONS));
    sure(&rt, is_written(rt, CompareOperator::NotEq, "!="));
}

#[test]
fn operators_are_turned(rt: HostRuntime) {
    let operators = [
        Operator::Gt.inverse(),
        Operator::Gt.swap(),
        Operator::And.logical_inverse(),
    ];
    let expected = [Some(Operator::Lte), Some(Operator::Lt), Some(Operator::Or)];
    assert!(rt; same(rt, operators, expected));
    let comparisons = [CompareOperator::Gte.inverse(), CompareOperator::Gte.swap()];
    assert!(rt; same(rt, comparisons, [CompareOperator::Lt, CompareOperator::Lte]));
    assert!(rt; Operator::Or.is_decided_by(true) && Operator::Div.is_arithmetic());
}
