//! What stands behind a handle.

use vortex_columns::Column;
use vortex_logical::kind::Kind;
use yurkije_core::Expression;

/// An expression, or the answers of one over a batch, with what the values of each mean.
#[derive(Drop)]
pub enum Content {
    Expression(Expression),
    Answers(Vec<Column>, Vec<Kind>),
}
