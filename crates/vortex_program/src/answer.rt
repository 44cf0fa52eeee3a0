//! Answers: trees under their names.
use vortex_functions::BoundExpression;
use vortex_logical::kind::Kind;
use vortex_standard::Standard;

/// A tree, the kind of its values, and its name in a header.
#[derive(Drop)]
pub struct Answer {
    pub name: String,
    pub tree: BoundExpression<Standard>,
    /// `Plain` where the values have no kind: then they are those of the tree's type.
    pub kind: Kind,
}
