//! Rules of rewriting, written once over any node, and rules at any place of a tree.
#![tactic(auto)]

mod array_leaf;
pub mod boolean;
mod children;
pub mod dispatch;
pub mod driver;
mod expression_leaf;
mod frames;
pub mod laws;
pub mod leaf;
mod making;
mod no_custom;
pub mod node;
pub mod null_tests;
mod paths;
pub mod places;
pub mod reduce;
pub mod reduce_array;
pub mod rewrite;
pub mod rule;
pub mod rules;
pub mod running;
pub mod shipped;
pub mod simplify;
pub mod tree_node;
pub mod union;
pub mod validity;

pub use boolean::reduce_boolean;
pub use dispatch::{reduce_call, simplify_call, validity_call};
pub use driver::Optimized;
pub use leaf::{RewriteLeaf, RuleLeaf};
pub use node::{ReduceNodeValidity, ReduceTree};
pub use null_tests::{NullTest, reduce_null_test};
pub use places::Rewritten;
pub use reduce::ReduceExpression;
pub use reduce_array::ReduceArray;
pub use rewrite::Rewrite;
pub use rule::Rule;
pub use rules::{ReduceNode, ScalarFnRules};
pub use running::{run, run_array};
pub use shipped::ShippedRules;
pub use simplify::simplify_operator;
pub use tree_node::{ArrayReduceNode, ExpressionReduceNode, TreeReduceNode};
pub use union::union_child_validities;
pub use validity::default_validity;
