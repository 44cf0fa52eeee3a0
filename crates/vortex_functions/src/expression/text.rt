//! The text of a tree.
ghost use Rattle.std.specs.Option.{option_copied};
ghost use Rattle.vortex_functions.specs.Words.{AnswersUnlessMemory, Appends, IsTextOf, leaf_text};
ghost use Rattle.vortex_functions.specs.Words.{WritesPart};

use super::{BoundExpression, ExpressionLeaf};
use crate::tree::Node;
use std::alloc::Global;
use std::fmt;
use vortex_columns::VortexResult;
use vortex_interface::ScalarFnVTable;

/// A node that is being written, and the next part of its text.
#[derive(Drop)]
struct Writing<'t, C: ScalarFnVTable> {
    node: &'t BoundExpression<C>,
    next: usize,
}

impl<C: ScalarFnVTable> BoundExpression<C> {
    /// Writes a leaf or a literal; nothing for a call.
    fn write_leaf(&self, out: &mut String) -> VortexResult<()>
        ensures { AnswersUnlessMemory result (λ _. Appends out.old (leaf_text self.now) out.new) }
    {
        match &self.node {
            Node::Leaf(ExpressionLeaf::Column(_, name, _)) => {
                out.push_str("$.")?;
                out.push_str(name.as_str())?;
                Ok(())
            }
            Node::Leaf(ExpressionLeaf::Literal(scalar, _)) => scalar.write_literal(out),
            Node::Call(_) => Ok(()),
        }
    }

    /// Appends what comes before the `k`-th child of the text, or the end; all of it for a node
    /// that is no call. Returns that child.
    fn write_part(
        &self,
        k: usize,
        alloc: Global,
        out: &mut String,
    ) -> VortexResult<Option<&BoundExpression<C>>>
        ensures { AnswersUnlessMemory result
            (λ child. WritesPart self.now k out.old out.new (option_copied child)) }
    {
        match self.as_scalar() {
            Some(function) => {
                let children = self.children();
                let place = function.write_before(alloc, k, children.len(), out)?;
                Ok(children.get(place))
            }
            None => {
                self.write_leaf(out)?;
                Ok(None)
            }
        }
    }

    /// The tree as a text, as `(1i32 > $.a)`. Fails only where memory runs out.
    ///
    /// A column leaf is `$.name`, a literal its value, an operator is between its operands in
    /// parentheses, and every other call is `id(a, b)`. The text of a caller's function
    /// is its own.
    ///
    /// Written from left to right, each byte once, with a frame on the heap for each enclosing
    /// call.
    pub fn sql_text(&self, alloc: Global) -> VortexResult<String>
        ensures { AnswersUnlessMemory result (IsTextOf self.now) }
    {
        let mut out = String::new(alloc);
        let mut above = Vec::new(alloc);
        above.push(Writing {
            node: self,
            next: 0,
        })?;
        while let Some(last) = above.pop() {
            let node = last.node;
            if last.next <= node.children().len() {
                above.push(Writing {
                    node,
                    next: last.next + 1,
                })?;
                if let Some(child) = node.write_part(last.next, alloc, &mut out)? {
                    above.push(Writing {
                        node: child,
                        next: 0,
                    })?;
                }
            }
        }
        Ok(out)
    }
}

/// The bytes of `sql_text`; running out of memory is an error.
impl<C: ScalarFnVTable> fmt::Display for BoundExpression<C> {
    ghost use Rattle.vortex_interface.specs.Printing.{tree_text};

    ghost output = { tree_text };

    fn fmt<W: fmt::Write>(&self, f: &mut fmt::Formatter<W>) -> fmt::Result {
        // The allocator that a part of the tree holds.
        let alloc = match &self.node {
            Node::Leaf(ExpressionLeaf::Column(_, name, _)) => *name.allocator(),
            Node::Leaf(ExpressionLeaf::Literal(_, alloc)) => *alloc,
            Node::Call(parts) => *parts.children.allocator(),
        };
        match self.sql_text(alloc) {
            Ok(text) => write!(f, "{text}"),
            Err(_) => Err(fmt::Error),
        }
    }
}
