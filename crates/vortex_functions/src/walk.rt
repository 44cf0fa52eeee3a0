//! Walks over a tree, children before their parent and from left to right, whose depth uses memory
//! and no stack.

/// A node above, and the results for its children so far.
#[derive(Drop)]
pub struct WalkFrame<'t, T, O: Drop> {
    pub node: &'t T,
    pub outputs: Vec<O>,
}

/// The result for the tree `$root`, where `$visit` makes the output of `$node`, or an error, from
/// `$outputs`, those of its children.
///
/// The work is in a list of frames, one for each node from the root to the node's parent. A
/// lone leaf has none, so that the walk itself allocates nothing for it. A node has
/// `children()`, and each as `child(index)`.
#[macro_export]
macro_rules! walk {
    ($root:expr, $alloc:expr, $node:ident, $outputs:ident => $visit:expr) => {{
        let mut above = Vec::new($alloc);
        let mut $node = $root;
        let mut $outputs = Vec::new($alloc);
        loop {
            if $outputs.len() < $node.children().len() {
                let child = $node.child($outputs.len());
                above.push($crate::walk::WalkFrame { node: $node, outputs: $outputs })?;
                $node = child;
                $outputs = Vec::new($alloc);
            } else {
                let output = $visit?;
                let Some(parent) = above.pop() else {
                    return Ok(output);
                };
                $node = parent.node;
                $outputs = parent.outputs;
                $outputs.push(output)?;
            }
        }
    }};
}
