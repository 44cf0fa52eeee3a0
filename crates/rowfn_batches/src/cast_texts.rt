//! The text that a cast cannot read, in a row in which it faults.

use crate::answering::BatchTask;
use crate::columns::read_columns;
use crate::messages::cast_reason;
use std::alloc::Global;
use vortex_columns::{Cell, Column, ExecutionCtx, VortexError};
use vortex_functions::BoundExpression;
use vortex_standard::Standard;

/// Whether a tree faults in a row for that reason.
fn faults_for(
    tree: &BoundExpression<Standard>,
    row: &[Column],
    reason: &str,
    ctx: &mut ExecutionCtx,
) -> bool {
    match tree.execute(row, 1, ctx) {
        Ok(_) => false,
        Err(error) => cast_reason(&error) == Some(reason),
    }
}

/// The first of these trees that does.
fn first_faulty<'t>(
    trees: &'t [BoundExpression<Standard>],
    row: &[Column],
    reason: &str,
    ctx: &mut ExecutionCtx,
) -> Option<&'t BoundExpression<Standard>> {
    for tree in trees {
        if faults_for(tree, row, reason, ctx) {
            return Some(tree);
        }
    }
    None
}

/// The first argument of a call in a row, if it is a text.
fn first_text(
    alloc: Global,
    call: &BoundExpression<Standard>,
    row: &[Column],
    ctx: &mut ExecutionCtx,
) -> Option<String> {
    let argument = call.children().first()?.execute(row, 1, ctx).ok()?;
    if argument.len() == 0 {
        return None;
    }
    match argument.cell(0) {
        Cell::Text(text) => String::from_str(alloc, text).ok(),
        _ => None,
    }
}

/// The text that the first call of a tree takes which faults in a row for that reason: each turn goes
/// to a call below.
fn faulty_text(
    alloc: Global,
    tree: &BoundExpression<Standard>,
    row: &[Column],
    reason: &str,
) -> Option<String> {
    let mut ctx = ExecutionCtx::new(alloc);
    let mut call = tree;
    for _turn in 0..tree.weight() {
        match first_faulty(call.children(), row, reason, &mut ctx) {
            Some(below) => call = below,
            None => return first_text(alloc, call, row, &mut ctx),
        }
    }
    None
}

impl BatchTask<'_> {
    /// The columns of one row.
    fn row_columns(&self, fields: &[Option<&[u8]>], row: usize) -> Option<Vec<Column>> {
        let program = self.asked.program;
        let start = row.checked_mul(program.scope.len())?;
        let end = start.checked_add(program.scope.len())?;
        let fields = fields.get(start..end)?;
        read_columns(
            self.alloc,
            &program.scope,
            program.kinds.as_slice(),
            fields,
            1,
        )
        .ok()
    }

    /// The text that a cast cannot read, if the fault of an answer in that row is one of a cast of a
    /// text. None too where an allocation fails: the message then has the fault alone.
    pub(crate) fn cast_text(
        &self,
        fields: &[Option<&[u8]>],
        row: usize,
        answer: usize,
        error: &VortexError,
    ) -> Option<String> {
        let reason = cast_reason(error)?;
        let row = self.row_columns(fields, row)?;
        let answer = self.asked.program.optimized.get(answer)?;
        faulty_text(self.alloc, &answer.tree, &row, reason)
    }
}
