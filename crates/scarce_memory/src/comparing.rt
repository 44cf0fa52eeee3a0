//! Columns compared with their copies, and with known rows. Comparing allocates nothing.

use fixtures::{Made, kept};
use std::alloc::Global;
use std::borrow::Cow;
use std::cmp::Ordering;
use vortex_columns::{Column, VortexResult};

/// Whether two columns have one type, and the same value in each row.
pub fn are_same(left: &Column, right: &Column) -> bool {
    if left.len() != right.len() || *left.dtype() != *right.dtype() {
        return false;
    }
    for i in 0..left.len() {
        if left.compare_rows(i, right, i) != Ordering::Equal {
            return false;
        }
    }
    true
}

/// The same for lists of columns.
fn are_all_same(left: &[Column], right: &[Column]) -> bool {
    if left.len() != right.len() {
        return false;
    }
    for (one, other) in left.iter().zip(right) {
        if !are_same(one, other) {
            return false;
        }
    }
    true
}

/// Copies of columns.
fn copies(alloc: Global, columns: &[Column]) -> VortexResult<Vec<Column>> {
    let mut copies = Vec::new(alloc);
    for column in columns {
        copies.push(column.try_clone(alloc)?)?;
    }
    Ok(copies)
}

/// Two columns that a call borrows, and their copies.
#[derive(Drop)]
pub struct Sides {
    pub left: Box<Column>,
    pub right: Box<Column>,
    left_copy: Box<Column>,
    right_copy: Box<Column>,
}

impl Sides {
    pub fn new(alloc: Global, left: Made, right: Made) -> VortexResult<Sides> {
        let (left, right) = (left?, right?);
        let left_copy = kept(alloc, left.try_clone(alloc))?;
        let right_copy = kept(alloc, right.try_clone(alloc))?;
        Ok(Sides {
            left,
            right,
            left_copy,
            right_copy,
        })
    }

    /// Whether both are unchanged.
    fn stay(&self) -> bool {
        are_same(&*self.left, &*self.left_copy) && are_same(&*self.right, &*self.right_copy)
    }

    /// Whether both are unchanged, and a call that borrowed them returns this column.
    pub fn answer(&self, answer: Made, expected: &Column) -> VortexResult<bool> {
        if !self.stay() {
            return Ok(false);
        }
        Ok(are_same(&*answer?, expected))
    }
}

/// Columns that a call borrows, and their copies.
#[derive(Drop)]
pub struct Table {
    columns: Vec<Column>,
    copies: Vec<Column>,
}

impl Table {
    pub fn new(alloc: Global, columns: VortexResult<Vec<Column>>) -> VortexResult<Table> {
        let columns = columns?;
        let copies = copies(alloc, &columns)?;
        Ok(Table { columns, copies })
    }

    /// The columns, borrowed.
    pub fn columns(&self) -> &[Column] {
        &self.columns
    }

    /// Whether they are unchanged, and a call that borrowed them returns this column.
    pub fn answer(
        &self,
        alloc: Global,
        answer: VortexResult<Cow<'_, Column>>,
        expected: &Column,
    ) -> VortexResult<bool> {
        if !are_all_same(&self.columns, &self.copies) {
            return Ok(false);
        }
        let answer = Box::new(alloc, answer?)?;
        Ok(are_same(&**answer, expected))
    }
}

/// The result of a call, if what it borrowed is unchanged.
pub fn unless_changed(
    is_as_it_was: VortexResult<bool>,
    answer: VortexResult<bool>,
) -> VortexResult<bool> {
    match is_as_it_was {
        Ok(true) => answer,
        _ => is_as_it_was,
    }
}
