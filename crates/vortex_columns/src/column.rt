//! Columns: a type, and rows as they are stored. Constructors, reads, copies and taking rows are in
//! their own modules.

mod constructors;
mod copies;
mod dropping;
mod equality;
mod nested;
mod options;
mod reads;
mod rows;
mod stored;
mod taken;
mod taken_frames;
mod true_rows;

use crate::scalar::Scalar;
use crate::validity::Validity;
use dropping::Within;
pub use rows::{BoolRows, IntRows, TextRows};
use std::marker::Model;
use vortex_bits::BitBuffer;
use vortex_types::{DType, Ints};
use vortex_views::BinaryViews;

/// Rows of one type.
#[cycle(column)]
pub struct Column {
    dtype: DType,
    len: usize,
    storage: Storage,
}

#[cycle(column)]
#[derive(Drop)]
enum Storage {
    /// Null in each row.
    Null,
    /// One value in each row.
    Constant(Scalar),
    /// A value for each row, and which rows are not null.
    Rows(Elements, Validity),
}

/// Values of one kind.
#[cycle(column)]
#[derive(Drop)]
enum Elements {
    Bool(BitBuffer),
    Primitive(Ints),
    Utf8(BinaryViews),
    Binary(BinaryViews),
    Struct(Vec<Column>),
    /// Elements, offsets and sizes.
    List(Box<Column>, Vec<usize>, Vec<usize>),
    FixedSizeList(Box<Column>, u32),
    /// Keys, values, offsets and sizes.
    Map(Box<Column>, Box<Column>, Vec<usize>, Vec<usize>),
}

impl Model for Column {
    ghost use Rattle.vortex_columns.specs.ColumnView.{ColumnView, coded_column};

    ghost Value = { ColumnView };

    ghost coded = { coded_column };

    ghost use Rattle.vortex_columns.specs.Stored.{column_view, IsColumn};

    ghost view = { column_view };

    ghost invariant = { IsColumn };

    ghost use Rattle.vortex_types.specs.LogicalTypes.{type_depth};

    ghost size = { λ c. type_depth c.dtype };

    ghost use Rattle.vortex_types.specs.TypeOf.{type_of};
    ghost use Rattle.vortex_columns.specs.Falls.{storage_falls};

    ghost size_decreases = { λ a h. storage_falls a.len (type_of a.dtype) a.storage h };
}

/// A column is dropped with a work list, so deep nesting uses no stack. Lists within lists allocate
/// nothing, and a struct's field vector is reused as the list if that is empty. If the list cannot
/// grow, the remaining columns are dropped recursively.
impl Drop for Column {
    #[tactic(auto, using(crate::proofs::ColumnWeights::weights))]
    fn drop(self) {
        let within = match self.within() {
            Some(within) => within,
            None => return,
        };
        let alloc = within.allocator();
        let mut list = Vec::new(alloc);
        let mut next = Some(within);
        loop {
            let here = match next {
                Some(Within::One(column)) => Box::into_inner(column),
                Some(Within::Two(keys, values)) => {
                    if let Err(failed) = list.push(Box::into_inner(values)) {
                        drop(failed.value);
                    }
                    Box::into_inner(keys)
                }
                Some(Within::Many(fields)) => {
                    let mut fields = fields;
                    let last = match fields.pop() {
                        Some(last) => last,
                        None => Column::null(0),
                    };
                    if list.is_empty() {
                        list = fields;
                    } else {
                        // what did not fit is dropped with `fields`
                        let _grown = list.append(&mut fields);
                    }
                    last
                }
                None => match list.pop() {
                    Some(last) => last,
                    None => return,
                },
            };
            next = here.within();
        }
    }
}
