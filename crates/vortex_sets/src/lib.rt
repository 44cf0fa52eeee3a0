//! Sets of constants, which many values are looked up in.
#![tactic(auto)]

mod buckets;
pub mod item;
pub mod item_set;

pub use item::{IntItem, SetItem, TextItem};
pub use item_set::ItemSet;
