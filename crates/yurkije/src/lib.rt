//! Expressions over columns for C: what `bindings/c/yurkije.h` declares. Each function hands on to a
//! call of `yurkije_core`. Those that only read a handle are called `yurkije_` here, and take a copy
//! of it, which `bindings/c/yurkije.c` makes.
#![tactic(auto)]

mod answers;
mod content;
mod expressions;
mod handle;
mod held;
mod lent_handle;
mod loan;
mod parts;
mod pruning;
mod queries;
mod running;
mod statuses;
mod version;

pub use answers::{
    yk_answers_free, yurkije_answer_copy, yurkije_answer_size, yurkije_mask, yurkije_run,
    yurkije_select, yurkije_select_u32,
};
pub use content::Content;
pub use expressions::{
    yk_expression_free, yk_expression_new, yurkije_answer_count, yurkije_answer_name,
    yurkije_answer_text, yurkije_answer_type, yurkije_field_count, yurkije_field_name,
    yurkije_field_type, yurkije_fields_read,
};
pub use handle::Handle;
pub use held::Held;
pub use lent_handle::LentHandle;
pub use loan::Loan;
pub use pruning::yurkije_prune;
pub use version::{yk_abi_version, yk_version};
