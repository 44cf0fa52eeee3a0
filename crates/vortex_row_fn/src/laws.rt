//! Laws of the meaning of values, operators, patterns, functions and trees. The functions are
//! empty: their contracts are the laws, proved.

pub use vortex_arrays::laws::{
    arrays_err_where_arithmetic_does, errs_where_rows_fault, rows_are_of_rows,
};
pub use vortex_functions::value_laws::{
    equal_functions_are_the_same, equal_functions_hash_equally,
    equal_shipped_functions_mean_the_same, identities_and_options_tell_functions,
};
pub use vortex_interface::laws::{
    batches_answer_as_one, errs_where_arithmetic_does, inverse_negates, swap_turns,
};
pub use vortex_like::laws::test_decides_match;
pub use vortex_operators::laws::{
    comparisons_stand_in_the_order_of_the_table, operators_stand_in_the_order_of_the_table,
};
pub use vortex_rewriting::laws::{rewrites_keep_rows, rewrites_keep_rows_of_array};
pub use vortex_shipped::laws::{options_are_read_back, options_are_read_from_their_bytes_alone};
pub use vortex_types::laws::equal_values_are_the_same;
