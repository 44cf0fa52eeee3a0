//! The inputs of a call, owned or borrowed.
ghost use Rattle.std.specs.Prelude.{◌≡◌, map};
ghost use Rattle.std.specs.Cow.{cow_value};
ghost use Rattle.vortex_interface.specs.Words.{AreOfLength};

use crate::vtable::ExecutionArgs;
use std::borrow::Cow;
use std::marker::Model;
use vortex_columns::{Column, VortexError, VortexResult};

/// The inputs of a call, owned or borrowed, all of one length.
#[derive(Drop)]
pub struct VecExecutionArgs<'a> {
    inputs: Vec<Cow<'a, Column>>,
    row_count: usize,
}

impl<'a> Model for VecExecutionArgs<'a> {
    ghost use Rattle.std.specs.Prelude.{map};
    ghost use Rattle.std.specs.Cow.{cow_value};
    ghost use Rattle.vortex_interface.specs.Words.{ArgsView, coded_args, AreOfLength};

    ghost Value = { ArgsView };

    ghost coded = { coded_args };

    ghost view = { λ a. record {
      columns = map cow_value a.inputs.items;
      row_count =
          a.row_count;
    } };

    ghost invariant = { λ a. AreOfLength a.row_count (map cow_value a.inputs.items) };
}

impl<'a> VecExecutionArgs<'a> {
    /// Requires that each column has the row count.
    pub fn new(inputs: Vec<Cow<'a, Column>>, row_count: usize) -> VecExecutionArgs<'a>
        requires { AreOfLength row_count (map cow_value inputs.items) }
        ensures columns { result.columns ≡ map cow_value inputs.entry.items }
        ensures row_count { result.row_count ≡ row_count }
    {
        VecExecutionArgs { inputs, row_count }
    }
}

impl<'a> ExecutionArgs for VecExecutionArgs<'a> {
    ghost inputs = { λ a. a.columns };

    ghost rows = { λ a. a.row_count };

    fn get(&self, index: usize) -> VortexResult<&Column> {
        if index < self.inputs.len() {
            let input = &self.inputs[index];
            Ok(&**input)
        } else {
            Err(VortexError::IndexOutOfBounds {
                index,
                num_inputs: self.inputs.len(),
            })
        }
    }

    fn num_inputs(&self) -> usize {
        self.inputs.len()
    }

    fn row_count(&self) -> usize {
        self.row_count
    }
}
