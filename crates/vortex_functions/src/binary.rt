//! The operators of two operands, as functions of trees.
use crate::erased::ScalarFnRef;
use crate::ext::ScalarFnVTableExt;
use vortex_interface::ScalarFnVTable;
use vortex_kernels::Operator;
use vortex_shipped::Binary;

impl ScalarFnVTableExt for Binary {
    ghost use Rattle.std.specs.Option.{option_map};
    ghost use Rattle.vortex_interface.specs.Shipped as shipped;
    ghost use Rattle.vortex_functions.specs.Words.{operator_called};

    ghost ships = { shipped.Binary };

    ghost names = { λ words. option_map shipped.Binary (operator_called words) };

    fn bind<C: ScalarFnVTable>(&self, options: Operator) -> ScalarFnRef<C> {
        ScalarFnRef::Binary(options)
    }

    fn named(&self, words: &[&str]) -> Option<Operator> {
        match words {
            [word] => Operator::from_text(word),
            _ => None,
        }
    }
}
