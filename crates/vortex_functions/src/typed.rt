//! A function with its options, and the shipped functions as values.
ghost use Rattle.std.specs.Prelude.{◌≡◌};

use vortex_interface::ScalarFnVTable;

/// A function with its options.
#[derive(Drop)]
pub struct TypedScalarFnInstance<V: ScalarFnVTable> {
    vtable: V,
    options: V::Options,
}

impl<V: ScalarFnVTable> TypedScalarFnInstance<V> {
    /// The function with its options. Allocates nothing.
    pub fn new(vtable: V, options: V::Options) -> TypedScalarFnInstance<V>
        ensures { result ≡ record { vtable = vtable; options = options } }
    {
        TypedScalarFnInstance { vtable, options }
    }

    /// The function, borrowed.
    pub fn vtable(&self) -> &V
        ensures { result.now ≡ self.now.vtable }
    {
        &self.vtable
    }

    /// The options, borrowed.
    pub fn options(&self) -> &V::Options
        ensures { result.now ≡ self.now.options }
    {
        &self.options
    }

    /// The function and its options.
    pub fn into_parts(self) -> (V, V::Options)
        ensures function { result.0 ≡ self.vtable }
        ensures options { result.1 ≡ self.options }
    {
        let TypedScalarFnInstance { vtable, options } = self;
        (vtable, options)
    }
}
