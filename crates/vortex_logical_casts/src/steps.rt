//! A value's way through functions.

use vortex_standard::Standard;

/// The whole numbers that follow the value among a function's arguments.
#[derive(Clone, Copy, Debug, PartialEq, Eq)]
pub enum More {
    Nothing,
    One(u32),
    Two(u32, u32),
}

/// A function that a value passes, and the numbers after it.
#[derive(Clone, Copy, Debug, PartialEq, Eq)]
pub struct Step {
    pub function: Standard,
    pub more: More,
}

/// The functions that a value passes, the first one first.
#[derive(Clone, Copy, Debug, PartialEq, Eq)]
pub enum Steps {
    One(Step),
    Two(Step, Step),
}
