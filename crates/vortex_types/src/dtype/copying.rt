//! Types copied with a list of steps, so deep nesting uses no stack.
ghost use Rattle.std.specs.Prelude.{◌≡◌, ◌<◌, ◌+◌, ◌*◌, ◌∷◌, IfOk, MatchResult, List};
ghost use Rattle.std.specs.Prelude.{string_bytes, drop};
ghost use Rattle.vortex_types.specs.TypeOf.{type_of};
ghost use Rattle.vortex_types.specs.TypeParts.{type_weight};
ghost use Rattle.vortex_types.specs.TypeCopies.{HasParts, tops, effects, wrapped, named, grown};
ghost use Rattle.vortex_types.specs.TypeCopies.{more, cost, costs, fields_cost, effect};
ghost use Rattle.vortex_types.specs.LogicalTypes.{LogicalType};

use crate::dtype::{DType, StructFields};
use std::alloc::{AllocError, Global};

/// A step of a copy, over a stack of types made so far.
#[derive(Clone, Copy)]
pub(super) enum Step<'a> {
    /// Pushes a copy of that type.
    Whole(&'a DType),
    /// Wraps the top into lists or maps like that type.
    Wrap(&'a DType),
    /// Makes the top a field of that name of the struct below.
    Name(&'a String),
    /// Adds the fields from that index on to the struct on top.
    Fields(&'a StructFields, usize),
}

/// Makes the top a field of that name of the struct below.
#[tactic(auto, using(crate::proofs::CopySteps::steps))]
fn add_field(name: &String, made: &mut Vec<DType>) -> Result<(), AllocError>
    ensures { IfOk result
        (λ _. tops made.new.items ≡ named (string_bytes name.now) (tops made.old.items)) }
{
    let Some(dtype) = made.pop() else {
        return Ok(());
    };
    let Some(owner) = made.pop() else {
        return Ok(());
    };
    made.push(owner.with_field(name.clone()?, dtype)?)?;
    Ok(())
}

impl StructFields {
    /// The steps for the field at that index, and for the fields after it.
    #[tactic(auto, using(crate::proofs::CopySteps::steps))]
    fn list_field<'a>(&'a self, k: usize, steps: &mut Vec<Step<'a>>) -> Result<(), AllocError>
        ensures effect { IfOk result (λ _. (st : List LogicalType) → effects steps.new.items st
            ≡ effects steps.old.items (more (drop k self.now.fields.items) st)) }
        ensures fewer { IfOk result (λ _. costs steps.new.items
            < costs steps.old.items + fields_cost self.now k) }
    {
        if k < self.fields.len() {
            steps.push(Step::Fields(self, k + 1))?;
            let field = &self.fields[k];
            steps.push(Step::Name(&field.0))?;
            steps.push(Step::Whole(&field.1))?;
        }
        Ok(())
    }
}

impl DType {
    /// A copy of a type without types inside; else the allocator of the types inside. Allocates
    /// nothing.
    pub(super) fn leaf(&self) -> Result<DType, Global>
        ensures { MatchResult result
            (λ t. (type_of t ≡ type_of self.now) × (¬ HasParts (type_of self.now)))
            (λ _. HasParts (type_of self.now)) }
    {
        match self {
            DType::Null => Ok(DType::Null),
            DType::Bool(n) => Ok(DType::Bool(*n)),
            DType::Primitive(p, n) => Ok(DType::Primitive(*p, *n)),
            DType::Utf8(n) => Ok(DType::Utf8(*n)),
            DType::Binary(n) => Ok(DType::Binary(*n)),
            DType::Struct(fields, _) => Err(*fields.fields.allocator()),
            DType::List(element, _) => Err(*Box::allocator(element)),
            DType::FixedSizeList(element, _, _) => Err(*Box::allocator(element)),
            DType::Map(key, _, _) => Err(*Box::allocator(key)),
        }
    }

    /// A struct with one more field; any other type unchanged.
    fn with_field(self, name: String, dtype: DType) -> Result<DType, AllocError>
        ensures { IfOk result
            (λ t. type_of t ≡ grown (type_of self) (string_bytes name) (type_of dtype)) }
    {
        match self {
            DType::Struct(fields, n) => {
                let StructFields { fields } = fields;
                let mut fields = fields;
                fields.push((name, dtype))?;
                Ok(DType::Struct(StructFields { fields }, n))
            }
            _ => Ok(self),
        }
    }

    /// The steps for a type with types inside.
    #[tactic(auto, using(crate::proofs::CopySteps::steps))]
    fn list_parts<'a>(
        &'a self,
        steps: &mut Vec<Step<'a>>,
        made: &mut Vec<DType>,
    ) -> Result<(), AllocError>
        requires { HasParts (type_of self.now) }
        ensures effect { IfOk result (λ _. effects steps.new.items (tops made.new.items)
            ≡ effects steps.old.items (type_of self.now ∷ tops made.old.items)) }
        ensures fewer { IfOk result (λ _. costs steps.new.items
            < costs steps.old.items + 3 * type_weight self.now) }
    {
        match self {
            DType::Struct(fields, n) => {
                let alloc = *fields.fields.allocator();
                made.push(DType::Struct(StructFields::new(alloc), *n))?;
                steps.push(Step::Fields(fields, 0))?;
            }
            DType::List(element, _) => {
                steps.push(Step::Wrap(self))?;
                steps.push(Step::Whole(element))?;
            }
            DType::FixedSizeList(element, _, _) => {
                steps.push(Step::Wrap(self))?;
                steps.push(Step::Whole(element))?;
            }
            DType::Map(key, value, _) => {
                steps.push(Step::Wrap(self))?;
                steps.push(Step::Whole(value))?;
                steps.push(Step::Whole(key))?;
            }
            _ => {}
        }
        Ok(())
    }

    /// Wraps the top into lists or maps like this type.
    #[tactic(auto, using(crate::proofs::CopySteps::steps))]
    fn wrap(&self, made: &mut Vec<DType>) -> Result<(), AllocError>
        ensures { IfOk result
            (λ _. tops made.new.items ≡ wrapped (type_of self.now) (tops made.old.items)) }
    {
        match self {
            DType::List(element, n) => {
                if let Some(copy) = made.pop() {
                    made.push(DType::List(Box::new(*Box::allocator(element), copy)?, *n))?;
                }
            }
            DType::FixedSizeList(element, size, n) => {
                if let Some(copy) = made.pop() {
                    let copy = Box::new(*Box::allocator(element), copy)?;
                    made.push(DType::FixedSizeList(copy, *size, *n))?;
                }
            }
            DType::Map(key, value, n) => {
                if let Some(last) = made.pop() {
                    if let Some(first) = made.pop() {
                        let first = Box::new(*Box::allocator(key), first)?;
                        let last = Box::new(*Box::allocator(value), last)?;
                        made.push(DType::Map(first, last, *n))?;
                    }
                }
            }
            _ => {}
        }
        Ok(())
    }

    /// One step of a copy.
    #[tactic(auto, using(crate::proofs::CopySteps::steps))]
    fn step<'a>(
        step: Step<'a>,
        steps: &mut Vec<Step<'a>>,
        made: &mut Vec<DType>,
    ) -> Result<(), AllocError>
        ensures effect { IfOk result (λ _. effects steps.new.items (tops made.new.items)
            ≡ effects steps.old.items (effect step.entry (tops made.old.items))) }
        ensures fewer { IfOk result (λ _. costs steps.new.items
            < costs steps.old.items + cost step.entry) }
    {
        match step {
            Step::Whole(dtype) => match dtype.leaf() {
                Ok(leaf) => made.push(leaf)?,
                Err(_alloc) => dtype.list_parts(steps, made)?,
            },
            Step::Wrap(dtype) => dtype.wrap(made)?,
            Step::Name(name) => add_field(name, made)?,
            Step::Fields(fields, k) => fields.list_field(k, steps)?,
        }
        Ok(())
    }

    /// A copy of a type with types inside.
    #[tactic(auto, using(crate::proofs::CopySteps::steps))]
    pub(super) fn copy_by_steps(&self, alloc: Global) -> Result<DType, AllocError>
        ensures { IfOk result (λ t. type_of t ≡ type_of self.now) }
    {
        let mut steps = Vec::new(alloc);
        let mut made = Vec::new(alloc);
        steps.push(Step::Whole(self))?;
        while let Some(step) = steps.pop() {
            DType::step(step, &mut steps, &mut made)?;
        }
        match made.pop() {
            Some(copy) => Ok(copy),
            None => unreachable!(),
        }
    }
}
