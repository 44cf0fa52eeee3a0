//! Why groups are not pruned.
use vortex_arrow::ArrowError;
use vortex_columns::VortexError;
use vortex_pruning::GroupError;

/// A column of the statistics of a field.
#[derive(Clone, Copy, Debug, Drop, PartialEq, Eq)]
pub enum Part {
    Low,
    High,
    Nulls,
}

/// What is wrong with it.
#[derive(Clone, Copy, Debug, Drop, PartialEq, Eq)]
pub enum PartFault {
    /// Its kind is none.
    UnknownKind,
    /// Its values are of another type than the field, apart from null, or counts not of u64.
    OtherType,
    /// It has another number of items than there are groups.
    OtherLength { rows: usize },
    /// Its buffers are refused, or memory ran out.
    Unread(ArrowError),
}

/// Why groups are not pruned.
#[derive(Debug, Drop)]
pub enum PruneError {
    /// The tree is no condition: its values are no truth values.
    NoCondition,
    /// There are no statistics for that field.
    Missing {
        field: usize,
    },
    /// There is no field for the statistics of that number.
    Unasked {
        field: usize,
    },
    /// A column of that field's statistics is wrong.
    Column {
        field: usize,
        part: Part,
        fault: PartFault,
    },
    /// Statistics contradict themselves in a group, or memory ran out.
    Groups(GroupError),
}

impl PruneError {
    ghost use Rattle.std.specs.Prelude.{◌≡◌};
    ghost use Rattle.yurkije_pruning.specs.Lent.{no_memory};

    /// E9.
    pub fn out_of_memory() -> PruneError
        ensures { result ≡ no_memory }
    {
        PruneError::Groups(GroupError::Refused(VortexError::OutOfMemory))
    }
}
