//! The numbers that the C interface has for groups that are not pruned, and what they are told of.
ghost use Rattle.std.specs.Prelude.{◌≡◌};
ghost use Rattle.vortex_errors.specs.Errors.{number_of};
ghost use Rattle.yurkije_pruning.specs.Statuses.{part_status, group_status, prune_status};
ghost use Rattle.yurkije_pruning.specs.Statuses.{item_told, place_told};

use crate::error::{PartFault, PruneError};
use vortex_arrow::ArrowError;
use vortex_pruning::GroupError;
use yurkije_columns::statuses::arrow_status;

/// The field whose statistics are wrong, and the group, where one is.
#[derive(Clone, Copy, Debug, Drop, PartialEq, Eq)]
pub struct Place {
    pub field: Option<usize>,
    pub group: Option<usize>,
}

fn part_status(fault: PartFault) -> u32
    ensures { result ≡ part_status fault }
{
    match fault {
        PartFault::UnknownKind => 102,
        PartFault::OtherType => 11,
        PartFault::OtherLength { rows: _ } => 2,
        PartFault::Unread(error) => arrow_status(error),
    }
}

fn group_status(error: &GroupError) -> u32
    ensures { result ≡ group_status error.now }
{
    match error {
        GroupError::Statistics { group: _, field: _ } => 132,
        GroupError::Refused(error) => error.number() as u32,
    }
}

/// The number of what is refused.
pub fn prune_status(error: &PruneError) -> u32
    ensures { result ≡ prune_status error.now }
{
    match error {
        PruneError::NoCondition => 3,
        PruneError::Missing { field: _ } => 11,
        PruneError::Unasked { field: _ } => 11,
        PruneError::Column {
            field: _,
            part: _,
            fault,
        } => part_status(*fault),
        PruneError::Groups(error) => group_status(error),
    }
}

/// The item that is wrong, of buffers that are refused.
fn item_told(fault: PartFault) -> Option<usize>
    ensures { result ≡ item_told fault }
{
    match fault {
        PartFault::Unread(ArrowError::UnexpectedNull { row }) => Some(row),
        PartFault::Unread(ArrowError::InvalidValue { row, fault: _ }) => Some(row),
        PartFault::Unread(ArrowError::NotUtf8 { row }) => Some(row),
        _ => None,
    }
}

/// What is told of it by number.
pub fn place_of(error: &PruneError) -> Place
    ensures { result ≡ place_told error.now }
{
    match error {
        PruneError::Missing { field } => Place {
            field: Some(*field),
            group: None,
        },
        PruneError::Unasked { field } => Place {
            field: Some(*field),
            group: None,
        },
        PruneError::Column {
            field,
            part: _,
            fault,
        } => Place {
            field: Some(*field),
            group: item_told(*fault),
        },
        PruneError::Groups(GroupError::Statistics { group, field }) => Place {
            field: Some(*field),
            group: Some(*group),
        },
        _ => Place {
            field: None,
            group: None,
        },
    }
}
