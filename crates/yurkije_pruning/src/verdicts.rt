//! What is known of groups, in a caller's buffers.
ghost use Rattle.std.specs.Prelude.{◌≡◌, ◌↔◌, IsTrue, length, map, OnOk, OnErr, MatchResult, ⊤};
ghost use Rattle.yurkije_pruning.specs.Verdicts.{verdict_byte, fault_byte, least_of, most_of};
ghost use Rattle.yurkije_pruning.specs.Verdicts.{HasPlaces, ArePut, AreWritten, AreTooShort};
ghost use Rattle.yurkije_pruning.specs.Verdicts.{KeepsLoans};

use vortex_arrow::CopyError;
use vortex_pruning::{Pruned, Verdict};

/// A caller's buffers for what is known of groups, as C has them: an item a group. One of no items
/// is not asked for.
#[repr(C)]
#[derive(Drop)]
pub struct Verdicts<'a> {
    /// 0 where nothing is known, 1 where no row is true, 2 where every row is.
    pub verdicts: &'a mut [u8],
    /// 0 where no row faults, else 1.
    pub may_fault: &'a mut [u8],
    /// At least so many rows are true.
    pub least: &'a mut [u64],
    /// And at most so many.
    pub most: &'a mut [u64],
}

/// The number of a verdict.
fn verdict_byte(pruned: &Pruned) -> u8
    ensures { result ≡ verdict_byte pruned.now }
{
    match pruned.verdict {
        Verdict::Unknown => 0,
        Verdict::NoneTrue => 1,
        Verdict::AllTrue => 2,
    }
}

/// Whether a row may fault.
fn fault_byte(pruned: &Pruned) -> u8
    ensures { result ≡ fault_byte pruned.now }
{
    if pruned.faultless { 0 } else { 1 }
}

/// Whether a buffer of so many items is not asked for, or has one for each of so many groups.
fn has_places(items: usize, groups: usize) -> bool
    ensures { IsTrue result ↔ HasPlaces items groups }
{
    items == 0 || groups <= items
}

fn put_verdicts(pruned: &[Pruned], room: &mut [u8])
    requires { HasPlaces (length room.old) (length pruned.now) }
    ensures { ArePut (map verdict_byte pruned.now) room.old room.new }
{
    if room.is_empty() {
        return;
    }
    for k in 0..pruned.len() {
        room[k] = verdict_byte(&pruned[k]);
    }
}

fn put_faults(pruned: &[Pruned], room: &mut [u8])
    requires { HasPlaces (length room.old) (length pruned.now) }
    ensures { ArePut (map fault_byte pruned.now) room.old room.new }
{
    if room.is_empty() {
        return;
    }
    for k in 0..pruned.len() {
        room[k] = fault_byte(&pruned[k]);
    }
}

fn put_least(pruned: &[Pruned], room: &mut [u64])
    requires { HasPlaces (length room.old) (length pruned.now) }
    ensures { ArePut (map least_of pruned.now) room.old room.new }
{
    if room.is_empty() {
        return;
    }
    for k in 0..pruned.len() {
        room[k] = pruned[k].trues.0;
    }
}

fn put_most(pruned: &[Pruned], room: &mut [u64])
    requires { HasPlaces (length room.old) (length pruned.now) }
    ensures { ArePut (map most_of pruned.now) room.old room.new }
{
    if room.is_empty() {
        return;
    }
    for k in 0..pruned.len() {
        room[k] = pruned[k].trues.1;
    }
}

/// Writes what is known of each group into the buffers that are asked for, each from its first item
/// on. What lies behind stays as it was, and all where a buffer that is asked for has fewer items
/// than there are groups: that is refused.
pub fn write_verdicts(pruned: &[Pruned], room: &mut Verdicts<'_>) -> Result<(), CopyError>
    ensures written { OnOk result (AreWritten pruned.now room.old room.new) }
    ensures refused { MatchResult result (λ _. ⊤) (AreTooShort pruned.now room.old) }
    ensures kept { OnErr result (room.new ≡ room.old) }
    ensures loans { KeepsLoans room.old room.new }
{
    let groups = pruned.len();
    if !has_places(room.verdicts.len(), groups)
        || !has_places(room.may_fault.len(), groups)
        || !has_places(room.least.len(), groups)
        || !has_places(room.most.len(), groups)
    {
        return Err(CopyError::ValuesTooShort);
    }
    put_verdicts(pruned, room.verdicts);
    put_faults(pruned, room.may_fault);
    put_least(pruned, room.least);
    put_most(pruned, room.most);
    Ok(())
}
