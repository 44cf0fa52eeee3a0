//! A fault flag, which is joined over rows.

use std::ops::BitOrAssign;

/// A fault flag: the default where there is no fault. `|=` joins flags over rows, so a loop tests
/// once.
pub trait Failure: Copy + Default + PartialEq + BitOrAssign {
    ghost use Rattle.std.specs.Prelude.{Bool};
    ghost use Rattle.vortex_checked.specs.Evidence.{IsEvidence};

    /// Whether it is a fault.
    ghost is_fault: { Self → Bool };

    ghost evidence: { IsEvidence Self.is_default Self.eq Self.can_bitor_assign
        Self.bitor_assign_gives is_fault };
}

impl Failure for bool {
    ghost use Rattle.vortex_checked.specs.EvidenceLaws.{bool_evidence};

    ghost is_fault = { λ b. b };

    ghost evidence = { bool_evidence };
}

impl Failure for u8 {
    ghost use Rattle.vortex_checked.specs.Evidence.{is_nonzero};
    ghost use Rattle.vortex_checked.specs.EvidenceLaws.{number_evidence};

    ghost is_fault = { is_nonzero };

    ghost evidence = { number_evidence };
}

impl Failure for u16 {
    ghost use Rattle.vortex_checked.specs.Evidence.{is_nonzero};
    ghost use Rattle.vortex_checked.specs.EvidenceLaws.{number_evidence};

    ghost is_fault = { is_nonzero };

    ghost evidence = { number_evidence };
}

impl Failure for u32 {
    ghost use Rattle.vortex_checked.specs.Evidence.{is_nonzero};
    ghost use Rattle.vortex_checked.specs.EvidenceLaws.{number_evidence};

    ghost is_fault = { is_nonzero };

    ghost evidence = { number_evidence };
}

impl Failure for u64 {
    ghost use Rattle.vortex_checked.specs.Evidence.{is_nonzero};
    ghost use Rattle.vortex_checked.specs.EvidenceLaws.{number_evidence};

    ghost is_fault = { is_nonzero };

    ghost evidence = { number_evidence };
}
