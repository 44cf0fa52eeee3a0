//! Laws of the bytes of options. The functions are empty: their contracts are the laws, proved.
ghost use Rattle.std.specs.Prelude.{◌≡◌, Some};
ghost use Rattle.vortex_interface.specs.Shipped.{Shipped};
ghost use Rattle.vortex_shipped.specs.Words.{IsFormat, operator_bytes, operator_read};
ghost use Rattle.vortex_shipped.specs.Words.{between_bytes, between_read};
ghost use Rattle.vortex_shipped.specs.Words.{IsLikeFormat, HasCharacters, shipped_bytes};
ghost use Rattle.vortex_shipped.specs.Words.{with_options};

/// The options of Binary, Between and Like are read back from the bytes that they are written as,
/// and from no other bytes. The escape of a LIKE is a number here; only that of a character is
/// written.
pub fn options_are_read_from_their_bytes_alone()
    ensures binary { IsFormat operator_bytes operator_read }
    ensures between { IsFormat between_bytes between_read }
    ensures like { IsLikeFormat }
{}

/// The options of each shipped function, even one without options, are read back from the bytes
/// that they are written as.
pub fn options_are_read_back()
    ensures { (f : Shipped) → HasCharacters f → with_options f (shipped_bytes f) ≡ Some f }
{}
