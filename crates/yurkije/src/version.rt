//! Which interface the library has.
ghost use Rattle.std.specs.Prelude.{◌≡◌, codes};
ghost use Rattle.yurkije.specs.Asking.{IsPut};

use crate::queries::put;

/// The version of the interface.
#[unsafe(no_mangle)]
pub extern "C" fn yk_abi_version() -> u32
    ensures { result ≡ 1 }
{
    1
}

/// The library's name and version.
#[unsafe(no_mangle)]
pub extern "C" fn yk_version(room: &mut [u8], len: &mut usize) -> u32
    ensures { IsPut (codes "yurkije 0.1.0") room.old room.new len.new result }
{
    put("yurkije 0.1.0", room, len)
}
