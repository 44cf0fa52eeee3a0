//! A program or answers on the heap, or nothing, as C carries them.
ghost use Rattle.std.specs.Prelude.{◌≡◌, MatchOption, Option, None, Some};
ghost use Rattle.std.specs.Coded.{coded_option};
ghost use Rattle.yurkije.specs.Views.{HeldView};
ghost use Rattle.yurkije.specs.ViewCodes.{coded_held};

use crate::held::Held;
use crate::parts::Parts;
use std::alloc::Global;
use std::marker::Model;

/// What C gives back as it got it. All zeros, it holds nothing.
#[repr(C)]
pub struct Handle {
    at: *mut u8,
    alloc: Global,
    live: bool,
    pub ghost held: { Option HeldView } by { coded_option coded_held },
}

impl Model for Handle {
    ghost use Rattle.yurkije.specs.Owned.{held_owns};

    ghost also_owns = { λ h. held_owns h.at h.alloc h.live h.held };
}

impl Handle {
    /// A handle that holds nothing.
    pub fn empty(alloc: Global) -> Handle
        ensures { result.held ≡ None }
    {
        Handle {
            at: std::ptr::null_mut(),
            alloc,
            live: false,
        }
    }

    /// A handle of that box.
    pub fn of(parts: Parts<Held, Global>) -> Handle
        ensures { result.held ≡ Some parts.value }
    {
        let Parts { ptr, alloc } = parts;
        Handle {
            at: ptr as *mut u8,
            alloc,
            live: true,
        }
    }

    /// The box that is held, if there is one.
    pub fn take(self) -> Option<Parts<Held, Global>>
        ensures { MatchOption result (self.held ≡ None)
            (λ parts. self.held ≡ Some parts.value) }
    {
        let Handle { at, alloc, live } = self;
        if live {
            Some(Parts {
                ptr: at as *mut Held,
                alloc,
            })
        } else {
            None
        }
    }

    /// Frees what is held.
    pub fn clear(&mut self, alloc: Global)
        ensures { self.new.held ≡ None }
    {
        *self = Handle::empty(alloc);
    }

    /// Holds that, and frees what was held.
    pub fn close(&mut self, held: Box<Held>)
        ensures { self.new.held ≡ Some held.value }
    {
        *self = Handle::of(Parts::of(held));
    }
}

/// What is held goes too.
impl Drop for Handle {
    fn drop(self) {
        if let Some(parts) = self.take() {
            drop(parts.into_box());
        }
    }
}
