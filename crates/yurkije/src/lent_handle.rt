//! A handle that its owner lends, as C carries it.
ghost use Rattle.std.specs.Prelude.{◌≡◌, ℕ, MatchOption, Option, None, Some};
ghost use Rattle.std.specs.Coded.{coded_option};
ghost use Rattle.yurkije.specs.Views.{HeldView};
ghost use Rattle.yurkije.specs.ViewCodes.{coded_held};
ghost use base.Fml.{Share};
ghost use base.SetCodes.{coded_share};

use crate::held::Held;
use crate::loan::Loan;
use std::marker::Model;
use std::mem;

/// A copy of a handle, with a share of a loan of what that holds: so its owner may lend it to many
/// calls at once. All zeros, it lends nothing.
#[repr(C)]
#[derive(Drop)]
pub struct LentHandle {
    at: *const u8,
    live: bool,
    ghost life: { ℕ },
    ghost share: { Share } by { coded_share },
    pub ghost held: { Option HeldView } by { coded_option coded_held },
}

impl Model for LentHandle {
    ghost use Rattle.yurkije.specs.Owned.{lent_owns};

    ghost also_owns = { λ h. lent_owns h.at h.live h.life h.share h.held };
}

impl LentHandle {
    /// A handle that lends nothing.
    pub fn empty() -> LentHandle
        ensures { result.held ≡ None }
    {
        LentHandle {
            at: std::ptr::null(),
            live: false,
        }
    }

    /// A handle of that loan.
    pub fn of(loan: Loan) -> LentHandle
        ensures { result.held ≡ Some loan.held }
    {
        let Loan { at } = loan;
        LentHandle {
            at: at as *const u8,
            live: true,
        }
    }

    /// The loan, if there is one.
    pub fn take(self) -> Option<Loan>
        ensures { MatchOption result (self.held ≡ None)
            (λ loan. self.held ≡ Some loan.held) }
    {
        let LentHandle { at, live } = self;
        if live {
            Some(Loan {
                at: at as *const Held,
            })
        } else {
            None
        }
    }

    /// Takes out the loan, and leaves the handle empty.
    pub fn open(&mut self) -> Option<Loan>
        ensures loan { MatchOption result (self.old.held ≡ None)
            (λ loan. self.old.held ≡ Some loan.held) }
        ensures left { self.new.held ≡ None }
    {
        let handle = mem::replace(self, LentHandle::empty());
        handle.take()
    }

    /// Puts the loan back.
    pub fn close(&mut self, loan: Loan)
        ensures { self.new.held ≡ Some loan.held }
    {
        *self = LentHandle::of(loan);
    }
}
