//! A loan of what a handle holds.
ghost use Rattle.std.specs.Prelude.{◌≡◌, ℕ};
ghost use Rattle.yurkije.specs.Views.{HeldView};
ghost use Rattle.yurkije.specs.ViewCodes.{coded_held};
ghost use base.Fml.{Share};
ghost use base.SetCodes.{coded_share};

use crate::held::Held;
use std::marker::Model;

/// A share of a loan. While there is one, what is lent is read alone, and stays where it is: who owns
/// it ends the loan with all shares in hand.
#[derive(Drop)]
pub struct Loan {
    pub(super) at: *const Held,
    pub(super) ghost life: { ℕ },
    pub(super) ghost share: { Share } by { coded_share },
    pub ghost held: { HeldView } by { coded_held },
}

impl Model for Loan {
    ghost use Rattle.yurkije.specs.Owned.{loan_owns, loan_lends};

    ghost also_owns = { λ l. loan_owns l.at l.life l.share l.held };

    ghost also_shares = { λ l _ κ. loan_lends l.at l.held κ };
}

impl Loan {
    /// What is lent.
    pub fn get(&self) -> &Held
        ensures { result.now ≡ self.now.held }
    {
        unsafe { &*self.at }
    }
}
