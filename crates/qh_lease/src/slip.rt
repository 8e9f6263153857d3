//! A share's part of one ledger.
ghost use Rattle.std.specs.Prelude.{◌≡◌};

use crate::ledgers::Counted;
use std::marker::Model;
use std::sync::ledger;

// A share's part of one ledger, with its count. Contracts see the count.
#[derive(Drop)]
pub struct Slip<L: Counted> {
    pub count: u64,
    pub part: ledger::Share<L>,
}

impl<L: Counted> Model for Slip<L> {
    ghost use Rattle.std.specs.Prelude.{ℕ};
    ghost use Rattle.qh_lease.specs.Register.{IsSlip};

    ghost Value = { ℕ };

    ghost view = { λ s. s.count };

    ghost invariant = { λ s. IsSlip s.count s.part.parts s.part.amount };
}

impl<L: Counted> Slip<L> {
    pub fn count(&self) -> u64
        ensures { result ≡ self.now }
    {
        self.count
    }
}
