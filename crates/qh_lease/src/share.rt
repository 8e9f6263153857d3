//! One caller's part of a tally.
ghost use Rattle.std.specs.Prelude.{◌≡◌};

use crate::ledgers::Ledgers;
use crate::slip::Slip;
use crate::totals::Totals;
use std::marker::Model;

/// One caller's part of a tally. Contracts see its three counts, which rise only through the tally that
/// made it.
#[derive(Drop)]
pub struct Share<N: Ledgers> {
    pub(crate) grants: Slip<N::Grants>,
    pub(crate) backs: Slip<N::Backs>,
    pub(crate) acks: Slip<N::Acks>,
}

impl<N: Ledgers> Model for Share<N> {
    ghost use Rattle.qh_lease.specs.declared.totals.Totals.{Totals};

    ghost Value = { Totals };

    ghost view = { λ s. record { grants = s.grants; backs = s.backs; acks = s.acks } };
}

impl<N: Ledgers> Share<N> {
    /// What was counted for this caller.
    pub fn counts(&self) -> Totals
        ensures { result ≡ self.now }
    {
        Totals {
            grants: self.grants.count(),
            backs: self.backs.count(),
            acks: self.acks.count(),
        }
    }
}
