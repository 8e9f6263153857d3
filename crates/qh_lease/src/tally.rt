//! What callers were granted, gave back and were acknowledged, in total.
ghost use Rattle.std.specs.Prelude.{◌≡◌, ◌+◌, ◌-◌, ◌<◌, ◌^◌};
ghost use Rattle.qh_lease.specs.Register.{IsBlankOf};
ghost use Rattle.qh_lease.specs.Tally.{nothing, together};

use crate::ledgers::{Counted, LEDGER_PARTS, Ledgers, Three};
use crate::register::Register;
use crate::share::Share;
use crate::totals::Totals;
use std::marker::Model;
use std::sync::ledger::Blank;

/// The totals of what its shares counted. It makes the shares and takes them back.
///
/// Contracts see how many shares are out, the totals, and what the settled shares counted. No call takes
/// memory.
#[derive(Drop)]
pub struct Tally<N: Ledgers> {
    grants: Register<N::Grants>,
    backs: Register<N::Backs>,
    acks: Register<N::Acks>,
}

impl<N: Ledgers> Model for Tally<N> {
    ghost use Rattle.std.specs.Prelude.{◌≡◌};
    ghost use Rattle.qh_lease.specs.Tally.{Count};

    ghost Value = { Count };

    ghost view = { λ t. record {
      out = t.grants.out;
      totals = record { grants = t.grants.total; backs = t.backs.total; acks = t.acks.total };
      settled = record { grants = t.grants.settled; backs = t.backs.settled; acks = t.acks.settled };
    } };

    ghost invariant = { λ t. (t.backs.out ≡ t.grants.out) × (t.acks.out ≡ t.grants.out) };
}

impl<G: Counted, B: Counted, A: Counted> Tally<Three<G, B, A>> {
    /// A tally that has made no share and counted nothing, over the ledgers of three blanks.
    pub fn new(grants: Blank, backs: Blank, acks: Blank) -> Tally<Three<G, B, A>>
        requires grants { IsBlankOf grants.name grants.parts G.name G.parts }
        requires backs { IsBlankOf backs.name backs.parts B.name B.parts }
        requires acks { IsBlankOf acks.name acks.parts A.name A.parts }
        ensures out { result.out ≡ 0 }
        ensures totals { result.totals ≡ nothing }
        ensures settled { result.settled ≡ nothing }
    {
        Tally {
            grants: Register::open(grants),
            backs: Register::open(backs),
            acks: Register::open(acks),
        }
    }
}

impl<N: Ledgers> Tally<N> {
    /// How many shares were made and not settled.
    pub fn shares_out(&self) -> u64
        ensures { result ≡ self.now.out }
    {
        self.grants.out()
    }

    /// A share that has counted nothing.
    pub fn new_share(&mut self) -> Share<N>
        requires { self.old.out < LEDGER_PARTS - 1 }
        ensures share { result ≡ nothing }
        ensures tally { self.new ≡ record self.old { out = self.old.out + 1 } }
    {
        Share {
            grants: self.grants.give_slip(),
            backs: self.backs.give_slip(),
            acks: self.acks.give_slip(),
        }
    }

    /// Counts a grant, at the share and in total.
    pub fn grant(&mut self, share: &mut Share<N>)
        requires { self.old.totals.grants < 2 ^ 63 }
        ensures share { share.new ≡ record share.old { grants = share.old.grants + 1 } }
        ensures totals { self.new.totals ≡ record self.old.totals { grants = self.old.totals.grants + 1 } }
        ensures out { self.new.out ≡ self.old.out }
        ensures settled { self.new.settled ≡ self.old.settled }
    {
        self.grants.count(&mut share.grants);
    }

    /// Counts a give-back, at the share and in total.
    pub fn back(&mut self, share: &mut Share<N>)
        requires { self.old.totals.backs < 2 ^ 63 }
        ensures share { share.new ≡ record share.old { backs = share.old.backs + 1 } }
        ensures totals { self.new.totals ≡ record self.old.totals { backs = self.old.totals.backs + 1 } }
        ensures out { self.new.out ≡ self.old.out }
        ensures settled { self.new.settled ≡ self.old.settled }
    {
        self.backs.count(&mut share.backs);
    }

    /// Counts an acknowledgement, at the share and in total.
    pub fn ack(&mut self, share: &mut Share<N>)
        requires { self.old.totals.acks < 2 ^ 63 }
        ensures share { share.new ≡ record share.old { acks = share.old.acks + 1 } }
        ensures totals { self.new.totals ≡ record self.old.totals { acks = self.old.totals.acks + 1 } }
        ensures out { self.new.out ≡ self.old.out }
        ensures settled { self.new.settled ≡ self.old.settled }
    {
        self.acks.count(&mut share.acks);
    }

    /// Takes a share back, and adds what it counted to what is settled.
    pub fn settle(&mut self, share: Share<N>)
        requires { 0 < self.old.out }
        ensures out { self.new.out + 1 ≡ self.old.out }
        ensures totals { self.new.totals ≡ self.old.totals }
        ensures settled { self.new.settled ≡ together self.old.settled share }
    {
        let Share {
            grants,
            backs,
            acks,
        } = share;
        self.grants.take_slip(grants);
        self.backs.take_slip(backs);
        self.acks.take_slip(acks);
    }

    /// What the settled shares counted: the totals, where no share is out.
    pub fn settled(&mut self) -> Totals
        ensures settled { result ≡ self.old.settled }
        ensures same { self.new ≡ self.old }
        ensures whole { self.old.out ≡ 0 → result ≡ self.old.totals }
    {
        Totals {
            grants: self.grants.settled(),
            backs: self.backs.settled(),
            acks: self.acks.settled(),
        }
    }

    /// What was counted since the tally was made.
    pub fn totals(&self) -> Totals
        ensures { result ≡ self.now.totals }
    {
        Totals {
            grants: self.grants.total(),
            backs: self.backs.total(),
            acks: self.acks.total(),
        }
    }
}
