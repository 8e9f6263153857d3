//! What lies under the lock.
ghost use Rattle.std.specs.Prelude.{◌≡◌, ◌↔◌, ◌<◌, None, IfSome, IsTrue};
ghost use Rattle.std.specs.Bool.{OnTrue, OnFalse};
ghost use Rattle.qh_plan.specs.Jobs.{ranges};
ghost use Rattle.qh_lease.specs.Lease.{lease_at};
ghost use Rattle.qh_lease.specs.declared.lease.Lease.TheVariants.{Out};
ghost use Rattle.qh_board.specs.Claims.{ClaimComes, ClaimDoes, AdmitComes, AdmitDoes, StaysAsIs, TakesBack};
ghost use Rattle.qh_board.specs.Deliveries.{DeliveryComes, DeliveryDoes};
ghost use Rattle.qh_workers.specs.Shares.{after_back};
ghost use Rattle.qh_workers.specs.Claims.{claim_ticket, after_claim, ClaimCause};
ghost use Rattle.qh_workers.specs.Admissions.{admit_ticket, after_admit, AdmitCause};
ghost use Rattle.qh_workers.specs.Deliveries.{after_delivery, DeliveryCause};
ghost use Rattle.qh_run_shared.specs.Facts.{UnderLock};

use crate::named::Named;
use qh_board::Board;
use qh_disk::Disk;
use qh_lease::{Ledgers, Share, Timer};
use qh_range::{Admit, Claim, Delivery, RangeResult, Ticket};
use std::marker::{Model, PhantomData};

/// A board of which the facts of its run's name hold.
#[derive(Drop)]
pub(crate) struct Locked<'d, D: Disk, T: Timer, N: Ledgers, M: Named> {
    board: Board<'d, D, T, N>,
    of: PhantomData<M>,
}

impl<'d, D: Disk, T: Timer, N: Ledgers, M: Named> Model for Locked<'d, D, T, N, M> {
    ghost use Rattle.qh_board.specs.Board.{BoardView};
    ghost use Rattle.qh_run_shared.specs.Facts.{UnderLock};

    ghost Value = { BoardView D T };

    ghost view = { λ l. l.board };

    ghost invariant = { λ l. UnderLock D.face D.loans M.run l.board };
}

impl<'d, D: Disk, T: Timer, N: Ledgers, M: Named> Locked<'d, D, T, N, M> {
    /// A board that is to lie under a lock.
    pub(crate) fn new(board: Board<'d, D, T, N>) -> Locked<'d, D, T, N, M>
        requires { UnderLock D.face D.loans M.run board }
    {
        Locked {
            board,
            of: PhantomData,
        }
    }

    /// The board.
    pub(crate) fn into_board(self) -> Board<'d, D, T, N>
        ensures { UnderLock D.face D.loans M.run result }
    {
        let Locked { board, of: _ } = self;
        board
    }

    /// Asks for a range.
    pub(crate) fn claim(&mut self, share: &mut Share<N>) -> Claim
        ensures ticket { IfSome (claim_ticket result) (λ t. t.range < ranges M.run.job) }
        ensures share { share.new ≡ after_claim result share.old }
        ensures cause { ClaimCause (Unit {0}) (Unit {0}) result }
        ensures comes { ClaimComes T.due_count T.not_due_count T.may_say self.old self.new result }
        ensures does { ClaimDoes T.granted_count T.hears self.old self.new share.old share.new result }
    {
        self.board.claim(share)
    }

    /// Asks for a range that a worker drew.
    pub(crate) fn admit(&mut self, range: u32, share: &mut Share<N>) -> Admit
        requires { range < ranges M.run.job }
        ensures ticket { IfSome (admit_ticket result) (λ t. t.range < ranges M.run.job) }
        ensures share { share.new ≡ after_admit result share.old }
        ensures cause { AdmitCause (Unit {0}) result }
        ensures comes { AdmitComes self.old range result }
        ensures does { AdmitDoes T.granted_count T.hears self.old self.new share.old share.new result }
    {
        self.board.admit(range, share)
    }

    /// Brings the result of a range.
    pub(crate) fn deliver(&mut self, outcome: RangeResult, share: &mut Share<N>) -> Delivery
        ensures share { share.new ≡ after_delivery result share.old }
        ensures cause { DeliveryCause (Unit {0}) (¬ (outcome.job ≡ M.run.job)) (Unit {0}) (Unit {0}) result }
        ensures comes { DeliveryComes self.old outcome result }
        ensures does { DeliveryDoes D.face self.old self.new share.old share.new outcome result }
    {
        self.board.deliver(outcome, share)
    }

    /// Gives a ticket back.
    pub(crate) fn give_back(&mut self, ticket: Ticket, share: &mut Share<N>) -> bool
        ensures share { share.new ≡ after_back result share.old }
        ensures held { IsTrue result ↔ ((self.old.course.fault ≡ None) × (lease_at self.old.course.leases ticket.range ≡ Out ticket.attempt)) }
        ensures back { OnTrue result (TakesBack self.old self.new share.old share.new ticket) }
        ensures same { OnFalse result (StaysAsIs self.old self.new share.old share.new) }
    {
        self.board.give_back(ticket, share)
    }
}
