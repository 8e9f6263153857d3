//! Where workers get ranges and bring results.
ghost use Rattle.std.specs.Prelude.{◌≡◌, ◌<◌, Bool, true, false, IfSome};
ghost use Rattle.qh_lease.specs.declared.totals.Totals.{Totals};
ghost use Rattle.qh_plan.specs.Jobs.{Job, ranges};
ghost use Rattle.qh_workers.specs.Shares.{after_back};
ghost use Rattle.qh_workers.specs.Claims.{claim_ticket, after_claim, ClaimCause};
ghost use Rattle.qh_workers.specs.Admissions.{admit_ticket, after_admit, AdmitCause};
ghost use Rattle.qh_workers.specs.Deliveries.{after_delivery, DeliveryCause};

use qh_lease::{Ledgers, Share};
use qh_range::{Admit, Claim, Delivery, RangeResult, Ticket};

/// Where the workers of one job get tickets for its ranges and deliver the results. It counts with the tally of `N`: a
/// worker's share tells what it was granted, what it gave back and what was acknowledged. Each call may wait.
///
/// Which answers may come is told by facts of the desk: that it may drain, halt, repeat, refuse a give-back, and meet a
/// disk fault. Each such answer comes only where its fact holds.
pub trait Desk<N: Ledgers> {
    // the job whose ranges it gives out
    ghost job: { Self → Job };

    // that it may answer Drained, Halted, Repeat, false to a give-back, and DiskFault
    ghost may_drain: { Self → Type 0 };

    ghost may_halt: { Self → Type 0 };

    ghost may_repeat: { Self → Type 0 };

    ghost may_refuse: { Self → Type 0 };

    ghost may_fault: { Self → Type 0 };

    /// Asks for a range.
    fn claim(&self, share: &mut Share<N>) -> Claim
        ensures ticket { IfSome (claim_ticket result) (λ t. t.range < ranges (job self.now)) }
        ensures share { share.new ≡ after_claim result share.old }
        ensures cause { ClaimCause (may_drain self.now) (may_halt self.now) result };

    /// Asks for a range that the worker drew.
    fn admit(&self, range: u32, share: &mut Share<N>) -> Admit
        requires { range < ranges (job self.now) }
        ensures ticket { IfSome (admit_ticket result) (λ t. t.range < ranges (job self.now)) }
        ensures share { share.new ≡ after_admit result share.old }
        ensures cause { AdmitCause (may_halt self.now) result };

    /// Brings the result of a range. Stranger comes only where it is of another job.
    fn deliver(&self, outcome: RangeResult, share: &mut Share<N>) -> Delivery
        ensures share { share.new ≡ after_delivery result share.old }
        ensures cause { DeliveryCause (may_repeat self.now) (¬ (outcome.job ≡ job self.now)) (may_halt self.now) (may_fault self.now) result };

    /// Gives a ticket back. It answers whether the ticket was still good.
    fn give_back(&self, ticket: Ticket, share: &mut Share<N>) -> bool
        ensures share { share.new ≡ after_back result share.old }
        ensures cause { result ≡ false → may_refuse self.now };
}
