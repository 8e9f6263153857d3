//! Ranges that are granted, and given back.
ghost use Rattle.std.specs.Prelude.{◌≡◌, ◌↔◌, ◌<◌, ◌^◌, ◌+◌, ℕ, IsTrue, None, length};
ghost use Rattle.std.specs.Bool.{OnTrue, OnFalse};
ghost use Rattle.qh_limits.specs.Counts.{Rose};
ghost use Rattle.qh_plan.specs.Jobs.{ranges};
ghost use Rattle.qh_lease.specs.Lease.{lease_at, may_grant, grants_of};
ghost use Rattle.qh_core.specs.Replay.{is_begun};
ghost use Rattle.qh_board.specs.Board.{begun};
ghost use Rattle.qh_board.specs.Claims.{granted, one_grant, given_back, one_back, ClaimComes, ClaimDoes, AdmitComes, AdmitDoes, AdmitTells, StaysAsIs, TakesBack, SweepIs};

use crate::board::{Board, MOST_ENTRIES};
use crate::choice::next;
use qh_core::Course;
use qh_disk::Disk;
use qh_lease::{Lease, Ledgers, Share, Tally, Timer};
use qh_range::{Admit, Claim, Sweep, Ticket};

/// Grants a range, tells the timer and counts it.
fn grant<T: Timer, N: Ledgers>(
    course: &mut Course,
    timer: &mut T,
    tally: &mut Tally<N>,
    range: u32,
    share: &mut Share<N>,
) -> Ticket
    requires running { course.old.fault ≡ None }
    requires known { range < length course.old.leases }
    requires grantable { IsTrue (may_grant (lease_at course.old.leases range)) }
    requires few { tally.old.totals.grants < 2 ^ 63 }
    ensures range { result.range ≡ range }
    ensures attempt { result.attempt ≡ grants_of (lease_at course.old.leases range) + 1 }
    ensures course { course.new ≡ granted course.old result }
    ensures begun { (r : ℕ) → is_begun course.new r ≡ is_begun course.old r }
    ensures told { Rose (T.granted_count timer.old) (T.granted_count timer.new) }
    ensures heard { T.hears timer.old timer.new result.range result.attempt }
    ensures due { T.due_count timer.new ≡ T.due_count timer.old }
    ensures not_due { T.not_due_count timer.new ≡ T.not_due_count timer.old }
    ensures tally { tally.new ≡ record tally.old { totals = one_grant tally.old.totals } }
    ensures share { share.new ≡ one_grant share.old }
{
    let attempt = course.grant(range);
    timer.granted(range, attempt);
    tally.grant(share);
    Ticket::new(range, attempt)
}

impl<'d, D: Disk, T: Timer, N: Ledgers> Board<'d, D, T, N> {
    /// Grants the lowest fresh range; else the lowest that was given back after fewer than 16 grants; else the lowest that is out after
    /// fewer than 16 grants and for which the timer answers that it is due, asked in order. Drained where there is none of these.
    pub fn claim(&mut self, share: &mut Share<N>) -> Claim
        ensures comes { ClaimComes T.due_count T.not_due_count T.may_say self.old self.new result }
        ensures does { ClaimDoes T.granted_count T.hears self.old self.new share.old share.new result }
        ensures begun { (range : ℕ) → begun self.new range ≡ begun self.old range }
    {
        if let Some(faults) = self.course.fault() {
            return Claim::Halted { faults };
        }
        prove!(self.course.history().len() <= MOST_ENTRIES);
        let Some(range) = next(&self.course, self.timer) else {
            return Claim::Drained;
        };
        let ticket = grant(&mut self.course, self.timer, &mut self.tally, range, share);
        Claim::Granted(ticket)
    }

    /// Grants this range, which a worker drew, if it is fresh.
    pub fn admit(&mut self, range: u32, share: &mut Share<N>) -> Admit
        requires known { range < ranges self.old.job }
        ensures comes { AdmitComes self.old range result }
        ensures does { AdmitDoes T.granted_count T.hears self.old self.new share.old share.new result }
        ensures tells { AdmitTells T.hears self.old.timer.now self.new.timer.now result }
        ensures begun { (r : ℕ) → begun self.new r ≡ begun self.old r }
    {
        if let Some(faults) = self.course.fault() {
            return Admit::Halted { faults };
        }
        prove!(self.course.history().len() <= MOST_ENTRIES);
        if self.course.lease(range) != Lease::Fresh {
            return Admit::Taken;
        }
        let ticket = grant(&mut self.course, self.timer, &mut self.tally, range, share);
        Admit::Granted(ticket)
    }

    /// Takes a range back, true where the board is not halted and the range is out by the ticket's attempt. Else nothing changes.
    pub fn give_back(&mut self, ticket: Ticket, share: &mut Share<N>) -> bool
        ensures held { IsTrue result ↔ ((self.old.course.fault ≡ None) × (lease_at self.old.course.leases ticket.range ≡ Lease.Out ticket.attempt)) }
        ensures back { OnTrue result (TakesBack self.old self.new share.old share.new ticket) }
        ensures same { OnFalse result (StaysAsIs self.old self.new share.old share.new) }
        ensures begun { (range : ℕ) → begun self.new range ≡ begun self.old range }
    {
        prove!(self.course.history().len() <= MOST_ENTRIES);
        if !self.course.give_back(ticket.range(), ticket.attempt()) {
            return false;
        }
        self.tally.back(share);
        true
    }

    /// A ticket of attempt 0 for the lowest range that is not acknowledged. It grants nothing.
    pub fn sweep(&self) -> Sweep
        ensures { SweepIs self.now 0 result }
    {
        self.sweep_from(0)
    }

    /// A ticket of attempt 0 for the lowest range at or above a number that is not acknowledged. It grants nothing.
    pub fn sweep_from(&self, from: u32) -> Sweep
        ensures { SweepIs self.now from result }
    {
        if let Some(faults) = self.course.fault() {
            return Sweep::Halted { faults };
        }
        match self.course.next_open(from) {
            None => Sweep::Done,
            Some(range) => Sweep::Granted(Ticket::new(range, 0)),
        }
    }
}
