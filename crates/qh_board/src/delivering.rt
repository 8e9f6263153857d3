//! Results that are recorded.
ghost use Rattle.std.specs.Prelude.{◌≡◌, ◌≢◌, ◌≤◌, ◌+◌, ◌^◌, ℕ, All, None, length};
ghost use Rattle.qh_lease.specs.Lease.{lease_at};
ghost use Rattle.qh_journal.specs.Calls.{Went};
ghost use Rattle.qh_board.specs.Board.{begun, Serves};
ghost use Rattle.qh_core.specs.Replay.{is_begun};
ghost use Rattle.qh_slots.specs.Running.{IsTotalOf};
ghost use Rattle.qh_board.specs.Groups.{GroupComes, GroupDoes, more_acks};
ghost use Rattle.qh_board.specs.Picking.{AreWaiting, IsBehind, all_noted};
ghost use Rattle.qh_board.specs.Deliveries.{DeliveryComes, DeliveryDoes};

use crate::board::{Board, MOST_ENTRIES};
use crate::group::Group;
use crate::picking::{Entry, pick};
use crate::start::add_slot;
use qh_core::Course;
use qh_disk::Disk;
use qh_journal::Journal;
use qh_lease::{Lease, Ledgers, Share, Tally, Timer};
use qh_plan::{Job, range_value_fits};
use qh_range::{Delivery, RangeResult};
use qh_slots::RunningTotal;

/// Acknowledges the ranges of some entries in turn, whose verdicts stand in the journal, and adds these verdicts to the total.
fn acknowledge_all<D: Disk, N: Ledgers>(
    course: &mut Course,
    total: &mut RunningTotal,
    tally: &mut Tally<N>,
    share: &mut Share<N>,
    journal: &Journal<D>,
    job: &Job,
    entries: &[Entry],
)
    requires job { journal.now.job ≡ job.now }
    requires running { course.old.fault ≡ None }
    requires waiting { AreWaiting course.old.leases entries.now }
    requires behind { IsBehind job.now entries.now journal.now.table total.old }
    requires few { tally.old.totals.acks + length entries.now ≤ 2 ^ 63 }
    ensures course { course.new ≡ all_noted course.old entries.now }
    ensures begun { (r : ℕ) → is_begun course.new r ≡ is_begun course.old r }
    ensures total { IsTotalOf job.now journal.now.table total.new }
    ensures tally { tally.new ≡ record tally.old { totals = more_acks tally.old.totals (length entries.now) } }
    ensures share { share.new ≡ more_acks share.old (length entries.now) }
{
    for entry in entries {
        add_slot(total, journal, job, entry.range);
        course.acknowledge(entry.range, entry.attempt);
        tally.ack(share);
    }
}

impl<'d, D: Disk, T: Timer, N: Ledgers> Board<'d, D, T, N> {
    /// Records a result: stores its verdict in the journal, and then acknowledges its range. A result of an old attempt, or of a
    /// range that was never granted, counts where its range is not acknowledged.
    pub fn deliver(&mut self, outcome: RangeResult, share: &mut Share<N>) -> Delivery
        ensures comes { DeliveryComes self.old outcome result }
        ensures does { DeliveryDoes D.face self.old self.new share.old share.new outcome result }
        ensures disk { Went (Serves D.face D.loans self.old.job) self.old.journal.disk self.new.journal.disk }
        ensures begun { (range : ℕ) → begun self.new range ≡ begun self.old range }
    {
        if let Some(faults) = self.course.fault() {
            return Delivery::Halted { faults };
        }
        if !self.job.same(outcome.job()) {
            return Delivery::Stranger;
        }
        if self.course.lease(outcome.range()) == Lease::Acked {
            return Delivery::Repeat;
        }
        self.record(outcome, share)
    }

    /// Stores a result of the board's job whose range is not acknowledged, and acknowledges it.
    fn record(&mut self, outcome: RangeResult, share: &mut Share<N>) -> Delivery
        requires running { self.old.course.fault ≡ None }
        requires job { outcome.job ≡ self.old.job }
        requires waiting { lease_at self.old.course.leases outcome.range ≢ Lease.Acked }
        ensures comes { DeliveryComes self.old outcome result }
        ensures does { DeliveryDoes D.face self.old self.new share.old share.new outcome result }
        ensures disk { Went (Serves D.face D.loans self.old.job) self.old.journal.disk self.new.journal.disk }
        ensures begun { (range : ℕ) → begun self.new range ≡ begun self.old range }
    {
        range_value_fits();
        prove!(!self.journal.failed());
        prove!(self.course.history().len() <= MOST_ENTRIES);
        let range = outcome.range();
        let attempt = outcome.attempt();
        prove!(range < self.job.ranges());
        if let Err(failed) = self.journal.store(range, outcome.into_verdict()) {
            self.course.halt(failed.faults);
            return Delivery::DiskFault;
        }
        add_slot(&mut self.total, &self.journal, &self.job, range);
        self.course.acknowledge(range, attempt);
        self.tally.ack(share);
        Delivery::Acked
    }

    /// Records the results of a group: stores their verdicts together, and then acknowledges their ranges. A result whose range is
    /// acknowledged, or is that of an earlier one, is dropped; Repeat where all are.
    pub fn deliver_group(&mut self, group: Group, share: &mut Share<N>) -> Delivery
        requires job { All (λ r. r.job ≡ self.old.job) group }
        ensures comes { GroupComes self.old group result }
        ensures does { GroupDoes D.face self.old self.new share.old share.new group result }
        ensures disk { Went (Serves D.face D.loans self.old.job) self.old.journal.disk self.new.journal.disk }
        ensures begun { (range : ℕ) → begun self.new range ≡ begun self.old range }
    {
        if let Some(faults) = self.course.fault() {
            return Delivery::Halted { faults };
        }
        let picked = pick(&self.course, &self.job, group);
        if picked.members.is_empty() {
            return Delivery::Repeat;
        }
        range_value_fits();
        prove!(!self.journal.failed());
        prove!(self.course.history().len() <= MOST_ENTRIES);
        prove!(0 < self.job.ranges());
        if let Err(failed) = self.journal.store_group(picked.members) {
            self.course.halt(failed.faults);
            return Delivery::DiskFault;
        }
        acknowledge_all(
            &mut self.course,
            &mut self.total,
            &mut self.tally,
            share,
            &self.journal,
            &self.job,
            picked.entries.as_slice(),
        );
        Delivery::Acked
    }
}
