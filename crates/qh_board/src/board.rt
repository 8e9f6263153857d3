//! The board and its readers.
ghost use Rattle.std.specs.Prelude.{◌≡◌, ◌↔◌, ◌≤◌, ◌<◌, ◌*◌, ◌+◌, ◌-◌, ℕ, All, false, IfOk, IfErr, IsTrue, length};
ghost use Rattle.std.specs.Arc.{arc_value};
ghost use Rattle.qh_limits.specs.Limits.{coefficient_bits};
ghost use Rattle.qh_ring.specs.Numbers.{IsWithin};
ghost use Rattle.qh_plan.specs.Jobs.{ranges};
ghost use Rattle.qh_slots.specs.Stands.{slot_at};
ghost use Rattle.qh_journal.specs.Calls.{IsJournal};
ghost use Rattle.qh_lease.specs.Lease.{NonePasses};
ghost use Rattle.qh_lease.specs.Tally.{nothing, together};
ghost use Rattle.qh_core.specs.Noted.{counted};
ghost use Rattle.qh_core.specs.Replay.{is_open};
ghost use Rattle.qh_core.specs.Course.{IsCourse};
ghost use Rattle.qh_board.specs.Board.{IsBoard, begun, started};

use crate::start::{course_of, total_of};
use qh_core::{Course, Noted};
use qh_disk::Disk;
use qh_journal::{Journal, Unmade};
use qh_lease::{LEDGER_PARTS, Ledgers, Share, Tally, Timer, Totals};
use qh_limits::MAX_RANGES;
use qh_plan::Job;
use qh_ring::Omega;
use qh_slots::RunningTotal;
use std::alloc::{AllocError, Global};
use std::marker::Model;
use std::sync::Arc;

// No history is longer, so no count of it comes near its limit.
pub(crate) const MOST_ENTRIES: usize = 64 * MAX_RANGES as usize;

/// The board of a run: the leases of its ranges, its journal, and all that was done since it was attached. It borrows its timer and
/// owns its journal.
#[derive(Drop)]
pub struct Board<'d, D: Disk, T: Timer, N: Ledgers> {
    pub(crate) journal: Journal<D>,
    pub(crate) job: Arc<Job>,
    pub(crate) timer: &'d mut T,
    pub(crate) course: Course,
    pub(crate) total: RunningTotal,
    pub(crate) tally: Tally<N>,
}

impl<'d, D: Disk, T: Timer, N: Ledgers> Model for Board<'d, D, T, N> {
    ghost use Rattle.std.specs.Arc.{arc_value};
    ghost use Rattle.qh_board.specs.Board.{BoardView, IsBoard};

    ghost Value = { BoardView D T };

    ghost view = { λ b. record { job = arc_value b.job; journal = b.journal; timer = b.timer; course = b.course; total = b.total; tally = b.tally } };

    ghost invariant = { λ b.
        let seen : BoardView D T = record { job = arc_value b.job; journal = b.journal; timer = b.timer; course = b.course; total = b.total; tally = b.tally } in
        IsBoard D.face seen };
}

impl<'d, D: Disk, T: Timer, N: Ledgers> Board<'d, D, T, N> {
    /// The board of a run that goes on from this journal: the ranges whose slots are open are acknowledged, the others fresh. Only
    /// this call takes memory. Where it finds none it hands the journal's disk back, and has made no call of it.
    pub fn attach(
        alloc: Global,
        journal: Journal<D>,
        job: Arc<Job>,
        timer: &'d mut T,
        tally: Tally<N>,
    ) -> Result<Board<'d, D, T, N>, Unmade<Option<D>, AllocError>>
        requires job { journal.job ≡ arc_value job }
        requires whole { journal.failed ≡ false }
        requires out { tally.out ≡ 0 }
        requires totals { tally.totals ≡ nothing }
        requires settled { tally.settled ≡ nothing }
        ensures job { IfOk result (λ b. b.job ≡ arc_value job) }
        ensures journal { IfOk result (λ b. b.journal ≡ journal) }
        ensures timer { IfOk result (λ b. b.timer ≡ timer.entry) }
        ensures tally { IfOk result (λ b. b.tally ≡ tally) }
        ensures course { IfOk result (λ b. b.course ≡ started journal.table) }
        ensures begun { IfOk result (λ b. (range : ℕ) → begun b range ≡ slot_at journal.table range) }
        ensures back { IfErr result (λ u. u.disk ≡ journal.disk) }
    {
        prove!(!journal.failed());
        let Ok(course) = course_of(alloc, &journal, &job) else {
            return Err(Unmade {
                disk: journal.into_disk(),
                fault: AllocError,
            });
        };
        let Ok(total) = total_of(alloc, &journal, &job) else {
            return Err(Unmade {
                disk: journal.into_disk(),
                fault: AllocError,
            });
        };
        Ok(Board {
            journal,
            job,
            timer,
            course,
            total,
            tally,
        })
    }

    /// Whether every range is acknowledged.
    pub fn finished(&self) -> bool
        ensures all { IsTrue result ↔ NonePasses is_open 0 self.now.course.leases }
        ensures valid { IsBoard D.face self.now }
        ensures journal { IsJournal D.face self.now.journal }
        ensures course { IsCourse self.now.course }
    {
        prove!(self.journal.failed() == self.course.fault().is_some());
        prove!(self.course.history().len() <= MOST_ENTRIES);
        self.course.is_finished()
    }

    /// For each asked bitstring, in their order, the sum of the numbers of the open slots. A slot that names a path gives nothing.
    pub fn sums(&self) -> &[Omega]
        ensures value { result.now ≡ self.now.total.sums }
        ensures within { All (IsWithin coefficient_bits) self.now.total.sums }
    {
        self.total.sums()
    }

    /// The least path that an open slot names, None where none does.
    pub fn overflow(&self) -> Option<u64>
        ensures { result ≡ self.now.total.over }
    {
        self.total.over()
    }

    /// All that was done since the board was attached, the first first.
    pub fn history(&self) -> &[Noted]
        ensures entries { result.now ≡ self.now.course.history }
        ensures few { length result.now ≤ 64 * ranges self.now.job }
    {
        self.course.history()
    }

    /// A share for one more caller.
    pub fn new_share(&mut self) -> Share<N>
        requires { self.old.tally.out < LEDGER_PARTS - 1 }
        ensures share { result ≡ nothing }
        ensures board { self.new ≡ record self.old { tally = record self.old.tally { out = self.old.tally.out + 1 } } }
    {
        self.tally.new_share()
    }

    /// How many shares were made and not settled.
    pub fn shares_out(&self) -> u64
        ensures { result ≡ self.now.tally.out }
    {
        self.tally.shares_out()
    }

    /// Takes a share back, and adds what it counted to what is settled.
    pub fn settle(&mut self, share: Share<N>)
        requires { 0 < self.old.tally.out }
        ensures board { self.new ≡ record self.old { tally = self.new.tally } }
        ensures out { self.new.tally.out + 1 ≡ self.old.tally.out }
        ensures totals { self.new.tally.totals ≡ self.old.tally.totals }
        ensures settled { self.new.tally.settled ≡ together self.old.tally.settled share }
    {
        self.tally.settle(share);
    }

    /// What the settled shares counted: what the history counts, where no share is out.
    pub fn settled(&mut self) -> Totals
        ensures settled { result ≡ self.old.tally.settled }
        ensures same { self.new ≡ self.old }
        ensures whole { self.old.tally.out ≡ 0 → result ≡ counted self.old.course.history }
    {
        self.tally.settled()
    }

    /// The grants, give-backs and acknowledgements in the history.
    pub fn totals(&self) -> Totals
        ensures value { result ≡ self.now.tally.totals }
        ensures counts { result ≡ counted self.now.course.history }
    {
        self.tally.totals()
    }

    /// The disk of the journal, None where it is kept on none.
    pub fn into_disk(self) -> Option<D>
        ensures { result ≡ self.entry.journal.disk }
    {
        self.part().0
    }

    /// The disk of the journal, None where it is kept on none, and the timer that was lent.
    pub fn part(self) -> (Option<D>, &'d mut T)
        ensures disk { result.0 ≡ self.entry.journal.disk }
        ensures timer { result.1 ≡ self.entry.timer }
    {
        let Board {
            journal,
            job: _,
            timer,
            course: _,
            total: _,
            tally: _,
        } = self;
        (journal.into_disk(), timer)
    }
}
