//! A run over a journal that is attached.
ghost use Rattle.std.specs.Prelude.{◌≡◌, ◌<◌, ◌-◌, false, None, IfOk, IfErr, IfSome, IsSome, OnOk, length};
ghost use Rattle.std.specs.Option.{ForSome};
ghost use Rattle.std.specs.Arc.{arc_value};
ghost use Rattle.qh_limits.specs.Counts.{RoseBy};
ghost use Rattle.qh_plan.specs.Jobs.{IsJob, ranges};
ghost use Rattle.qh_disk.specs.Disk.{Reads};
ghost use Rattle.qh_slots.specs.Stands.{Slots};
ghost use Rattle.qh_slots.specs.Record.{count_bare, IsFull};
ghost use Rattle.qh_slots.specs.Moments.{GoesOn};
ghost use Rattle.qh_journal.specs.Calls.{Went};
ghost use Rattle.qh_lease.specs.Lease.{NonePasses};
ghost use Rattle.qh_lease.specs.Register.{IsBlankOf};
ghost use Rattle.qh_lease.specs.Tally.{nothing};
ghost use Rattle.qh_core.specs.Replay.{is_open};
ghost use Rattle.qh_board.specs.Board.{BeganWith, Serves};
ghost use Rattle.qh_run.specs.Ends.{answer_of, IsBounded};
ghost use Rattle.qh_run.specs.Carrying.{Carries, count_fresh, Completes, MayStop, MayLeave};

use crate::ended::RunEnd;
use crate::ranges::take_turns;
use crate::stop::Stop;
use crate::sweep::sweep;
use crate::worker::Worker;
use qh_board::Board;
use qh_disk::Disk;
use qh_half::Steps;
use qh_journal::Journal;
use qh_lease::{Counted, LEDGER_PARTS, Ledgers, Share, Tally, Three, Timer};
use qh_plan::Job;
use std::alloc::{AllocError, Global};
use std::marker::Brand;
use std::sync::Arc;
use std::sync::ledger::{Blank, Ledger};

/// What a run over a journal leaves: the journal's disk, where it is kept on one, and how the run ended.
#[derive(Drop)]
pub(crate) struct Left<D> {
    pub(crate) disk: Option<D>,
    pub(crate) end: RunEnd,
}

/// The total of the slots, none of which is missing. An Err is want of memory.
pub(crate) fn answer<D: Disk, T: Timer, N: Ledgers>(
    alloc: Global,
    board: &Board<'_, D, T, N>,
) -> Result<RunEnd, AllocError>
    requires valid { IsJob board.now.job }
    requires running { board.now.course.fault ≡ None }
    requires all { NonePasses is_open 0 board.now.course.leases }
    ensures whole { (s0 : Slots) → BeganWith board.now s0 → IfOk result (λ end. IfSome (answer_of end) (Completes D.face board.now.job s0 board.now.journal.disk)) }
    ensures answers { IfOk result (λ end. IsSome (answer_of end)) }
    ensures bounded { IfOk result (λ end. IfSome (answer_of end) (IsBounded board.now.job)) }
{
    prove!(board.finished());
    if let Some(path) = board.overflow() {
        return Ok(RunEnd::Over { path });
    }
    let sums = Vec::from_slice(alloc, board.sums())?;
    Ok(RunEnd::Sums(sums))
}

/// Evaluates and records every range that is not recorded, and answers the total.
fn run_all<D: Disk, T: Timer, N: Ledgers, L: Ledger>(
    alloc: Global,
    board: &mut Board<'_, D, T, N>,
    worker: &mut Worker<L>,
    share: &mut Share<N>,
) -> Result<RunEnd, Stop>
    requires valid { IsJob board.old.job }
    requires same { worker.old ≡ board.old.job }
    requires running { board.old.course.fault ≡ None }
    requires count { length board.old.course.leases ≡ ranges board.old.job }
    ensures carries { Carries D.face D.loans board.old board.new }
    ensures whole { (s0 : Slots) → BeganWith board.old s0 → IfOk result (λ end. IfSome (answer_of end) (Completes D.face board.old.job s0 board.new.journal.disk)) }
    ensures answers { IfOk result (λ end. IsSome (answer_of end)) }
    ensures bounded { IfOk result (λ end. IfSome (answer_of end) (IsBounded board.old.job)) }
    ensures granted { OnOk result (RoseBy (count_fresh board.old) (T.granted_count board.old.timer.now) (T.granted_count board.new.timer.now)) }
    ensures stop { IfErr result (MayStop D.face board.old board.new) }
{
    take_turns(board, worker, share)?;
    sweep(board, worker, share)?;
    Ok(answer(alloc, board)?)
}

/// Runs a board to its end, or until the disk fails or memory lacks.
fn run_to_end<D: Disk, T: Timer, N: Ledgers, L: Ledger>(
    alloc: Global,
    board: &mut Board<'_, D, T, N>,
    worker: &mut Worker<L>,
) -> RunEnd
    requires valid { IsJob board.old.job }
    requires same { worker.old ≡ board.old.job }
    requires running { board.old.course.fault ≡ None }
    requires count { length board.old.course.leases ≡ ranges board.old.job }
    requires out { board.old.tally.out < LEDGER_PARTS - 1 }
    ensures carries { Carries D.face D.loans board.old board.new }
    ensures whole { (s0 : Slots) → BeganWith board.old s0 → IfSome (answer_of result) (Completes D.face board.old.job s0 board.new.journal.disk) }
    ensures bounded { IfSome (answer_of result) (IsBounded board.old.job) }
    ensures cause { MayLeave D.face board.old.journal.disk board.new.journal.disk result }
    ensures granted { IsSome (answer_of result) → RoseBy (count_fresh board.old) (T.granted_count board.old.timer.now) (T.granted_count board.new.timer.now) }
    ensures goes_on { (s0 : Slots) → BeganWith board.old s0 → ForSome board.new.journal.disk (λ e. Reads (D.face e) (GoesOn board.old.job s0)) }
{
    let mut share = board.new_share();
    let ran = run_all(alloc, board, worker, &mut share);
    prove!(board.finished() || !board.finished());
    match ran {
        Ok(end) => end,
        Err(Stop::Disk) => RunEnd::Disk,
        Err(Stop::Memory) => RunEnd::Memory,
    }
}

/// Runs the job of a journal to its end, or until the disk fails or memory lacks. Memory for the board and the worker is taken first.
fn run_by<D: Disk, T: Timer, N: Ledgers, L: Ledger>(
    alloc: Global,
    journal: Journal<D>,
    job: Arc<Job>,
    timer: &mut T,
    tally: Tally<N>,
    steps: Steps<L>,
) -> Left<D>
    requires job { journal.job ≡ arc_value job }
    requires whole { journal.failed ≡ false }
    requires out { tally.out ≡ 0 }
    requires totals { tally.totals ≡ nothing }
    requires settled { tally.settled ≡ nothing }
    ensures whole { IfSome (answer_of result.end) (Completes D.face (arc_value job) journal.table result.disk) }
    ensures bounded { IfSome (answer_of result.end) (IsBounded (arc_value job)) }
    ensures cause { MayLeave D.face journal.disk result.disk result.end }
    ensures granted { IsSome (answer_of result.end) → RoseBy (count_bare (arc_value job) journal.table) (T.granted_count timer.old) (T.granted_count timer.new) }
    ensures finished { IsFull (arc_value job) journal.table → result.disk ≡ journal.disk }
    ensures disk { Went (Serves D.face D.loans (arc_value job)) journal.disk result.disk }
    ensures goes_on { ForSome result.disk (λ e. Reads (D.face e) (GoesOn (arc_value job) journal.table)) }
{
    prove!(!journal.failed());
    prove!(!job.bits().is_empty());
    let Ok(mut worker) = Worker::<L>::new(alloc, &job, steps) else {
        return Left {
            disk: journal.into_disk(),
            end: RunEnd::Memory,
        };
    };
    let mut board = match Board::attach(alloc, journal, job, timer, tally) {
        Ok(board) => board,
        Err(unmade) => {
            return Left {
                disk: unmade.disk,
                end: RunEnd::Memory,
            };
        }
    };
    let end = run_to_end(alloc, &mut board, &mut worker);
    let (disk, _timer) = board.part();
    Left { disk, end }
}

/// The same over ledgers that are blank: three for the tally, and one for the steps.
fn run_over<D: Disk, T: Timer, G: Counted, B: Counted, A: Counted, L: Ledger>(
    alloc: Global,
    journal: Journal<D>,
    job: Arc<Job>,
    timer: &mut T,
    blanks: (Blank, Blank, Blank),
    steps: Blank,
) -> Left<D>
    requires job { journal.job ≡ arc_value job }
    requires whole { journal.failed ≡ false }
    requires grants { IsBlankOf blanks.0.name blanks.0.parts G.name G.parts }
    requires backs { IsBlankOf blanks.1.name blanks.1.parts B.name B.parts }
    requires acks { IsBlankOf blanks.2.name blanks.2.parts A.name A.parts }
    requires steps_name { steps.name ≡ L.name }
    requires steps_parts { steps.parts ≡ L.parts }
    requires steps_some { 0 < steps.parts }
    ensures whole { IfSome (answer_of result.end) (Completes D.face (arc_value job) journal.table result.disk) }
    ensures bounded { IfSome (answer_of result.end) (IsBounded (arc_value job)) }
    ensures cause { MayLeave D.face journal.disk result.disk result.end }
    ensures granted { IsSome (answer_of result.end) → RoseBy (count_bare (arc_value job) journal.table) (T.granted_count timer.old) (T.granted_count timer.new) }
    ensures finished { IsFull (arc_value job) journal.table → result.disk ≡ journal.disk }
    ensures disk { Went (Serves D.face D.loans (arc_value job)) journal.disk result.disk }
    ensures goes_on { ForSome result.disk (λ e. Reads (D.face e) (GoesOn (arc_value job) journal.table)) }
{
    let (grants, backs, acks) = blanks;
    let tally = Tally::<Three<G, B, A>>::new(grants, backs, acks);
    run_by(alloc, journal, job, timer, tally, Steps::<L>::new(steps))
}

/// Runs the job of a journal to its end, or until the disk fails or memory lacks.
pub(crate) fn run_journal<D: Disk, T: Timer>(
    alloc: Global,
    journal: Journal<D>,
    job: Arc<Job>,
    timer: &mut T,
) -> Left<D>
    requires job { journal.job ≡ arc_value job }
    requires whole { journal.failed ≡ false }
    ensures whole { IfSome (answer_of result.end) (Completes D.face (arc_value job) journal.table result.disk) }
    ensures bounded { IfSome (answer_of result.end) (IsBounded (arc_value job)) }
    ensures cause { MayLeave D.face journal.disk result.disk result.end }
    ensures granted { IsSome (answer_of result.end) → RoseBy (count_bare (arc_value job) journal.table) (T.granted_count timer.old) (T.granted_count timer.new) }
    ensures finished { IsFull (arc_value job) journal.table → result.disk ≡ journal.disk }
    ensures disk { Went (Serves D.face D.loans (arc_value job)) journal.disk result.disk }
    ensures goes_on { ForSome result.disk (λ e. Reads (D.face e) (GoesOn (arc_value job) journal.table)) }
{
    let blanks = (
        Blank::new(LEDGER_PARTS),
        Blank::new(LEDGER_PARTS),
        Blank::new(LEDGER_PARTS),
    );
    run_over::<D, T, Brand, Brand, Brand, Brand>(alloc, journal, job, timer, blanks, Blank::new(1))
}
