//! What is left of a run whose workers have ended.
ghost use Rattle.std.specs.Prelude.{◌≡◌, ◌<◌, ◌-◌, None, IfOk, IfErr, IfSome, IsSome, length};
ghost use Rattle.std.specs.Option.{ForSome};
ghost use Rattle.std.specs.Arc.{arc_value};
ghost use Rattle.qh_plan.specs.Jobs.{IsJob, ranges};
ghost use Rattle.qh_disk.specs.Disk.{Reads};
ghost use Rattle.qh_slots.specs.Stands.{Slots};
ghost use Rattle.qh_slots.specs.Moments.{GoesOn};
ghost use Rattle.qh_board.specs.Board.{BeganWith};
ghost use Rattle.qh_run.specs.Ends.{answer_of, IsBounded};
ghost use Rattle.qh_run.specs.Carrying.{Carries, Completes, MayStop, MayLeave};

use crate::ended::RunEnd;
use crate::over::answer;
use crate::stop::Stop;
use crate::sweep::sweep;
use crate::worker::Worker;
use qh_board::Board;
use qh_disk::Disk;
use qh_half::Steps;
use qh_lease::{LEDGER_PARTS, Ledgers, Share, Timer};
use qh_plan::Job;
use std::alloc::Global;
use std::sync::Arc;
use std::sync::ledger::Ledger;

/// Evaluates and records every range that is not recorded, without a grant, and answers the total.
fn sweep_all<D: Disk, T: Timer, N: Ledgers, L: Ledger>(
    alloc: Global,
    board: &mut Board<'_, D, T, N>,
    worker: &mut Worker<L>,
    share: &mut Share<N>,
) -> Result<RunEnd, Stop>
    requires valid { IsJob board.old.job }
    requires same { worker.old ≡ board.old.job }
    requires running { board.old.course.fault ≡ None }
    requires count { length board.old.course.leases ≡ ranges board.old.job }
    ensures carries { Carries D.face D.loans board.old board.new }
    ensures whole { (s0 : Slots) → BeganWith board.old s0 → IfOk result (λ end. IfSome (answer_of end) (Completes D.face board.old.job s0 board.new.journal.disk)) }
    ensures answers { IfOk result (λ end. IsSome (answer_of end)) }
    ensures bounded { IfOk result (λ end. IfSome (answer_of end) (IsBounded board.old.job)) }
    ensures stop { IfErr result (MayStop D.face board.old board.new) }
{
    sweep(board, worker, share)?;
    Ok(answer(alloc, board)?)
}

/// The end of a run whose last ranges this worker evaluates.
fn finish<D: Disk, T: Timer, N: Ledgers, L: Ledger>(
    alloc: Global,
    board: &mut Board<'_, D, T, N>,
    worker: &mut Worker<L>,
) -> RunEnd
    requires valid { IsJob board.old.job }
    requires same { worker.old ≡ board.old.job }
    requires running { board.old.course.fault ≡ None }
    requires count { length board.old.course.leases ≡ ranges board.old.job }
    requires out { board.old.tally.out < LEDGER_PARTS - 1 }
    ensures carries { Carries D.face D.loans board.old board.new }
    ensures whole { (s0 : Slots) → BeganWith board.old s0 → IfSome (answer_of result) (Completes D.face board.old.job s0 board.new.journal.disk) }
    ensures bounded { IfSome (answer_of result) (IsBounded board.old.job) }
    ensures cause { MayLeave D.face board.old.journal.disk board.new.journal.disk result }
    ensures goes_on { (s0 : Slots) → BeganWith board.old s0 → ForSome board.new.journal.disk (λ e. Reads (D.face e) (GoesOn board.old.job s0)) }
{
    let mut share = board.new_share();
    let ran = sweep_all(alloc, board, worker, &mut share);
    prove!(board.finished() || !board.finished());
    match ran {
        Ok(end) => end,
        Err(Stop::Disk) => RunEnd::Disk,
        Err(Stop::Memory) => RunEnd::Memory,
    }
}

/// What is left of a run over this board whose workers have ended: the ranges that are not recorded are evaluated and recorded, on the caller's thread. It takes
/// the memory of one worker.
pub fn run_rest<D: Disk, T: Timer, N: Ledgers, L: Ledger>(
    alloc: Global,
    board: &mut Board<'_, D, T, N>,
    job: &Arc<Job>,
    steps: Steps<L>,
) -> RunEnd
    requires valid { IsJob board.old.job }
    requires same { arc_value job.now ≡ board.old.job }
    requires running { board.old.course.fault ≡ None }
    requires count { length board.old.course.leases ≡ ranges board.old.job }
    requires out { board.old.tally.out < LEDGER_PARTS - 1 }
    ensures carries { Carries D.face D.loans board.old board.new }
    ensures whole { (s0 : Slots) → BeganWith board.old s0 → IfSome (answer_of result) (Completes D.face board.old.job s0 board.new.journal.disk) }
    ensures bounded { IfSome (answer_of result) (IsBounded board.old.job) }
    ensures cause { MayLeave D.face board.old.journal.disk board.new.journal.disk result }
    ensures goes_on { (s0 : Slots) → BeganWith board.old s0 → ForSome board.new.journal.disk (λ e. Reads (D.face e) (GoesOn board.old.job s0)) }
{
    prove!(board.finished() || !board.finished());
    let Ok(mut worker) = Worker::<L>::new(alloc, job, steps) else {
        return RunEnd::Memory;
    };
    finish(alloc, board, &mut worker)
}
