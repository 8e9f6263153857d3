//! The ranges of a run, evaluated and recorded.
ghost use Rattle.std.specs.Prelude.{◌≡◌, ◌≢◌, ◌<◌, ◌≤◌, ◌+◌, ℕ, None, IfOk, IfErr, OnOk, set, length};
ghost use Rattle.qh_limits.specs.Counts.{RoseBy};
ghost use Rattle.qh_plan.specs.Jobs.{ranges};
ghost use Rattle.qh_lease.specs.declared.lease.Lease.TheVariants as Leases;
ghost use Rattle.qh_run.specs.Carrying.{Carries, count_fresh, Turned, MayStop};

use crate::stop::Stop;
use crate::worker::Worker;
use qh_board::Board;
use qh_disk::Disk;
use qh_lease::{Ledgers, Share, Timer};
use qh_range::{Claim, Delivery, Ticket};
use std::sync::ledger::Ledger;

/// Evaluates the range of a ticket and records it. For want of memory the ticket is given back.
fn work_on<D: Disk, T: Timer, N: Ledgers, L: Ledger>(
    board: &mut Board<'_, D, T, N>,
    worker: &mut Worker<L>,
    ticket: Ticket,
    share: &mut Share<N>,
) -> Result<(), Stop>
    requires same { worker.old ≡ board.old.job }
    requires running { board.old.course.fault ≡ None }
    requires count { length board.old.course.leases ≡ ranges board.old.job }
    requires known { ticket.range < ranges board.old.job }
    ensures carries { Carries D.face D.loans board.old board.new }
    ensures worker { worker.new ≡ worker.old }
    ensures timer { board.new.timer ≡ board.old.timer }
    ensures running { OnOk result (board.new.course.fault ≡ None) }
    ensures acked { OnOk result (board.new.course.leases ≡ set board.old.course.leases ticket.range Leases.Acked) }
    ensures stop { IfErr result (MayStop D.face board.old board.new) }
{
    let Ok(outcome) = worker.compute(&ticket) else {
        board.give_back(ticket, share);
        return Err(Stop::Memory);
    };
    match board.deliver(outcome, share) {
        Delivery::Acked => Ok(()),
        Delivery::Repeat => Ok(()),
        Delivery::Stranger => unreachable!(),
        Delivery::Halted { .. } => unreachable!(),
        Delivery::DiskFault => Err(Stop::Disk),
    }
}

/// Claims a range, and evaluates and records it. It is false where none is granted.
fn turn<D: Disk, T: Timer, N: Ledgers, L: Ledger>(
    board: &mut Board<'_, D, T, N>,
    worker: &mut Worker<L>,
    share: &mut Share<N>,
) -> Result<bool, Stop>
    requires same { worker.old ≡ board.old.job }
    requires running { board.old.course.fault ≡ None }
    requires count { length board.old.course.leases ≡ ranges board.old.job }
    ensures carries { Carries D.face D.loans board.old board.new }
    ensures worker { worker.new ≡ worker.old }
    ensures running { OnOk result (board.new.course.fault ≡ None) }
    ensures turned { IfOk result (Turned T.granted_count board.old board.new) }
    ensures stop { IfErr result (MayStop D.face board.old board.new) }
{
    match board.claim(share) {
        Claim::Granted(ticket) => {
            work_on(board, worker, ticket, share)?;
            Ok(true)
        }
        Claim::Drained => Ok(false),
        Claim::Halted { .. } => unreachable!(),
    }
}

/// Claims, evaluates and records one range after the other, until none is granted. Each range that was never granted is.
pub(crate) fn take_turns<D: Disk, T: Timer, N: Ledgers, L: Ledger>(
    board: &mut Board<'_, D, T, N>,
    worker: &mut Worker<L>,
    share: &mut Share<N>,
) -> Result<(), Stop>
    requires same { worker.old ≡ board.old.job }
    requires running { board.old.course.fault ≡ None }
    requires count { length board.old.course.leases ≡ ranges board.old.job }
    ensures carries { Carries D.face D.loans board.old board.new }
    ensures worker { worker.new ≡ worker.old }
    ensures running { OnOk result (board.new.course.fault ≡ None) }
    ensures granted { OnOk result (RoseBy (count_fresh board.old) (T.granted_count board.old.timer.now) (T.granted_count board.new.timer.now)) }
    ensures stop { IfErr result (MayStop D.face board.old board.new) }
{
    for _turn in 0..worker.ranges() {
        if !turn(board, worker, share)? {
            return Ok(());
        }
    }
    Ok(())
}
