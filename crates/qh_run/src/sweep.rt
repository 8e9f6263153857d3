//! The last sweep of a run: what is not recorded yet, in groups.
ghost use Rattle.std.specs.Prelude.{◌≡◌, ◌⊎◌, ◌<◌, ◌≤◌, ◌+◌, ℕ, All, None, false, IfOk, IfErr, OnOk, length};
ghost use Rattle.qh_plan.specs.Jobs.{ranges};
ghost use Rattle.qh_lease.specs.Lease.{lease_at, NonePasses};
ghost use Rattle.qh_core.specs.Replay.{is_open};
ghost use Rattle.qh_run.specs.Carrying.{Carries, MayStop};
ghost use Rattle.qh_run.specs.Sweeping.{Gathers, IsGathered};

use crate::stop::Stop;
use crate::worker::Worker;
use qh_board::{Board, GROUP_RESULTS, Group};
use qh_disk::Disk;
use qh_lease::{Ledgers, Share, Timer};
use qh_range::{Delivery, Sweep};
use std::alloc::AllocError;
use std::sync::ledger::Ledger;

/// A group of results, and where the sweep goes on.
#[derive(Drop)]
struct Gathered {
    group: Group,
    next: u32,
}

/// Evaluates the ranges that are not recorded, in rising order from a range on, up to a full group of them.
fn gather<D: Disk, T: Timer, N: Ledgers, L: Ledger>(
    board: &Board<'_, D, T, N>,
    worker: &mut Worker<L>,
    from: u32,
) -> Result<Gathered, AllocError>
    requires same { worker.old ≡ board.now.job }
    requires running { board.now.course.fault ≡ None }
    requires count { length board.now.course.leases ≡ ranges board.now.job }
    requires below { from < ranges board.now.job }
    ensures worker { worker.new ≡ worker.old }
    ensures gathered { IfOk result (λ g. IsGathered board.now.job board.now.course.leases from g.next g.group) }
    ensures forward { IfOk result (λ g. from < g.next) }
{
    let mut group = Group::new();
    let mut next = from;
    for _place in 0..GROUP_RESULTS {
        match board.sweep_from(next) {
            Sweep::Granted(ticket) => {
                prove!(ticket.range() < worker.ranges());
                let outcome = worker.compute(&ticket)?;
                group.push(outcome);
                next = ticket.range() + 1;
            }
            Sweep::Done => {
                return Ok(Gathered {
                    group,
                    next: worker.ranges(),
                });
            }
            Sweep::Halted { .. } => unreachable!(),
        }
    }
    Ok(Gathered { group, next })
}

/// Records a group of results.
fn record_group<D: Disk, T: Timer, N: Ledgers>(
    board: &mut Board<'_, D, T, N>,
    group: Group,
    share: &mut Share<N>,
) -> Result<(), Stop>
    requires running { board.old.course.fault ≡ None }
    requires job { All (λ r. r.job ≡ board.old.job) group }
    requires below { All (λ r. r.range < length board.old.course.leases) group }
    ensures carries { Carries D.face D.loans board.old board.new }
    ensures timer { board.new.timer ≡ board.old.timer }
    ensures running { OnOk result (board.new.course.fault ≡ None) }
    ensures recorded { OnOk result ((q : ℕ) → (is_open (lease_at board.old.course.leases q) ≡ false) ⊎ Gathers group q → is_open (lease_at board.new.course.leases q) ≡ false) }
    ensures stop { IfErr result (MayStop D.face board.old board.new) }
{
    match board.deliver_group(group, share) {
        Delivery::Acked => Ok(()),
        Delivery::Repeat => Ok(()),
        Delivery::Stranger => unreachable!(),
        Delivery::Halted { .. } => unreachable!(),
        Delivery::DiskFault => Err(Stop::Disk),
    }
}

/// Evaluates and records the ranges that are not recorded, in rising order and group by group.
pub(crate) fn sweep<D: Disk, T: Timer, N: Ledgers, L: Ledger>(
    board: &mut Board<'_, D, T, N>,
    worker: &mut Worker<L>,
    share: &mut Share<N>,
) -> Result<(), Stop>
    requires same { worker.old ≡ board.old.job }
    requires running { board.old.course.fault ≡ None }
    requires count { length board.old.course.leases ≡ ranges board.old.job }
    ensures carries { Carries D.face D.loans board.old board.new }
    ensures worker { worker.new ≡ worker.old }
    ensures timer { board.new.timer ≡ board.old.timer }
    ensures running { OnOk result (board.new.course.fault ≡ None) }
    ensures all { OnOk result (NonePasses is_open 0 board.new.course.leases) }
    ensures stop { IfErr result (MayStop D.face board.old board.new) }
{
    let mut from = 0;
    while from < worker.ranges() {
        let Gathered { group, next } = gather(board, worker, from)?;
        record_group(board, group, share)?;
        from = next;
    }
    Ok(())
}
