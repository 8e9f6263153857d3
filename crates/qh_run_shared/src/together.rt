//! A board on which several workers work.
ghost use Rattle.std.specs.Prelude.{◌≡◌, ◌<◌, ◌≤◌, ◌+◌, ◌-◌, All, None, IfOk, vec_len};
ghost use Rattle.std.specs.Arc.{arc_value};
ghost use Rattle.qh_plan.specs.Jobs.{ranges};
ghost use Rattle.qh_lease.specs.Lease.{NonePasses};
ghost use Rattle.qh_core.specs.Replay.{is_open};
ghost use Rattle.qh_run_shared.specs.Facts.{WasShared};

use crate::hired::{hire, settle_all};
use crate::working::{Floor, work_shared};
use qh_board::Board;
use qh_disk::Disk;
use qh_draw::{Draw, MAX_SEATS, Seat};
use qh_lease::{LEDGER_PARTS, Ledgers, Timer};
use qh_plan::Job;
use qh_prefix::PrefixCache;
use qh_workers::WorkerGate;
use std::alloc::{AllocError, Global};
use std::sync::{Arc, Mutex, Wait};
use std::thread::Threads;

/// A board that workers had, and whether there was memory for what they need before they start.
#[derive(Drop)]
pub(crate) struct Worked<'d, D: Disk, T: Timer, N: Ledgers> {
    pub(crate) board: Board<'d, D, T, N>,
    pub(crate) ready: bool,
}

/// What workers of a job share beside a board, and a seat for each of them.
fn lay_out<'a, W>(
    alloc: Global,
    job: &'a Arc<Job>,
    workers: u32,
    gate: &'a W,
) -> Result<(Floor<'a, W>, Vec<Seat>), AllocError>
    requires some { 1 ≤ workers }
    requires few { workers ≤ MAX_SEATS }
    ensures job { IfOk result (λ r. arc_value r.0.job.now ≡ arc_value job.now) }
    ensures count { IfOk result (λ r. vec_len r.1 ≡ workers) }
    ensures seats { IfOk result (λ r. All (λ s. (s.of ≡ r.0.draw) × (ranges (arc_value job.now) < s.left)) r.1.items) }
{
    let (draw, seats) = Draw::new(alloc, workers, u64::from(job.ranges()) + 1)?;
    let cache = PrefixCache::new(alloc, Arc::try_clone(job)?)?;
    let floor = Floor {
        alloc,
        job,
        gate,
        draw,
        cache: Mutex::new(cache),
    };
    Ok((floor, seats))
}

/// Lets so many workers work on a board that they share, and settles what they counted.
fn work_together<'d, R, D, T, N, W>(
    rt: &'d R,
    alloc: Global,
    mut board: Board<'d, D, T, N>,
    job: &Arc<Job>,
    workers: u32,
    gate: &W,
) -> Worked<'d, D, T, N>
where
    R: Threads + Wait + Sync,
    D: Disk + Send,
    T: Timer + Send,
    N: Ledgers + Send + Sync,
    W: WorkerGate + Sync,
    N::Grants: Send + Sync,
    N::Backs: Send + Sync,
    N::Acks: Send + Sync,
    requires some { 1 ≤ workers }
    requires few { workers ≤ MAX_SEATS }
    requires job { arc_value job.now ≡ board.job }
    requires running { board.course.fault ≡ None }
    requires out { board.tally.out ≡ 0 }
    ensures shared { WasShared D.face D.loans board.entry result.board }
    ensures out { result.board.tally.out < LEDGER_PARTS - 1 }
{
    let Ok((floor, seats)) = lay_out(alloc, job, workers, gate) else {
        return Worked {
            board,
            ready: false,
        };
    };
    let Ok(mut hired) = hire(alloc, &mut board, job, &floor.draw, seats) else {
        return Worked {
            board,
            ready: false,
        };
    };
    let mut board = work_shared(rt, &floor, board, &mut hired);
    settle_all(&mut board, hired);
    Worked { board, ready: true }
}

/// The same where a range is not acknowledged; where each is, no worker runs and nothing changes.
pub(crate) fn work_where_open<'d, R, D, T, N, W>(
    rt: &'d R,
    alloc: Global,
    board: Board<'d, D, T, N>,
    job: &Arc<Job>,
    workers: u32,
    gate: &W,
) -> Worked<'d, D, T, N>
where
    R: Threads + Wait + Sync,
    D: Disk + Send,
    T: Timer + Send,
    N: Ledgers + Send + Sync,
    W: WorkerGate + Sync,
    N::Grants: Send + Sync,
    N::Backs: Send + Sync,
    N::Acks: Send + Sync,
    requires some { 1 ≤ workers }
    requires few { workers ≤ MAX_SEATS }
    requires job { arc_value job.now ≡ board.job }
    requires running { board.course.fault ≡ None }
    requires out { board.tally.out ≡ 0 }
    ensures shared { WasShared D.face D.loans board.entry result.board }
    ensures out { result.board.tally.out < LEDGER_PARTS - 1 }
    ensures finished { NonePasses is_open 0 board.entry.course.leases → result.board ≡ board.entry }
{
    if board.finished() {
        return Worked { board, ready: true };
    }
    work_together(rt, alloc, board, job, workers, gate)
}
