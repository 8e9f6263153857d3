//! Workers that share a board.
ghost use Rattle.std.specs.Prelude.{◌≡◌, ◌<◌, All, vec_len};
ghost use Rattle.std.specs.Arc.{arc_value};
ghost use Rattle.qh_plan.specs.Jobs.{ranges};
ghost use Rattle.qh_run_shared.specs.Facts.{UnderLock, WasShared};

use crate::hired::Hired;
use crate::{Named, SharedBoard};
use qh_board::Board;
use qh_disk::Disk;
use qh_draw::Draw;
use qh_half::Steps;
use qh_lease::{Ledgers, Timer};
use qh_plan::Job;
use qh_prefix::PrefixCache;
use qh_workers::{Desk, WorkerGate, work};
use std::alloc::Global;
use std::marker::Brand;
use std::sync::ledger::{Blank, Ledger};
use std::sync::{Arc, Mutex, Wait};
use std::thread;
use std::thread::Threads;

/// What the workers of a run share beside their board.
#[derive(Drop)]
pub(crate) struct Floor<'a, W> {
    pub(crate) alloc: Global,
    pub(crate) job: &'a Arc<Job>,
    pub(crate) gate: &'a W,
    pub(crate) draw: Draw,
    pub(crate) cache: Mutex<PrefixCache>,
}

/// The work of one worker, whose steps this ledger counts.
fn work_counted<R: Wait, N: Ledgers, K: Desk<N>, W: WorkerGate, L: Ledger>(
    rt: &R,
    floor: &Floor<'_, W>,
    desk: &K,
    hired: &mut Hired<N>,
    blank: Blank,
)
    requires job { K.job desk.now ≡ arc_value floor.now.job.now }
    requires seat { hired.old.seat.of ≡ floor.now.draw }
    requires left { ranges (arc_value floor.now.job.now) < hired.old.seat.left }
    requires name { blank.name ≡ L.name }
    requires parts { blank.parts ≡ L.parts }
    requires some { 0 < blank.parts }
{
    let mut steps = Steps::<L>::new(blank);
    work(
        rt,
        floor.alloc,
        floor.job,
        desk,
        floor.gate,
        &floor.cache,
        &floor.draw,
        &mut hired.seat,
        hired.number,
        &mut hired.share,
        &mut steps,
    );
}

/// The work of one worker.
fn work_one<R: Wait, N: Ledgers, K: Desk<N>, W: WorkerGate>(
    rt: &R,
    floor: &Floor<'_, W>,
    desk: &K,
    hired: &mut Hired<N>,
)
    requires job { K.job desk.now ≡ arc_value floor.now.job.now }
    requires seat { hired.old.seat.of ≡ floor.now.draw }
    requires left { ranges (arc_value floor.now.job.now) < hired.old.seat.left }
{
    work_counted::<R, N, K, W, Brand>(rt, floor, desk, hired, Blank::new(1));
}

/// Puts a board under the lock of its named run, lets the workers work, and takes it out again.
fn work_all<'d, R, D, T, N, M, W>(
    rt: &'d R,
    floor: &Floor<'_, W>,
    board: Board<'d, D, T, N>,
    hired: &mut Vec<Hired<N>>,
) -> Board<'d, D, T, N>
where
    R: Threads + Wait + Sync,
    D: Disk + Send,
    T: Timer + Send,
    N: Ledgers + Send + Sync,
    M: Named + Send + Sync,
    W: WorkerGate + Sync,
    N::Grants: Send + Sync,
    N::Backs: Send + Sync,
    N::Acks: Send + Sync,
    requires job { arc_value floor.now.job.now ≡ M.run.job }
    requires facts { UnderLock D.face D.loans M.run board }
    requires hired { All (λ h. (h.seat.of ≡ floor.now.draw) × (ranges (arc_value floor.now.job.now) < h.seat.left)) hired.old.items }
    ensures facts { UnderLock D.face D.loans M.run result }
    ensures count { vec_len hired.new ≡ vec_len hired.old }
{
    let shared = SharedBoard::<R, D, T, N, M>::new(rt, board);
    let desk = &shared;
    let count = hired.len();
    if count > 0 {
        thread::for_each_mut(
            rt,
            hired.as_mut_slice(),
            count,
            &|_, worker| { work_one(rt, floor, desk, worker) },
        );
    }
    shared.into_board()
}

/// Lets the workers work on a board that they share.
pub(crate) fn work_shared<'d, R, D, T, N, W>(
    rt: &'d R,
    floor: &Floor<'_, W>,
    board: Board<'d, D, T, N>,
    hired: &mut Vec<Hired<N>>,
) -> Board<'d, D, T, N>
where
    R: Threads + Wait + Sync,
    D: Disk + Send,
    T: Timer + Send,
    N: Ledgers + Send + Sync,
    W: WorkerGate + Sync,
    N::Grants: Send + Sync,
    N::Backs: Send + Sync,
    N::Acks: Send + Sync,
    requires job { arc_value floor.now.job.now ≡ board.job }
    requires running { board.course.fault ≡ None }
    requires hired { All (λ h. (h.seat.of ≡ floor.now.draw) × (ranges (arc_value floor.now.job.now) < h.seat.left)) hired.old.items }
    ensures shared { WasShared D.face D.loans board.entry result }
    ensures out { result.tally.out ≡ board.entry.tally.out }
    ensures count { vec_len hired.new ≡ vec_len hired.old }
{
    prove!(board.finished() || !board.finished());
    work_all::<R, D, T, N, Brand, W>(rt, floor, board, hired)
}
