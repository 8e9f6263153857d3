//! A run over a journal that is attached.
ghost use Rattle.std.specs.Prelude.{◌≡◌, ◌<◌, ◌≤◌, false, IfSome, is_some};
ghost use Rattle.std.specs.Option.{ForSome};
ghost use Rattle.std.specs.Arc.{arc_value};
ghost use Rattle.qh_disk.specs.Disk.{Reads};
ghost use Rattle.qh_slots.specs.Record.{IsFull};
ghost use Rattle.qh_slots.specs.Moments.{GoesOn};
ghost use Rattle.qh_journal.specs.Calls.{Went};
ghost use Rattle.qh_lease.specs.Register.{IsBlankOf};
ghost use Rattle.qh_lease.specs.Tally.{nothing};
ghost use Rattle.qh_board.specs.Board.{Serves};
ghost use Rattle.qh_run.specs.Ends.{answer_of, IsBounded};
ghost use Rattle.qh_run.specs.Carrying.{Completes, MayLeave};

use crate::together::{Worked, work_where_open};
use qh_board::Board;
use qh_disk::Disk;
use qh_draw::MAX_SEATS;
use qh_half::Steps;
use qh_journal::Journal;
use qh_lease::{Counted, LEDGER_PARTS, Ledgers, Tally, Three, Timer};
use qh_plan::Job;
use qh_range::Sweep;
use qh_run::{RunEnd, run_rest};
use qh_workers::WorkerGate;
use std::alloc::Global;
use std::marker::Brand;
use std::sync::ledger::{Blank, Ledger};
use std::sync::{Arc, Wait};
use std::thread::Threads;

/// What a run over a journal leaves: the journal's disk, where it is kept on one, and how the run ended.
#[derive(Drop)]
pub(crate) struct Left<D> {
    pub(crate) disk: Option<D>,
    pub(crate) end: RunEnd,
}

/// How many workers run, and the gate that they pass.
#[derive(Drop)]
pub(crate) struct Crew<'a, W> {
    pub(crate) workers: u32,
    pub(crate) gate: &'a W,
}

/// Whether a board has stopped at a disk fault.
fn is_halted<D: Disk, T: Timer, N: Ledgers>(board: &Board<'_, D, T, N>) -> bool
    ensures { result ≡ is_some board.now.course.fault }
{
    match board.sweep() {
        Sweep::Halted { .. } => true,
        Sweep::Granted(_) => false,
        Sweep::Done => false,
    }
}

/// Runs the job of a journal by several workers, to its end or until the disk fails or memory lacks.
fn run_by<R, D, T, N, W, L>(
    rt: &R,
    alloc: Global,
    journal: Journal<D>,
    job: Arc<Job>,
    crew: &Crew<'_, W>,
    timer: &mut T,
    tally: Tally<N>,
    steps: Steps<L>,
) -> Left<D>
where
    R: Threads + Wait + Sync,
    D: Disk + Send,
    T: Timer + Send,
    N: Ledgers + Send + Sync,
    W: WorkerGate + Sync,
    L: Ledger,
    N::Grants: Send + Sync,
    N::Backs: Send + Sync,
    N::Acks: Send + Sync,
    requires job { journal.job ≡ arc_value job }
    requires whole { journal.failed ≡ false }
    requires some { 1 ≤ crew.now.workers }
    requires few { crew.now.workers ≤ MAX_SEATS }
    requires out { tally.out ≡ 0 }
    requires totals { tally.totals ≡ nothing }
    requires settled { tally.settled ≡ nothing }
    ensures whole { IfSome (answer_of result.end) (Completes D.face (arc_value job) journal.table result.disk) }
    ensures bounded { IfSome (answer_of result.end) (IsBounded (arc_value job)) }
    ensures cause { MayLeave D.face journal.disk result.disk result.end }
    ensures finished { IsFull (arc_value job) journal.table → result.disk ≡ journal.disk }
    ensures disk { Went (Serves D.face D.loans (arc_value job)) journal.disk result.disk }
    ensures goes_on { ForSome result.disk (λ e. Reads (D.face e) (GoesOn (arc_value job) journal.table)) }
{
    prove!(!journal.failed());
    prove!(!job.bits().is_empty());
    let Ok(owned) = Arc::try_clone(&job) else {
        return Left {
            disk: journal.into_disk(),
            end: RunEnd::Memory,
        };
    };
    let board = match Board::attach(alloc, journal, owned, timer, tally) {
        Ok(board) => board,
        Err(unmade) => {
            return Left {
                disk: unmade.disk,
                end: RunEnd::Memory,
            };
        }
    };
    let Worked { mut board, ready } = work_where_open(
        rt,
        alloc,
        board,
        &job,
        crew.workers,
        crew.gate,
    );
    prove!(board.finished() || !board.finished());
    if is_halted(&board) {
        return Left {
            disk: board.into_disk(),
            end: RunEnd::Disk,
        };
    }
    if !ready {
        return Left {
            disk: board.into_disk(),
            end: RunEnd::Memory,
        };
    }
    let end = run_rest(alloc, &mut board, &job, steps);
    Left {
        disk: board.into_disk(),
        end,
    }
}

/// The same over ledgers that are blank: three for the tally, and one for the steps.
fn run_over<R, D, T, G, B, A, W, L>(
    rt: &R,
    alloc: Global,
    journal: Journal<D>,
    job: Arc<Job>,
    crew: &Crew<'_, W>,
    timer: &mut T,
    blanks: (Blank, Blank, Blank),
    steps: Blank,
) -> Left<D>
where
    R: Threads + Wait + Sync,
    D: Disk + Send,
    T: Timer + Send,
    G: Counted + Send + Sync,
    B: Counted + Send + Sync,
    A: Counted + Send + Sync,
    W: WorkerGate + Sync,
    L: Ledger,
    requires job { journal.job ≡ arc_value job }
    requires whole { journal.failed ≡ false }
    requires some { 1 ≤ crew.now.workers }
    requires few { crew.now.workers ≤ MAX_SEATS }
    requires grants { IsBlankOf blanks.0.name blanks.0.parts G.name G.parts }
    requires backs { IsBlankOf blanks.1.name blanks.1.parts B.name B.parts }
    requires acks { IsBlankOf blanks.2.name blanks.2.parts A.name A.parts }
    requires steps_name { steps.name ≡ L.name }
    requires steps_parts { steps.parts ≡ L.parts }
    requires steps_some { 0 < steps.parts }
    ensures whole { IfSome (answer_of result.end) (Completes D.face (arc_value job) journal.table result.disk) }
    ensures bounded { IfSome (answer_of result.end) (IsBounded (arc_value job)) }
    ensures cause { MayLeave D.face journal.disk result.disk result.end }
    ensures finished { IsFull (arc_value job) journal.table → result.disk ≡ journal.disk }
    ensures disk { Went (Serves D.face D.loans (arc_value job)) journal.disk result.disk }
    ensures goes_on { ForSome result.disk (λ e. Reads (D.face e) (GoesOn (arc_value job) journal.table)) }
{
    let (grants, backs, acks) = blanks;
    let tally = Tally::<Three<G, B, A>>::new(grants, backs, acks);
    let counter = Steps::<L>::new(steps);
    run_by(rt, alloc, journal, job, crew, timer, tally, counter)
}

/// Runs the job of a journal by several workers, to its end or until the disk fails or memory lacks.
pub(crate) fn run_journal<R, D, T, W>(
    rt: &R,
    alloc: Global,
    journal: Journal<D>,
    job: Arc<Job>,
    crew: &Crew<'_, W>,
    timer: &mut T,
) -> Left<D>
where
    R: Threads + Wait + Sync,
    D: Disk + Send,
    T: Timer + Send,
    W: WorkerGate + Sync,
    requires job { journal.job ≡ arc_value job }
    requires whole { journal.failed ≡ false }
    requires some { 1 ≤ crew.now.workers }
    requires few { crew.now.workers ≤ MAX_SEATS }
    ensures whole { IfSome (answer_of result.end) (Completes D.face (arc_value job) journal.table result.disk) }
    ensures bounded { IfSome (answer_of result.end) (IsBounded (arc_value job)) }
    ensures cause { MayLeave D.face journal.disk result.disk result.end }
    ensures finished { IsFull (arc_value job) journal.table → result.disk ≡ journal.disk }
    ensures disk { Went (Serves D.face D.loans (arc_value job)) journal.disk result.disk }
    ensures goes_on { ForSome result.disk (λ e. Reads (D.face e) (GoesOn (arc_value job) journal.table)) }
{
    let blanks = (
        Blank::new(LEDGER_PARTS),
        Blank::new(LEDGER_PARTS),
        Blank::new(LEDGER_PARTS),
    );
    run_over::<R, D, T, Brand, Brand, Brand, W, Brand>(
        rt,
        alloc,
        journal,
        job,
        crew,
        timer,
        blanks,
        Blank::new(1),
    )
}
