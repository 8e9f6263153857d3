//! A run of a job by several workers.
ghost use Rattle.std.specs.Prelude.{◌≡◌, ◌≢◌, ◌≤◌, ◌⊎◌, [], true, false, IfSome, IsSome, IsSomeAnd};
ghost use Rattle.std.specs.Option.{ForSome};
ghost use Rattle.std.specs.Arc.{arc_value};
ghost use Rattle.qh_plan.specs.Values.{run_value};
ghost use Rattle.qh_disk.specs.Moments.{Runs};
ghost use Rattle.qh_slots.specs.Moments.{IsReadOnly};
ghost use Rattle.qh_slots.specs.Keeps.{KeepsJournal, IsWhole};
ghost use Rattle.qh_run.specs.Opened.{end_of, RunsOn};
ghost use Rattle.qh_run.specs.Ends.{answer_of, IsBounded, AcceptsOld, IsFaultless, MayEnd, IsComplete};

use crate::over::{Crew, Left, run_journal};
use qh_disk::{Disk, MemDisk};
use qh_draw::MAX_SEATS;
use qh_journal::{Journal, Unmade};
use qh_lease::Timer;
use qh_migrate::open_journal;
use qh_plan::Job;
use qh_run::{Ran, RunEnd, end_of};
use qh_workers::WorkerGate;
use std::alloc::Global;
use std::sync::{Arc, Wait};
use std::thread::Threads;

/// Runs the job of a journal on a disk, and hands the disk back.
fn run_open<R, D, T, W>(
    rt: &R,
    alloc: Global,
    journal: Journal<D>,
    job: Arc<Job>,
    crew: &Crew<'_, W>,
    timer: &mut T,
) -> Ran<D>
where
    R: Threads + Wait + Sync,
    D: Disk + Send,
    T: Timer + Send,
    W: WorkerGate + Sync,
    requires job { journal.job ≡ arc_value job }
    requires whole { journal.failed ≡ false }
    requires kept { IsSome journal.disk }
    requires some { 1 ≤ crew.now.workers }
    requires few { crew.now.workers ≤ MAX_SEATS }
    ensures runs { ForSome journal.disk (λ d. RunsOn D.face D.loans (arc_value job) journal.table result.end d result.disk) }
    ensures bounded { IfSome (answer_of result.end) (IsBounded (arc_value job)) }
{
    let Left { disk, end } = run_journal(rt, alloc, journal, job, crew, timer);
    Ran {
        disk: disk.unwrap(),
        end,
    }
}

/// Runs a job over its journal on this disk by 1 to 16 workers, to its end or until something lacks.
///
/// What it leaves and answers is what a run by one caller leaves and answers: see [`qh_run::run_kept`]. Each worker passes the gate. It may wait for a lock and
/// for its workers, and promises of a call that returns.
pub fn run_kept_shared<R, D, F, T, W>(
    rt: &R,
    alloc: Global,
    disk: D,
    old: &mut F,
    job: Arc<Job>,
    fresh: bool,
    taking: bool,
    workers: u32,
    timer: &mut T,
    gate: &W,
) -> Ran<D>
where
    R: Threads + Wait + Sync,
    D: Disk + Send,
    F: Disk,
    T: Timer + Send,
    W: WorkerGate + Sync,
    requires some { 1 ≤ workers }
    requires few { workers ≤ MAX_SEATS }
    ensures whole { IfSome (answer_of result.end) (IsWhole (record { kept = true; fresh = fresh; taking = taking }) (arc_value job) (F.face old.old) (D.face disk) (D.face result.disk)) }
    ensures bounded { IfSome (answer_of result.end) (IsBounded (arc_value job)) }
    ensures accepted { IsSome (answer_of result.end) → AcceptsOld (record { kept = true; fresh = fresh; taking = taking }) (arc_value job) (F.face old.old) (D.face disk) }
    ensures fault { MayEnd (record { kept = true; fresh = fresh; taking = taking }) (arc_value job) (F.face old.old) (F.face old.new) (D.face disk) (D.face result.disk) result.end }
    ensures complete { IsFaultless (D.face disk) (D.face result.disk) → IsFaultless (F.face old.old) (F.face old.new)
        → IsComplete (record { kept = true; fresh = fresh; taking = taking }) (arc_value job) (F.face old.old) (D.face disk) result.end }

    // The journal at every moment, and the old one, which is only read, and not asked where it is not to be taken over.
    ensures keeps { KeepsJournal (record { kept = true; fresh = fresh; taking = taking }) (arc_value job) (F.face old.old) (D.face disk) (D.face result.disk) }
    ensures reading { IsReadOnly (F.face old.old) (F.face old.new) }
    ensures old_runs { Runs (F.face old.old) (F.face old.new) }
    ensures old_unasked { (taking ≡ false) ⊎ ((fresh ≡ false) × IsSomeAnd (D.face disk).content (λ f. f ≢ [])) → old.new ≡ old.old }
    ensures loans { D.loans result.disk ≡ D.loans disk }
    ensures old_loans { F.loans old.new ≡ F.loans old.old }
{
    let crew = Crew { workers, gate };
    match open_journal(alloc, disk, old, &job, fresh, taking) {
        Ok(journal) => run_open(rt, alloc, journal, job, &crew, timer),
        Err(Unmade { disk, fault }) => Ran {
            disk,
            end: end_of(fault),
        },
    }
}

/// Runs a job without a journal by 1 to 16 workers, to its end or until memory lacks. No call is made on the disk, which is handed back.
pub fn run_unkept_shared<R, D, T, W>(
    rt: &R,
    alloc: Global,
    disk: D,
    job: Arc<Job>,
    workers: u32,
    timer: &mut T,
    gate: &W,
) -> Ran<D>
where
    R: Threads + Wait + Sync,
    D: Disk,
    T: Timer + Send,
    W: WorkerGate + Sync,
    requires some { 1 ≤ workers }
    requires few { workers ≤ MAX_SEATS }
    ensures whole { IfSome (answer_of result.end) (λ answer. answer ≡ run_value (arc_value job)) }
    ensures bounded { IfSome (answer_of result.end) (IsBounded (arc_value job)) }
    ensures ends { IsSome (answer_of result.end) ⊎ (result.end ≡ RunEnd.Memory) }
    ensures disk { result.disk ≡ disk }
{
    // It has no disk, so any kind of disk will do.
    let Ok(journal) = Journal::<MemDisk>::unkept(alloc, &job) else {
        return Ran {
            disk,
            end: RunEnd::Memory,
        };
    };
    let crew = Crew { workers, gate };
    let Left { disk: _, end } = run_journal(rt, alloc, journal, job, &crew, timer);
    Ran { disk, end }
}
