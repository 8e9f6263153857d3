//! A run of a job.
ghost use Rattle.std.specs.Prelude.{◌≡◌, ◌≢◌, ◌⊎◌, [], true, false, IfSome, IsSome, IsSomeAnd};
ghost use Rattle.std.specs.Option.{ForSome};
ghost use Rattle.std.specs.Arc.{arc_value};
ghost use Rattle.qh_limits.specs.Counts.{RoseBy};
ghost use Rattle.qh_plan.specs.Jobs.{ranges};
ghost use Rattle.qh_plan.specs.Values.{run_value};
ghost use Rattle.qh_disk.specs.Moments.{Runs};
ghost use Rattle.qh_slots.specs.Record.{slots_before, count_bare};
ghost use Rattle.qh_slots.specs.Moments.{IsReadOnly};
ghost use Rattle.qh_slots.specs.Keeps.{KeepsJournal, IsWhole};
ghost use Rattle.qh_run.specs.Opened.{end_of, RunsOn};
ghost use Rattle.qh_run.specs.Ends.{answer_of, IsBounded, AcceptsOld, IsFaultless, MayEnd, IsComplete};

use crate::ended::{Ran, RunEnd};
use crate::over::{Left, run_journal};
use qh_disk::{Disk, MemDisk};
use qh_journal::{Journal, Unmade};
use qh_lease::Timer;
use qh_migrate::{OpenFault, open_journal};
use qh_plan::Job;
use std::alloc::Global;
use std::sync::Arc;

/// The end of a run whose journal is not opened.
pub fn end_of(fault: OpenFault) -> RunEnd
    ensures { result ≡ end_of fault }
{
    match fault {
        OpenFault::Disk => RunEnd::Disk,
        OpenFault::OldDisk => RunEnd::OldDisk,
        OpenFault::Refused { why } => RunEnd::Refused(why),
        OpenFault::OldRefused { why } => RunEnd::OldRefused(why),
        OpenFault::Memory => RunEnd::Memory,
    }
}

/// Runs the job of a journal on a disk, and hands the disk back.
fn run_open<D: Disk, T: Timer>(
    alloc: Global,
    journal: Journal<D>,
    job: Arc<Job>,
    timer: &mut T,
) -> Ran<D>
    requires job { journal.job ≡ arc_value job }
    requires whole { journal.failed ≡ false }
    requires kept { IsSome journal.disk }
    ensures runs { ForSome journal.disk (λ d. RunsOn D.face D.loans (arc_value job) journal.table result.end d result.disk) }
    ensures bounded { IfSome (answer_of result.end) (IsBounded (arc_value job)) }
    ensures granted { IsSome (answer_of result.end) → RoseBy (count_bare (arc_value job) journal.table) (T.granted_count timer.old) (T.granted_count timer.new) }
{
    let Left { disk, end } = run_journal(alloc, journal, job, timer);
    Ran {
        disk: disk.unwrap(),
        end,
    }
}

/// Runs a job over its journal on this disk, to its end or until something lacks.
///
/// With `fresh` the journal is emptied first. An empty one is begun anew or, with `taking`, takes over the slots of the old journal, which is of the first
/// format and is only read. Each range without a slot is granted, evaluated and recorded. The disk is handed back. Sums and Over come of a whole run alone;
/// each other end names its cause, and want of memory has none. A refusal leaves the journal unwritten where it was not to be emptied.
pub fn run_kept<D: Disk, F: Disk, T: Timer>(
    alloc: Global,
    disk: D,
    old: &mut F,
    job: Arc<Job>,
    fresh: bool,
    taking: bool,
    timer: &mut T,
) -> Ran<D>
    ensures whole { IfSome (answer_of result.end) (IsWhole (record { kept = true; fresh = fresh; taking = taking }) (arc_value job) (F.face old.old) (D.face disk) (D.face result.disk)) }
    ensures bounded { IfSome (answer_of result.end) (IsBounded (arc_value job)) }
    ensures accepted { IsSome (answer_of result.end) → AcceptsOld (record { kept = true; fresh = fresh; taking = taking }) (arc_value job) (F.face old.old) (D.face disk) }
    ensures fault { MayEnd (record { kept = true; fresh = fresh; taking = taking }) (arc_value job) (F.face old.old) (F.face old.new) (D.face disk) (D.face result.disk) result.end }
    ensures complete { IsFaultless (D.face disk) (D.face result.disk) → IsFaultless (F.face old.old) (F.face old.new)
        → IsComplete (record { kept = true; fresh = fresh; taking = taking }) (arc_value job) (F.face old.old) (D.face disk) result.end }
    ensures granted { IsSome (answer_of result.end) → IfSome (slots_before (record { kept = true; fresh = fresh; taking = taking }) (arc_value job) (D.face disk) (F.face old.old))
        (λ before. RoseBy (count_bare (arc_value job) before) (T.granted_count timer.old) (T.granted_count timer.new)) }

    // The journal at every moment, and the old one, which is only read, and not asked where it is not to be taken over.
    ensures keeps { KeepsJournal (record { kept = true; fresh = fresh; taking = taking }) (arc_value job) (F.face old.old) (D.face disk) (D.face result.disk) }
    ensures reading { IsReadOnly (F.face old.old) (F.face old.new) }
    ensures old_runs { Runs (F.face old.old) (F.face old.new) }
    ensures old_unasked { (taking ≡ false) ⊎ ((fresh ≡ false) × IsSomeAnd (D.face disk).content (λ f. f ≢ [])) → old.new ≡ old.old }
    ensures loans { D.loans result.disk ≡ D.loans disk }
    ensures old_loans { F.loans old.new ≡ F.loans old.old }
{
    match open_journal(alloc, disk, old, &job, fresh, taking) {
        Ok(journal) => run_open(alloc, journal, job, timer),
        Err(Unmade { disk, fault }) => Ran {
            disk,
            end: end_of(fault),
        },
    }
}

/// Runs a job without a journal, to its end or until memory lacks. No call is made on the disk, which is handed back: it only stands where a run over a journal
/// has one.
pub fn run_unkept<D: Disk, T: Timer>(alloc: Global, disk: D, job: Arc<Job>, timer: &mut T) -> Ran<D>
    ensures whole { IfSome (answer_of result.end) (λ answer. answer ≡ run_value (arc_value job)) }
    ensures bounded { IfSome (answer_of result.end) (IsBounded (arc_value job)) }
    ensures ends { IsSome (answer_of result.end) ⊎ (result.end ≡ RunEnd.Memory) }
    ensures granted { IsSome (answer_of result.end) → RoseBy (ranges (arc_value job)) (T.granted_count timer.old) (T.granted_count timer.new) }
    ensures disk { result.disk ≡ disk }
{
    // It has no disk, so any kind of disk will do.
    let Ok(journal) = Journal::<MemDisk>::unkept(alloc, &job) else {
        return Ran {
            disk,
            end: RunEnd::Memory,
        };
    };
    let Left { disk: _, end } = run_journal(alloc, journal, job, timer);
    Ran { disk, end }
}
