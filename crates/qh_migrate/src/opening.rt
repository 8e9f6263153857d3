//! The steps of an opening, each of which hands the disk back where it stops.
ghost use Rattle.std.specs.Prelude.{◌≡◌, ◌≢◌, List, [], IfOk, IfErr, true, false};
ghost use Rattle.std.specs.Option.{IsSomeAnd};
ghost use Rattle.std.specs.Arc.{arc_value};
ghost use Rattle.qh_plan.specs.Jobs.{IsJob};
ghost use Rattle.qh_disk.specs.Disk.{IsSafe, Reads};
ghost use Rattle.qh_disk.specs.Moments.{Runs};
ghost use Rattle.qh_slots.specs.Moments.{IsReadOnly};
ghost use Rattle.qh_migrate.specs.Opening.{HandsBack, OpenMayFail, Opens, keeping};

use crate::migrate;
use crate::open_fault::{OpenFault, attach_fault, create_fault, migrate_fault};
use qh_disk::Disk;
use qh_journal::{AttachFault, Journal, Unmade, wipe};
use qh_plan::Job;
use std::alloc::Global;
use std::sync::Arc;

/// Takes the old journal over into an empty one, and attaches that.
fn take_over<D: Disk, F: Disk>(
    alloc: Global,
    mut disk: D,
    old: &mut F,
    job: &Arc<Job>,
) -> Result<Journal<D>, Unmade<D, OpenFault>>
    requires valid { IsJob (arc_value job.now) }
    requires safe { IsSafe (D.face disk) }
    requires empty { Reads (D.face disk) (λ f. f ≡ []) }
    ensures job { IfOk result (λ k. (k.job ≡ arc_value job.now) × (k.failed ≡ false)) }
    ensures opened { IfOk result (λ k. IsSomeAnd k.disk (Opens D.face D.loans (keeping false true) (arc_value job.now) (F.face old.old) disk k.table)) }
    ensures back { IfErr result (λ u. HandsBack D.face D.loans (keeping false true) (arc_value job.now) (F.face old.old) disk u.disk) }
    ensures fault { IfErr result (λ u. OpenMayFail (keeping false true) (arc_value job.now) u.fault
        (F.face old.old) (F.face old.new) (D.face disk) (D.face u.disk)) }
    ensures reading { IsReadOnly (F.face old.old) (F.face old.new) }
    ensures old_runs { Runs (F.face old.old) (F.face old.new) }
    ensures old_same { F.loans old.new ≡ F.loans old.old }
{
    if let Err(fault) = migrate(alloc, old, &mut disk, job) {
        return Err(Unmade {
            disk,
            fault: migrate_fault(fault),
        });
    }
    match Journal::attach(alloc, disk, job) {
        Ok(journal) => Ok(journal),
        Err(Unmade { disk, fault }) => Err(Unmade {
            disk,
            fault: attach_fault(fault),
        }),
    }
}

/// The journal on an empty disk: what the old one gives, or a new one.
fn open_empty<D: Disk, F: Disk>(
    alloc: Global,
    disk: D,
    old: &mut F,
    job: &Arc<Job>,
    taking: bool,
) -> Result<Journal<D>, Unmade<D, OpenFault>>
    requires valid { IsJob (arc_value job.now) }
    requires safe { IsSafe (D.face disk) }
    requires empty { Reads (D.face disk) (λ f. f ≡ []) }
    ensures job { IfOk result (λ k. (k.job ≡ arc_value job.now) × (k.failed ≡ false)) }
    ensures opened { IfOk result (λ k. IsSomeAnd k.disk (Opens D.face D.loans (keeping false taking) (arc_value job.now) (F.face old.old) disk k.table)) }
    ensures back { IfErr result (λ u. HandsBack D.face D.loans (keeping false taking) (arc_value job.now) (F.face old.old) disk u.disk) }
    ensures fault { IfErr result (λ u. OpenMayFail (keeping false taking) (arc_value job.now) u.fault
        (F.face old.old) (F.face old.new) (D.face disk) (D.face u.disk)) }
    ensures reading { IsReadOnly (F.face old.old) (F.face old.new) }
    ensures old_runs { Runs (F.face old.old) (F.face old.new) }
    ensures old_same { F.loans old.new ≡ F.loans old.old }
    ensures not_taking { taking ≡ false → old.new ≡ old.old }
{
    if taking {
        return take_over(alloc, disk, old, job);
    }
    match Journal::create(alloc, disk, job) {
        Ok(journal) => Ok(journal),
        Err(Unmade { disk, fault }) => Err(Unmade {
            disk,
            fault: create_fault(fault),
        }),
    }
}

/// The journal on a disk as it is: the one that it has, or, where it is empty, what the old one gives, or a new one.
fn open_kept<D: Disk, F: Disk>(
    alloc: Global,
    disk: D,
    old: &mut F,
    job: &Arc<Job>,
    taking: bool,
) -> Result<Journal<D>, Unmade<D, OpenFault>>
    ensures job { IfOk result (λ k. (k.job ≡ arc_value job.now) × (k.failed ≡ false)) }
    ensures opened { IfOk result (λ k. IsSomeAnd k.disk (Opens D.face D.loans (keeping false taking) (arc_value job.now) (F.face old.old) disk k.table)) }
    ensures back { IfErr result (λ u. HandsBack D.face D.loans (keeping false taking) (arc_value job.now) (F.face old.old) disk u.disk) }
    ensures fault { IfErr result (λ u. OpenMayFail (keeping false taking) (arc_value job.now) u.fault
        (F.face old.old) (F.face old.new) (D.face disk) (D.face u.disk)) }
    ensures reading { IsReadOnly (F.face old.old) (F.face old.new) }
    ensures old_runs { Runs (F.face old.old) (F.face old.new) }
    ensures old_same { F.loans old.new ≡ F.loans old.old }
    ensures not_taking { taking ≡ false → old.new ≡ old.old }
    ensures old_unasked { IsSomeAnd (D.face disk).content (λ f. f ≢ []) → old.new ≡ old.old }
    ensures valid { IsJob (arc_value job.now) }
{
    match Journal::attach(alloc, disk, job) {
        Ok(journal) => Ok(journal),
        Err(Unmade { disk, fault }) => match fault {
            AttachFault::Empty => open_empty(alloc, disk, old, job, taking),
            why => Err(Unmade {
                disk,
                fault: attach_fault(why),
            }),
        },
    }
}

/// The journal on a disk that is emptied first.
fn open_fresh<D: Disk, F: Disk>(
    alloc: Global,
    mut disk: D,
    old: &mut F,
    job: &Arc<Job>,
    taking: bool,
) -> Result<Journal<D>, Unmade<D, OpenFault>>
    ensures job { IfOk result (λ k. (k.job ≡ arc_value job.now) × (k.failed ≡ false)) }
    ensures opened { IfOk result (λ k. IsSomeAnd k.disk (Opens D.face D.loans (keeping true taking) (arc_value job.now) (F.face old.old) disk k.table)) }
    ensures back { IfErr result (λ u. HandsBack D.face D.loans (keeping true taking) (arc_value job.now) (F.face old.old) disk u.disk) }
    ensures fault { IfErr result (λ u. OpenMayFail (keeping true taking) (arc_value job.now) u.fault
        (F.face old.old) (F.face old.new) (D.face disk) (D.face u.disk)) }
    ensures reading { IsReadOnly (F.face old.old) (F.face old.new) }
    ensures old_runs { Runs (F.face old.old) (F.face old.new) }
    ensures old_same { F.loans old.new ≡ F.loans old.old }
    ensures not_taking { taking ≡ false → old.new ≡ old.old }
{
    let Ok(()) = wipe(&mut disk) else {
        return Err(Unmade {
            disk,
            fault: OpenFault::Disk,
        });
    };
    open_kept(alloc, disk, old, job, taking)
}

/// Opens the journal of a job's run. Where it is to be fresh, it is emptied first. An empty one is made new, or, where that is asked for, takes over the
/// journal of the first format that `old` holds. The disk is handed back with what stops it. Want of memory may come at each step.
pub fn open_journal<D: Disk, F: Disk>(
    alloc: Global,
    disk: D,
    old: &mut F,
    job: &Arc<Job>,
    fresh: bool,
    taking: bool,
) -> Result<Journal<D>, Unmade<D, OpenFault>>
    ensures job { IfOk result (λ k. (k.job ≡ arc_value job.now) × (k.failed ≡ false)) }
    ensures opened { IfOk result (λ k. IsSomeAnd k.disk (Opens D.face D.loans (keeping fresh taking) (arc_value job.now) (F.face old.old) disk k.table)) }

    ensures back { IfErr result (λ u. HandsBack D.face D.loans (keeping fresh taking) (arc_value job.now) (F.face old.old) disk u.disk) }
    ensures fault { IfErr result (λ u. OpenMayFail (keeping fresh taking) (arc_value job.now) u.fault
        (F.face old.old) (F.face old.new) (D.face disk) (D.face u.disk)) }

    ensures reading { IsReadOnly (F.face old.old) (F.face old.new) }
    ensures old_runs { Runs (F.face old.old) (F.face old.new) }
    ensures old_same { F.loans old.new ≡ F.loans old.old }
    ensures not_taking { taking ≡ false → old.new ≡ old.old }
    ensures old_unasked { fresh ≡ false → IsSomeAnd (D.face disk).content (λ f. f ≢ []) → old.new ≡ old.old }
{
    if fresh {
        return open_fresh(alloc, disk, old, job, taking);
    }
    open_kept(alloc, disk, old, job, taking)
}
