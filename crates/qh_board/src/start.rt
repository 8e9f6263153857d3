//! The course and the total with which a run begins.
ghost use Rattle.std.specs.Prelude.{◌≡◌, Some, IfOk, set};
ghost use Rattle.qh_plan.specs.declared.verdict.Verdict.{Verdict as VerdictValue};
ghost use Rattle.qh_slots.specs.Stands.{Slots, slot_at};
ghost use Rattle.qh_journal.specs.Calls.{IsJournal};
ghost use Rattle.qh_slots.specs.Running.{IsTotalOf, IsNext};
ghost use Rattle.qh_board.specs.Board.{started, IsAddable};

use qh_core::Course;
use qh_disk::Disk;
use qh_journal::Journal;
use qh_plan::Job;
use qh_slots::RunningTotal;
use std::alloc::{AllocError, Global};

/// The course of a run that finds this journal: each range with a slot is acknowledged, the others are fresh.
pub(crate) fn course_of<D: Disk>(
    alloc: Global,
    journal: &Journal<D>,
    job: &Job,
) -> Result<Course, AllocError>
    requires job { journal.now.job ≡ job.now }
    requires valid { IsJournal D.face journal.now }
    ensures { IfOk result (λ course. course ≡ started journal.now.table) }
{
    let mut course = Course::new(alloc, job.ranges())?;
    for range in 0..job.ranges() {
        if journal.slot(range).is_some() {
            course.begin(range);
        }
    }
    Ok(course)
}

/// What the slots of the journal give together.
pub(crate) fn total_of<D: Disk>(
    alloc: Global,
    journal: &Journal<D>,
    job: &Job,
) -> Result<RunningTotal, AllocError>
    requires job { journal.now.job ≡ job.now }
    requires valid { IsJournal D.face journal.now }
    ensures { IfOk result (IsTotalOf job.now journal.now.table) }
{
    let mut total = RunningTotal::new(alloc, job)?;
    for range in 0..job.ranges() {
        if let Some(verdict) = journal.slot(range) {
            total.add(job, range, verdict);
        }
    }
    Ok(total)
}

/// Adds the verdict of an open slot to what the slots without it give together.
pub(crate) fn add_slot<D: Disk>(
    total: &mut RunningTotal,
    journal: &Journal<D>,
    job: &Job,
    range: u32,
)
    requires job { journal.now.job ≡ job.now }
    requires open { IsAddable job.now journal.now.table range total.old }
    ensures { (v : VerdictValue) (s : Slots) → slot_at journal.now.table range ≡ Some v → IsTotalOf job.now s total.old → IsNext job.now s range v
        → IsTotalOf job.now (set s range (Some v)) total.new }
{
    prove!(range < job.ranges());
    if let Some(verdict) = journal.slot(range) {
        total.add(job, range, verdict);
    }
}
