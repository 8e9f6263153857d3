//! The parts of a journal beside its disk, and how they are read or made.
ghost use Rattle.std.specs.Prelude.{◌≡◌, ◌^◌, ◌<◌, ◌≤◌, [], None, OnOk, IfOk, IfErr, length, vec_len, replicate};
ghost use Rattle.std.specs.Arc.{arc_value};
ghost use Rattle.qh_plan.specs.Jobs.{ranges, IsJob};
ghost use Rattle.qh_disk.specs.Disk.{IsSafe, Reads};
ghost use Rattle.qh_disk.specs.Looks.{Looks};
ghost use Rattle.qh_slots.specs.Layout.{head, place};
ghost use Rattle.qh_slots.specs.Stands.{AllFit, Stands, nones};
ghost use Rattle.qh_parts.specs.Laying.{Creates, IsFresh};
ghost use Rattle.qh_journal.specs.Calls.{AttachMayFail, CreateMayFail, IsRoom};

use crate::fault::CreateFault;
use qh_disk::Disk;
use qh_parts::{add, barrier, lay_all, read_front, read_slots};
use qh_plan::{Job, Verdict};
use qh_slots::{AttachFault, body_size, head, head_refusal, slot_size};
use std::alloc::{AllocError, Global};
use std::sync::Arc;

/// What a journal holds beside its disk: the job, the table of slots, room for the bytes of a slot behind its gate, and where the slots begin.
#[derive(Drop)]
pub(crate) struct Kept {
    pub(crate) job: Arc<Job>,
    pub(crate) table: Vec<Option<Verdict>>,
    pub(crate) body: Vec<u8>,
    pub(crate) start: u64,
}

/// The slots with which a file stands for the job. It makes what is read safe first.
#[tactic(auto, using(qh_disk::proofs::Looking::looks_on))]
fn examine<D: Disk>(
    alloc: Global,
    disk: &mut D,
    job: &Job,
    wanted: &[u8],
) -> Result<Vec<Option<Verdict>>, AttachFault>
    requires head { wanted.now ≡ head job.now }
    requires room { place (head job.now) job.now (ranges job.now) < 2 ^ 63 }
    ensures count { IfOk result (λ t. vec_len t ≡ ranges job.now) }
    ensures fits { IfOk result (λ t. AllFit job.now t.items) }
    ensures slots { IfOk result (λ t. Reads (D.face disk.new) (Stands job.now t.items)) }
    ensures safe { OnOk result (IsSafe (D.face disk.new)) }
    ensures fault { IfErr result (λ u. AttachMayFail job.now u (D.face disk.old) (D.face disk.new)) }
    ensures looks { Looks (D.face disk.old) (D.face disk.new) }
    ensures same { D.loans disk.new ≡ D.loans disk.old }
{
    let count = barrier(disk)?;
    let front = match read_front(alloc, disk, count, wanted.len()) {
        Ok(front) => front,
        Err(fault) => return Err(fault),
    };
    let size = wanted.len() as u64 + u64::from(job.ranges()) * slot_size(job);
    if let Some(fault) = head_refusal(wanted, size, count, front.as_slice()) {
        return Err(fault);
    }
    read_slots(alloc, disk, job, wanted)
}

/// The parts of a journal on this disk, which has one. Its memory, but for that of the slots, is taken before the first call of the disk.
pub(crate) fn keep<D: Disk>(
    alloc: Global,
    disk: &mut D,
    job: &Arc<Job>,
) -> Result<Kept, AttachFault>
    ensures job { IfOk result (λ k. arc_value k.job ≡ arc_value job.now) }
    ensures room { IfOk result (λ k. IsRoom (arc_value job.now) (vec_len k.body) k.start) }
    ensures count { IfOk result (λ k. length k.table.items ≡ ranges (arc_value job.now)) }
    ensures fits { IfOk result (λ k. AllFit (arc_value job.now) k.table.items) }
    ensures slots { IfOk result (λ k. Reads (D.face disk.new) (Stands (arc_value job.now) k.table.items)) }
    ensures safe { OnOk result (IsSafe (D.face disk.new)) }
    ensures valid { IsJob (arc_value job.now) }
    ensures fault { IfErr result (λ u. AttachMayFail (arc_value job.now) u (D.face disk.old) (D.face disk.new)) }
    ensures looks { Looks (D.face disk.old) (D.face disk.new) }
    ensures same { D.loans disk.new ≡ D.loans disk.old }
{
    let size = body_size(job);
    let wanted = head(alloc, job)?;
    let body = vec![in alloc; 0; size]?;
    let mine = Arc::try_clone(job)?;
    let table = match examine(alloc, disk, job, wanted.as_slice()) {
        Ok(table) => table,
        Err(fault) => return Err(fault),
    };
    Ok(Kept {
        job: mine,
        table,
        body,
        start: wanted.len() as u64,
    })
}

/// The parts of a journal that is made on this disk, which reads as empty. All memory is taken before the first call of the disk.
pub(crate) fn make<D: Disk>(
    alloc: Global,
    disk: &mut D,
    job: &Arc<Job>,
) -> Result<Kept, CreateFault>
    requires { Reads (D.face disk.old) (λ f. f ≡ []) }
    ensures job { IfOk result (λ k. arc_value k.job ≡ arc_value job.now) }
    ensures room { IfOk result (λ k. IsRoom (arc_value job.now) (vec_len k.body) k.start) }
    ensures table { IfOk result (λ k. k.table.items ≡ nones (arc_value job.now)) }
    ensures stands { OnOk result (Reads (D.face disk.new) (Stands (arc_value job.now) (nones (arc_value job.now)))) }
    ensures safe { OnOk result (IsSafe (D.face disk.new)) }
    ensures valid { IsJob (arc_value job.now) }
    ensures fault { IfErr result (λ u. CreateMayFail D.face u disk.old disk.new) }
    ensures fresh { Reads (D.face disk.new) (IsFresh (arc_value job.now) (nones (arc_value job.now))) }
    ensures creates { Creates (arc_value job.now) (nones (arc_value job.now)) (D.face disk.old) (D.face disk.new) }
    ensures same { D.loans disk.new ≡ D.loans disk.old }
{
    let table = closed(alloc, job.ranges())?;
    let wanted = head(alloc, job)?;
    let body = vec![in alloc; 0; body_size(job)]?;
    let mine = Arc::try_clone(job)?;
    let start = wanted.len() as u64;
    let size = start + u64::from(job.ranges()) * slot_size(job);
    match lay_all(disk, job, wanted.as_slice(), size) {
        Ok(()) => Ok(Kept {
            job: mine,
            table,
            body,
            start,
        }),
        Err(_) => Err(CreateFault::DiskFault),
    }
}

/// The parts of a journal without a disk.
pub(crate) fn unkept(alloc: Global, job: &Arc<Job>) -> Result<Kept, AllocError>
    ensures job { IfOk result (λ k. arc_value k.job ≡ arc_value job.now) }
    ensures room { IfOk result (λ k. IsRoom (arc_value job.now) (vec_len k.body) k.start) }
    ensures table { IfOk result (λ k. k.table.items ≡ nones (arc_value job.now)) }
{
    let table = closed(alloc, job.ranges())?;
    let start = head(alloc, job)?.len() as u64;
    let body = vec![in alloc; 0; body_size(job)]?;
    let mine = Arc::try_clone(job)?;
    Ok(Kept {
        job: mine,
        table,
        body,
        start,
    })
}

/// A table of closed slots.
fn closed(alloc: Global, count: u32) -> Result<Vec<Option<Verdict>>, AllocError>
    ensures { IfOk result (λ t. t.items ≡ replicate count None) }
{
    let mut table = Vec::new(alloc);
    for r in 0..count {
        add(&mut table, None)?;
    }
    Ok(table)
}
