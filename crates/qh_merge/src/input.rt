//! An input, as it is read from its disk.
ghost use Rattle.std.specs.Prelude.{◌≡◌, ◌^◌, ◌<◌, OnOk, IfOk, IfErr, length, slice_get, vec_len};
ghost use Rattle.std.specs.Option.{IsSomeAnd};
ghost use Rattle.qh_plan.specs.Jobs.{ranges};
ghost use Rattle.qh_disk.specs.Disk.{IsSafe, Reads};
ghost use Rattle.qh_disk.specs.Looks.{Looks};
ghost use Rattle.qh_slots.specs.Layout.{head, place};
ghost use Rattle.qh_slots.specs.Stands.{AllFit, Stands};
ghost use Rattle.qh_slots.specs.Attaching.{Passes};
ghost use Rattle.qh_parts.specs.Naming.{Names};
ghost use Rattle.qh_merge.specs.Inputs.{AllLook, IsRead};
ghost use Rattle.qh_merge.specs.Parts.{ReadMayFail, ReadMayFailAt, input_of, of_job, of_slots};

use qh_disk::Disk;
use qh_parts::{JobFault, count, read_job, read_slots};
use qh_plan::{Job, Verdict};
use qh_slots::{AttachFault, head, slot_size};
use std::alloc::Global;

/// The job that a journal names, and its slots.
#[derive(Drop)]
pub(crate) struct Taken {
    pub(crate) job: Job,
    pub(crate) table: Vec<Option<Verdict>>,
}

/// Why an input is not read.
#[derive(Clone, Copy, PartialEq, Eq, Debug)]
pub(crate) enum ReadFault {
    DiskFault,
    Unread,
    Memory,
}

/// What a fault of the job means here.
pub(crate) fn of_job(fault: JobFault) -> ReadFault
    ensures { result ≡ of_job fault }
{
    match fault {
        JobFault::DiskFault => ReadFault::DiskFault,
        JobFault::Memory => ReadFault::Memory,
        JobFault::Empty => ReadFault::Unread,
        JobFault::Unbegun => ReadFault::Unread,
        JobFault::OldJournal => ReadFault::Unread,
        JobFault::NotAJournal => ReadFault::Unread,
        JobFault::NoJob => ReadFault::Unread,
    }
}

/// What a fault of the slots means here.
pub(crate) fn of_slots(fault: AttachFault) -> ReadFault
    ensures { result ≡ of_slots fault }
{
    match fault {
        AttachFault::DiskFault => ReadFault::DiskFault,
        AttachFault::Memory => ReadFault::Memory,
        AttachFault::Empty => ReadFault::Unread,
        AttachFault::Unbegun => ReadFault::Unread,
        AttachFault::OldJournal => ReadFault::Unread,
        AttachFault::NotAJournal => ReadFault::Unread,
        AttachFault::OtherJob { .. } => ReadFault::Unread,
        AttachFault::BadLength { .. } => ReadFault::Unread,
        AttachFault::BadSlot { .. } => ReadFault::Unread,
    }
}

/// The head of the journal of a job, where a file that begins with it is as long as that journal.
#[tactic(auto, using(qh_disk::proofs::Looking::looks_on))]
pub(crate) fn head_of<D: Disk>(alloc: Global, disk: &mut D, job: &Job) -> Result<Vec<u8>, ReadFault>
    requires safe { IsSafe (D.face disk.old) }
    requires names { Reads (D.face disk.old) (Names job.now) }
    ensures head { IfOk result (λ v. v.items ≡ head job.now) }
    ensures passes { OnOk result (Reads (D.face disk.new) (Passes (head job.now) (place (head job.now) job.now (ranges job.now)))) }
    ensures room { OnOk result (place (head job.now) job.now (ranges job.now) < 2 ^ 64) }
    ensures fault { IfErr result (λ u. ReadMayFail u (D.face disk.old) (D.face disk.new)) }
    ensures looks { Looks (D.face disk.old) (D.face disk.new) }
    ensures same { D.loans disk.new ≡ D.loans disk.old }
{
    let Ok(wanted) = head(alloc, job) else {
        return Err(ReadFault::Memory);
    };
    let Ok(size) = count(disk) else {
        return Err(ReadFault::DiskFault);
    };
    if size != wanted.len() as u64 + u64::from(job.ranges()) * slot_size(job) {
        return Err(ReadFault::Unread);
    }
    Ok(wanted)
}

/// The slots of the journal of a job whose head a file begins with.
#[tactic(auto, using(qh_disk::proofs::Looking::looks_on))]
fn read_table<D: Disk>(
    alloc: Global,
    disk: &mut D,
    job: &Job,
) -> Result<Vec<Option<Verdict>>, ReadFault>
    requires safe { IsSafe (D.face disk.old) }
    requires names { Reads (D.face disk.old) (Names job.now) }
    ensures count { IfOk result (λ t. vec_len t ≡ ranges job.now) }
    ensures fits { IfOk result (λ t. AllFit job.now t.items) }
    ensures slots { IfOk result (λ t. Reads (D.face disk.new) (Stands job.now t.items)) }
    ensures fault { IfErr result (λ u. ReadMayFail u (D.face disk.old) (D.face disk.new)) }
    ensures looks { Looks (D.face disk.old) (D.face disk.new) }
    ensures same { D.loans disk.new ≡ D.loans disk.old }
{
    let wanted = match head_of(alloc, disk, job) {
        Ok(wanted) => wanted,
        Err(fault) => return Err(fault),
    };
    match read_slots(alloc, disk, job, wanted.as_slice()) {
        Ok(table) => Ok(table),
        Err(fault) => Err(of_slots(fault)),
    }
}

/// The input that a disk holds. It makes what is read safe, and writes nothing.
fn read_input<D: Disk>(alloc: Global, disk: &mut D) -> Result<Taken, ReadFault>
    ensures read { IfOk result (λ t. IsRead (input_of t) (D.face disk.new)) }
    ensures fault { IfErr result (λ u. ReadMayFail u (D.face disk.old) (D.face disk.new)) }
    ensures looks { Looks (D.face disk.old) (D.face disk.new) }
    ensures same { D.loans disk.new ≡ D.loans disk.old }
{
    let job = match read_job(alloc, disk) {
        Ok(job) => job,
        Err(fault) => return Err(of_job(fault)),
    };
    match read_table(alloc, disk, &job) {
        Ok(table) => Ok(Taken { job, table }),
        Err(fault) => Err(fault),
    }
}

/// The input of this place.
pub(crate) fn read_at<D: Disk>(
    alloc: Global,
    disks: &mut [D],
    place: usize,
) -> Result<Taken, ReadFault>
    requires { place < length disks.old }
    ensures read { IfOk result (λ t. IsSomeAnd (slice_get disks.new place) (λ d. IsRead (input_of t) (D.face d))) }
    ensures fault { IfErr result (λ u. ReadMayFailAt D.face u place disks.old disks.new) }
    ensures looks { AllLook D.face D.loans disks.old disks.new }
{
    read_input(alloc, &mut disks[place])
}
