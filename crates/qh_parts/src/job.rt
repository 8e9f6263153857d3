//! The job that a journal names.
ghost use Rattle.std.specs.Prelude.{◌≡◌, ◌+◌, ◌≤◌, OnOk, IfOk, IfErr, length, min};
ghost use Rattle.qh_plan.specs.Plans.{IsPlanned};
ghost use Rattle.qh_disk.specs.Disk.{IsSafe, Reads};
ghost use Rattle.qh_disk.specs.Looks.{Looks};
ghost use Rattle.qh_slots.specs.Layout.{head};
ghost use Rattle.qh_parts.specs.Naming.{BytesRefuse, FrontRefuses, IsStart, JobMayFail, Names, Tells, job_fault, told_length};

use crate::job_fault::JobFault;
use crate::{barrier, read_front};
use byteorder::{BigEndian, ByteOrder};
use qh_disk::Disk;
use qh_job_text::{JobTextFault, read_job_text};
use qh_limits::MAX_JOB_BYTES;
use qh_plan::Job;
use qh_slots::{AttachFault, head, name_refusal};
use std::alloc::Global;

/// The bytes of a head before the job text.
const NUMBERS: usize = 32;

/// The length of a file, and its first bytes: those before a job text, or all.
#[derive(Drop)]
struct Start {
    size: u64,
    front: Vec<u8>,
}

/// The fault that one of the calls below means here.
fn job_fault(fault: AttachFault) -> JobFault
    ensures { result ≡ job_fault fault }
{
    match fault {
        AttachFault::DiskFault => JobFault::DiskFault,
        AttachFault::Empty => JobFault::Empty,
        AttachFault::Unbegun => JobFault::Unbegun,
        AttachFault::OldJournal => JobFault::OldJournal,
        AttachFault::NotAJournal => JobFault::NotAJournal,
        AttachFault::Memory => JobFault::Memory,
        AttachFault::OtherJob { .. } => JobFault::NoJob,
        AttachFault::BadLength { .. } => JobFault::NoJob,
        AttachFault::BadSlot { .. } => JobFault::NoJob,
    }
}

/// How many bytes the job text is said to have.
fn told_length(front: &[u8]) -> u64
    requires { 16 ≤ length front.now }
    ensures { result ≡ told_length front.now }
{
    BigEndian::read_u64(&front[8..])
}

/// How many bytes the job text of a file with this start has.
fn text_length(size: u64, front: &[u8]) -> Result<u64, JobFault>
    requires { length front.now ≡ min 32 size }
    ensures told { IfOk result (λ n. Tells size front.now n) }
    ensures fault { IfErr result (λ u. FrontRefuses u size front.now) }
{
    if let Some(fault) = name_refusal(size, front) {
        return Err(job_fault(fault));
    }
    let told = told_length(front);
    if told > MAX_JOB_BYTES {
        return Err(JobFault::NoJob);
    }
    if size < 32 + told {
        return Err(JobFault::NoJob);
    }
    Ok(told)
}

/// The job whose head these bytes are.
fn job_of(alloc: Global, bytes: &[u8]) -> Result<Job, JobFault>
    requires { 32 ≤ length bytes.now }
    ensures found { IfOk result (λ j. bytes.now ≡ head j) }
    ensures planned { IfOk result (λ j. IsPlanned j) }
    ensures fault { IfErr result (λ u. BytesRefuse u bytes.now) }
{
    let job = match read_job_text(alloc, &bytes[NUMBERS..]) {
        Ok(job) => job,
        Err(JobTextFault::NotOne) => return Err(JobFault::NoJob),
        Err(JobTextFault::Memory) => return Err(JobFault::Memory),
    };
    let Ok(spelled) = head(alloc, &job) else {
        return Err(JobFault::Memory);
    };
    if spelled.as_slice() != bytes {
        return Err(JobFault::NoJob);
    }
    Ok(job)
}

/// Makes a file safe, and reads its start.
fn read_start<D: Disk>(alloc: Global, disk: &mut D) -> Result<Start, JobFault>
    ensures start { IfOk result (λ s. Reads (D.face disk.new) (IsStart s.size s.front.items)) }
    ensures long { IfOk result (λ s. length s.front.items ≡ min 32 s.size) }
    ensures safe { OnOk result (IsSafe (D.face disk.new)) }
    ensures fault { IfErr result (λ u. JobMayFail u (D.face disk.old) (D.face disk.new)) }
    ensures looks { Looks (D.face disk.old) (D.face disk.new) }
    ensures same { D.loans disk.new ≡ D.loans disk.old }
{
    let Ok(size) = barrier(disk) else {
        return Err(JobFault::DiskFault);
    };
    match read_front(alloc, disk, size, NUMBERS) {
        Ok(front) => Ok(Start { size, front }),
        Err(fault) => Err(job_fault(fault)),
    }
}

/// The job of the file with this start, which is safe.
fn read_named<D: Disk>(alloc: Global, disk: &mut D, start: &Start) -> Result<Job, JobFault>
    requires start { Reads (D.face disk.old) (IsStart start.now.size start.now.front.items) }
    requires long { length start.now.front.items ≡ min 32 start.now.size }
    requires safe { IsSafe (D.face disk.old) }
    ensures job { IfOk result (λ j. Reads (D.face disk.new) (Names j)) }
    ensures planned { IfOk result (λ j. IsPlanned j) }
    ensures fault { IfErr result (λ u. JobMayFail u (D.face disk.old) (D.face disk.new)) }
    ensures looks { Looks (D.face disk.old) (D.face disk.new) }
    ensures same { D.loans disk.new ≡ D.loans disk.old }
{
    let told = match text_length(start.size, start.front.as_slice()) {
        Ok(told) => told,
        Err(fault) => return Err(fault),
    };
    let bytes = match read_front(alloc, disk, start.size, NUMBERS + told as usize) {
        Ok(bytes) => bytes,
        Err(fault) => return Err(job_fault(fault)),
    };
    job_of(alloc, bytes.as_slice())
}

/// The job whose journal this disk holds, by its head alone. It first makes what is read safe, and it writes nothing. Whether the file is as long as
/// the job's journal, and whether its slots fit, is not looked at.
pub fn read_job<D: Disk>(alloc: Global, disk: &mut D) -> Result<Job, JobFault>
    ensures job { IfOk result (λ j. Reads (D.face disk.new) (Names j)) }
    ensures planned { IfOk result (λ j. IsPlanned j) }
    ensures safe { OnOk result (IsSafe (D.face disk.new)) }

    ensures fault { IfErr result (λ u. JobMayFail u (D.face disk.old) (D.face disk.new)) }

    ensures looks { Looks (D.face disk.old) (D.face disk.new) }
    ensures same { D.loans disk.new ≡ D.loans disk.old }
{
    let start = match read_start(alloc, disk) {
        Ok(start) => start,
        Err(fault) => return Err(fault),
    };
    read_named(alloc, disk, &start)
}
