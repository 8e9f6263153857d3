//! An input with a new prefix value, whose slots are added as they are read.
ghost use Rattle.std.specs.Prelude.{◌≡◌, ◌^◌, ◌<◌, true, false, IfOk, IfErr, IfSome, OnOk, length, slice_get};
ghost use Rattle.std.specs.Option.{IsSomeAnd};
ghost use Rattle.qh_plan.specs.Jobs.{ranges};
ghost use Rattle.qh_plan.specs.Plans.{IsPlanned};
ghost use Rattle.qh_disk.specs.Disk.{IsSafe, Reads};
ghost use Rattle.qh_disk.specs.Looks.{Looks};
ghost use Rattle.qh_slots.specs.Layout.{place, slot_size};
ghost use Rattle.qh_slots.specs.Stands.{StandsBy};
ghost use Rattle.qh_slots.specs.Attaching.{Passes};
ghost use Rattle.qh_parts.specs.Reading.{OnlyReads, SlotsMayFail};
ghost use Rattle.qh_parts.specs.Naming.{Names};
ghost use Rattle.qh_merge.specs.Adding.{AreAddedUp, IsAdded, IsNewIn, Takes, TakesNew};
ghost use Rattle.qh_merge.specs.Gathered.{state_of};
ghost use Rattle.qh_merge.specs.Inputs.{AllLook};
ghost use Rattle.qh_merge.specs.Parts.{ReadMayFail, ReadMayFailAt};

use crate::gather::{Gathered, place_of};
use crate::input::{ReadFault, head_of, of_job, of_slots};
use crate::slots::{add_slot, lesser_path};
use qh_disk::Disk;
use qh_parts::{read_job, read_one};
use qh_plan::{Job, Verdict};
use qh_ring::Omega;
use qh_slots::{AttachFault, slot_size};
use std::alloc::Global;

/// Sums, and the least path that is over.
#[derive(Drop)]
struct Total {
    sums: Vec<Omega>,
    over: Option<u64>,
}

/// What the slots of a file that begins with this head and is as long as the job's journal then is give together with what is there: each is added
/// as it is read, and its numbers are given back before the next is read. None where a slot is closed.
#[tactic(auto, using(qh_parts::proofs::ReadingLemmas::only_reads_on, qh_parts::proofs::ReadingLemmas::only_reads_same))]
fn add_slots<D: Disk>(
    alloc: Global,
    disk: &mut D,
    job: &Job,
    head: &[u8],
    mut total: Total,
) -> Result<Option<Total>, AttachFault>
    requires passes { Reads (D.face disk.old) (Passes head.now (place head.now job.now (ranges job.now))) }
    requires room { place head.now job.now (ranges job.now) < 2 ^ 64 }
    requires takes { Takes job.now total.sums.items }
    ensures added { IfOk result (λ o. IfSome o (λ t. AreAddedUp job.now (ranges job.now) (λ s. Reads (D.face disk.new) (StandsBy head.now job.now s)) total.sums.items t.sums.items total.over t.over)) }
    ensures fault { IfErr result (λ u. SlotsMayFail head.now job.now u (D.face disk.old) (D.face disk.new)) }
    ensures reading { OnlyReads (D.face disk.old) (D.face disk.new) }
    ensures same { D.loans disk.new ≡ D.loans disk.old }
{
    let size = slot_size(job);
    let start = head.len() as u64;
    let mut slot = vec![in alloc; 0; size as usize]?;
    for range in 0..job.ranges() {
        let at = start + u64::from(range) * size;
        let verdict = match read_one(alloc, disk, job, head, range, at, &mut slot) {
            Ok(verdict) => verdict,
            Err(fault) => return Err(fault),
        };
        if verdict.is_none() {
            return Ok(None);
        }
        add_slot(total.sums.as_mut_slice(), &verdict);
        total.over = lesser_path(total.over, &verdict);
    }
    Ok(Some(total))
}

/// The prefix value of a job of the family, where no input has it yet.
fn new_prefix(gathered: &Gathered, job: &Job) -> Option<u32>
    ensures { IfSome result (λ w. IsNewIn (state_of gathered.now) job.now w) }
{
    let Some(prefix) = job.prefix_value() else {
        return None;
    };
    if !gathered.job.same_but_prefix(job) {
        return None;
    }
    let None = place_of(gathered.prefixes.as_slice(), prefix) else {
        return None;
    };
    Some(prefix)
}

/// Takes the journal of this job, which a disk begins with, as one with a new prefix value. False where it is not finished; nothing is taken then.
#[tactic(auto, using(qh_disk::proofs::Looking::looks_on))]
fn add_journal<D: Disk>(
    alloc: Global,
    disk: &mut D,
    job: &Job,
    prefix: u32,
    gathered: &mut Gathered,
) -> Result<bool, ReadFault>
    requires safe { IsSafe (D.face disk.old) }
    requires names { Reads (D.face disk.old) (Names job.now) }
    requires planned { IsPlanned job.now }
    requires fresh { IsNewIn (state_of gathered.old) job.now prefix }
    requires takes { Takes job.now gathered.old.sums.items }
    ensures added { IfOk result (λ b. b ≡ true → IsAdded (D.face disk.new) (state_of gathered.old) (state_of gathered.new)) }
    ensures unchanged { IfOk result (λ b. b ≡ false → state_of gathered.new ≡ state_of gathered.old) }
    ensures fault { IfErr result (λ u. ReadMayFail u (D.face disk.old) (D.face disk.new)) }
    ensures looks { Looks (D.face disk.old) (D.face disk.new) }
    ensures same { D.loans disk.new ≡ D.loans disk.old }
{
    let wanted = match head_of(alloc, disk, job) {
        Ok(wanted) => wanted,
        Err(fault) => return Err(fault),
    };
    let Ok(sums) = Vec::from_slice(alloc, gathered.sums.as_slice()) else {
        return Err(ReadFault::Memory);
    };
    let over = gathered.over;
    let total = match add_slots(alloc, disk, job, wanted.as_slice(), Total { sums, over }) {
        Ok(Some(total)) => total,
        Ok(None) => return Ok(false),
        Err(fault) => return Err(of_slots(fault)),
    };
    let Ok(()) = gathered.prefixes.push(prefix) else {
        return Err(ReadFault::Memory);
    };
    gathered.sums = total.sums;
    gathered.over = total.over;
    Ok(true)
}

/// Takes the input that a disk holds, where it has a new prefix value of the family and is finished. False where not; nothing is taken then.
#[tactic(auto, using(qh_disk::proofs::Looking::looks_on))]
fn add_input<D: Disk>(
    alloc: Global,
    disk: &mut D,
    gathered: &mut Gathered,
) -> Result<bool, ReadFault>
    requires takes { TakesNew (state_of gathered.old) }
    ensures added { IfOk result (λ b. b ≡ true → IsAdded (D.face disk.new) (state_of gathered.old) (state_of gathered.new)) }
    ensures unchanged { IfOk result (λ b. b ≡ false → state_of gathered.new ≡ state_of gathered.old) }
    ensures fault { IfErr result (λ u. ReadMayFail u (D.face disk.old) (D.face disk.new)) }
    ensures looks { Looks (D.face disk.old) (D.face disk.new) }
    ensures same { D.loans disk.new ≡ D.loans disk.old }
{
    let job = match read_job(alloc, disk) {
        Ok(job) => job,
        Err(fault) => return Err(of_job(fault)),
    };
    let Some(prefix) = new_prefix(gathered, &job) else {
        return Ok(false);
    };
    add_journal(alloc, disk, &job, prefix, gathered)
}

/// The same of the input of this place.
pub(crate) fn add_at<D: Disk>(
    alloc: Global,
    disks: &mut [D],
    place: usize,
    gathered: &mut Gathered,
) -> Result<bool, ReadFault>
    requires place { place < length disks.old }
    requires takes { TakesNew (state_of gathered.old) }
    ensures added { IfOk result (λ b. b ≡ true → IsSomeAnd (slice_get disks.new place) (λ d. IsAdded (D.face d) (state_of gathered.old) (state_of gathered.new))) }
    ensures unchanged { IfOk result (λ b. b ≡ false → state_of gathered.new ≡ state_of gathered.old) }
    ensures fault { IfErr result (λ u. ReadMayFailAt D.face u place disks.old disks.new) }
    ensures looks { AllLook D.face D.loans disks.old disks.new }
{
    add_input(alloc, &mut disks[place], gathered)
}
