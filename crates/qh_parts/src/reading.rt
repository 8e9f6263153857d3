//! How a file is read that may be a journal.
ghost use Rattle.std.specs.Prelude.{◌≡◌, ◌+◌, ◌^◌, ◌<◌, ◌≤◌, ◌∷◌, ◌++◌, [], ℕ, IfOk, IfErr, IfSome, OnOk, OnErr, length, min, take, vec_len};
ghost use Rattle.qh_limits.specs.Counts.{Rose};
ghost use Rattle.qh_plan.specs.Jobs.{ranges};
ghost use Rattle.qh_plan.specs.Ranges.{Fits};
ghost use Rattle.qh_disk.specs.Disk.{IsSafe, Reads};
ghost use Rattle.qh_disk.specs.Looks.{Looks};
ghost use Rattle.qh_slots.specs.Layout.{place, slot_size};
ghost use Rattle.qh_slots.specs.Slots.{SlotIs};
ghost use Rattle.qh_slots.specs.Stands.{AllFit, StandsBy};
ghost use Rattle.qh_slots.specs.Attaching.{Passes};
ghost use Rattle.qh_parts.specs.Reading.{FrontMayFail, OnlyReads, SlotMayFail, SlotsMayFail};

use qh_disk::{Disk, Failed};
use qh_plan::{Job, Verdict};
use qh_slots::{AttachFault, MARK, slot_size};
use std::alloc::{AllocError, Global};

/// Makes what is read safe.
#[tactic(auto, using(qh_disk::proofs::Looking::looks_sync))]
pub fn settle<D: Disk>(disk: &mut D) -> Result<(), Failed>
    ensures safe { OnOk result (IsSafe (D.face disk.new)) }
    ensures looks { Looks (D.face disk.old) (D.face disk.new) }
    ensures same { D.loans disk.new ≡ D.loans disk.old }
    ensures rose { OnErr result (Rose (D.face disk.old).faults (D.face disk.new).faults) }
    ensures count { IfErr result (λ e. e.faults ≡ (D.face disk.new).faults) }
{
    disk.sync()
}

/// Counts the bytes.
#[tactic(auto, using(crate::proofs::ReadingLemmas::only_reads_call))]
pub fn count<D: Disk>(disk: &mut D) -> Result<u64, Failed>
    ensures count { IfOk result (λ n. Reads (D.face disk.new) (λ f. n ≡ length f)) }
    ensures reading { OnlyReads (D.face disk.old) (D.face disk.new) }
    ensures same { D.loans disk.new ≡ D.loans disk.old }
    ensures rose { OnErr result (Rose (D.face disk.old).faults (D.face disk.new).faults) }
    ensures faults { IfErr result (λ e. e.faults ≡ (D.face disk.new).faults) }
{
    disk.len()
}

/// Makes what is read safe, and counts its bytes.
#[tactic(auto, using(qh_disk::proofs::Looking::looks_on, qh_disk::proofs::Looking::looks_sync, qh_disk::proofs::Looking::looks_call))]
pub fn barrier<D: Disk>(disk: &mut D) -> Result<u64, Failed>
    ensures count { IfOk result (λ n. Reads (D.face disk.new) (λ f. n ≡ length f)) }
    ensures safe { OnOk result (IsSafe (D.face disk.new)) }
    ensures looks { Looks (D.face disk.old) (D.face disk.new) }
    ensures same { D.loans disk.new ≡ D.loans disk.old }
    ensures rose { OnErr result (Rose (D.face disk.old).faults (D.face disk.new).faults) }
    ensures faults { IfErr result (λ e. e.faults ≡ (D.face disk.new).faults) }
{
    disk.sync()?;
    disk.len()
}

/// The bytes of a file of so many, up to the most that are asked for. An empty file is not read.
#[tactic(auto, using(crate::proofs::ReadingLemmas::only_reads_call, crate::proofs::ReadingLemmas::only_reads_same))]
pub fn read_front<D: Disk>(
    alloc: Global,
    disk: &mut D,
    count: u64,
    most: usize,
) -> Result<Vec<u8>, AttachFault>
    requires { Reads (D.face disk.old) (λ f. count ≡ length f) }
    ensures front { IfOk result (λ v. Reads (D.face disk.old) (λ f. v.items ≡ take most f)) }
    ensures size { IfOk result (λ v. vec_len v ≡ min most count) }
    ensures fault { IfErr result (λ u. FrontMayFail u (D.face disk.old) (D.face disk.new)) }
    ensures reading { OnlyReads (D.face disk.old) (D.face disk.new) }
    ensures same { D.loans disk.new ≡ D.loans disk.old }
{
    if count == 0 {
        return Ok(Vec::new(alloc));
    }
    let size = (most as u64).min(count) as usize;
    let mut front = vec![in alloc; 0; size]?;
    disk.read_at(0, &mut front)?;
    Ok(front)
}

/// The slot of a range in a file that begins with this head, or none where its gate is closed. Its bytes go through the
/// buffer, in one call of the disk.
#[tactic(auto, using(crate::proofs::ReadingLemmas::only_reads_call, crate::proofs::ReadingLemmas::only_reads_same))]
pub fn read_one<D: Disk>(
    alloc: Global,
    disk: &mut D,
    job: &Job,
    head: &[u8],
    range: u32,
    at: u64,
    slot: &mut [u8],
) -> Result<Option<Verdict>, AttachFault>
    requires range { range < ranges job.now }
    requires at { at ≡ place head.now job.now range }
    requires size { length slot.old ≡ slot_size job.now }
    requires whole { Reads (D.face disk.old) (λ f. length f ≡ place head.now job.now (ranges job.now)) }
    ensures slot { IfOk result (λ o. Reads (D.face disk.old) (λ f. SlotIs head.now job.now range f o)) }
    ensures fits { IfOk result (λ o. IfSome o (Fits job.now range)) }
    ensures fault { IfErr result (λ u. SlotMayFail head.now job.now range u (D.face disk.old) (D.face disk.new)) }
    ensures reading { OnlyReads (D.face disk.old) (D.face disk.new) }
    ensures same { D.loans disk.new ≡ D.loans disk.old }
{
    disk.read_at(at, slot)?;
    if slot[0] != MARK {
        return Ok(None);
    }
    match qh_slots::read_slot(alloc, &slot[1..], job, range)? {
        Some(verdict) => Ok(Some(verdict)),
        None => Err(AttachFault::BadSlot { range }),
    }
}

/// Appends a slot.
pub fn add(table: &mut Vec<Option<Verdict>>, slot: Option<Verdict>) -> Result<(), AllocError>
    ensures { OnOk result (table.new.items ≡ table.old.items ++ slot ∷ []) }
{
    table.push(slot)?;
    Ok(())
}

/// The slots of a file that begins with this head and is as long as the job's journal then is. They are read one after the other through one
/// buffer, each by one call.
#[tactic(auto, using(crate::proofs::ReadingLemmas::only_reads_on, crate::proofs::ReadingLemmas::only_reads_same))]
pub fn read_slots<D: Disk>(
    alloc: Global,
    disk: &mut D,
    job: &Job,
    head: &[u8],
) -> Result<Vec<Option<Verdict>>, AttachFault>
    requires passes { Reads (D.face disk.old) (Passes head.now (place head.now job.now (ranges job.now))) }
    requires room { place head.now job.now (ranges job.now) < 2 ^ 64 }
    ensures count { IfOk result (λ t. vec_len t ≡ ranges job.now) }
    ensures fits { IfOk result (λ t. AllFit job.now t.items) }
    ensures slots { IfOk result (λ t. Reads (D.face disk.new) (StandsBy head.now job.now t.items)) }
    ensures fault { IfErr result (λ u. SlotsMayFail head.now job.now u (D.face disk.old) (D.face disk.new)) }
    ensures reading { OnlyReads (D.face disk.old) (D.face disk.new) }
    ensures same { D.loans disk.new ≡ D.loans disk.old }
{
    let size = slot_size(job);
    let start = head.len() as u64;
    let mut slot = vec![in alloc; 0; size as usize]?;
    let mut table = Vec::new(alloc);
    for range in 0..job.ranges() {
        let at = start + u64::from(range) * size;
        let verdict = match read_one(alloc, disk, job, head, range, at, &mut slot) {
            Ok(verdict) => verdict,
            Err(fault) => return Err(fault),
        };
        add(&mut table, verdict)?;
    }
    Ok(table)
}
