//! The slots of an old journal, read from one disk and laid on another.
ghost use Rattle.std.specs.Prelude.{◌≡◌, ◌+◌, ◌^◌, ◌<◌, ◌≤◌, ◌∷◌, ℕ, [], OnOk, OnErr, IfOk, IfErr, Option, Some, None, length, vec_len, take};
ghost use Rattle.qh_limits.specs.Limits.{max_journal_bytes};
ghost use Rattle.qh_limits.specs.Counts.{Rose};
ghost use Rattle.qh_plan.specs.declared.verdict.Verdict.{Verdict as VerdictValue};
ghost use Rattle.qh_plan.specs.Jobs.{ranges};
ghost use Rattle.qh_plan.specs.Ranges.{Fits};
ghost use Rattle.qh_slots.specs.Stands.{Slots};
ghost use Rattle.qh_disk.specs.Disk.{IsSafe, Reads};
ghost use Rattle.qh_slots.specs.Layout.{head, mark, old_head, place, slot_size};
ghost use Rattle.qh_slots.specs.Slots.{spelled};
ghost use Rattle.qh_slots.specs.Stands.{AllFit, Stands, Stands1, nones};
ghost use Rattle.qh_parts.specs.Reading.{OnlyReads};
ghost use Rattle.qh_parts.specs.Laying.{Creates, IsFresh, IsLaid, IsUnbegun, StaysClosed};
ghost use Rattle.qh_migrate.specs.Moving.{OldMayFail, count_open};
ghost use Rattle.qh_migrate.specs.Laid.{front_of, put};

use qh_disk::{Disk, Failed};
use qh_parts::{begin, count, lay, read_front, read_slots, write_slot};
use qh_plan::{Job, Verdict};
use qh_slots::{AttachFault, MARK, old_head_refusal, put_slot, slot_size};
use std::alloc::Global;

/// The slots with which a file of the first format stands for the job.
pub(crate) fn look_through<D: Disk>(
    alloc: Global,
    disk: &mut D,
    job: &Job,
    wanted: &[u8],
) -> Result<Vec<Option<Verdict>>, AttachFault>
    requires head { wanted.now ≡ old_head job.now }
    requires room { place (old_head job.now) job.now (ranges job.now) < 2 ^ 63 }
    ensures count { IfOk result (λ t. vec_len t ≡ ranges job.now) }
    ensures fits { IfOk result (λ t. AllFit job.now t.items) }
    ensures slots { IfOk result (λ t. Reads (D.face disk.old) (Stands1 job.now t.items)) }
    ensures fault { IfErr result (λ u. OldMayFail job.now u (D.face disk.old) (D.face disk.new)) }
    ensures reading { OnlyReads (D.face disk.old) (D.face disk.new) }
    ensures same { D.loans disk.new ≡ D.loans disk.old }
{
    let size = count(disk)?;
    let front = match read_front(alloc, disk, size, wanted.len()) {
        Ok(front) => front,
        Err(fault) => return Err(fault),
    };
    let right = wanted.len() as u64 + u64::from(job.ranges()) * slot_size(job);
    if let Some(fault) = old_head_refusal(wanted, right, size, front.as_slice()) {
        return Err(fault);
    }
    read_slots(alloc, disk, job, wanted)
}

/// Spells a whole slot, its gate open.
fn spell(job: &Job, range: u32, verdict: &Verdict, slot: &mut [u8])
    requires fits { Fits job.now range verdict.now }
    requires size { length slot.old ≡ slot_size job.now }
    ensures { slot.new ≡ mark ∷ spelled job.now verdict.now }
{
    slot[0] = MARK;
    put_slot(verdict, &mut slot[1..]);
}

/// Lays the slot of a range, if it is open, and counts it. Its bytes go through the buffer.
fn put<D: Disk>(
    disk: &mut D,
    job: &Job,
    range: u32,
    at: u64,
    slot: &Option<Verdict>,
    bytes: &mut [u8],
) -> Result<u32, Failed>
    requires range { range < ranges job.now }
    requires at { at ≡ place (head job.now) job.now range }
    requires fits { (v : VerdictValue) → slot.now ≡ Some v → Fits job.now range v }
    requires space { length bytes.old ≡ slot_size job.now }
    requires size { Reads (D.face disk.old) (λ f. length f ≡ place (head job.now) job.now (ranges job.now)) }
    ensures laid { IfOk result (λ n. (s : Slots) → Reads (D.face disk.old) (IsLaid job.now s) → Reads (D.face disk.new) (IsLaid job.now (put s range slot.now))) }
    ensures count { IfOk result (λ n. n ≡ count_open (slot.now ∷ [])) }
    ensures unbegun { Reads (D.face disk.old) (λ f. IsUnbegun f) → Reads (D.face disk.new) (λ f. IsUnbegun f) }
    ensures closed { StaysClosed (D.face disk.old) (D.face disk.new) }
    ensures same { D.loans disk.new ≡ D.loans disk.old }
    ensures rose { OnErr result (Rose (D.face disk.old).faults (D.face disk.new).faults) }
    ensures space { length bytes.new ≡ slot_size job.now }
{
    let Some(verdict) = slot else {
        return Ok(0);
    };
    spell(job, range, verdict, bytes);
    write_slot(disk, job, range, verdict, at, bytes)?;
    Ok(1)
}

/// Lays the open slots of the table in their order, and counts them.
fn put_all<D: Disk>(
    disk: &mut D,
    job: &Job,
    start: u64,
    table: &[Option<Verdict>],
    bytes: &mut [u8],
) -> Result<u32, Failed>
    requires start { start ≡ length (head job.now) }
    requires short { place (head job.now) job.now (ranges job.now) ≤ max_journal_bytes }
    requires table { length table.now ≡ ranges job.now }
    requires fits { AllFit job.now table.now }
    requires space { length bytes.old ≡ slot_size job.now }
    requires laid { Reads (D.face disk.old) (IsLaid job.now (nones job.now)) }
    ensures laid { OnOk result (Reads (D.face disk.new) (IsLaid job.now table.now)) }
    ensures count { IfOk result (λ n. n ≡ count_open table.now) }
    ensures unbegun { Reads (D.face disk.new) (λ f. IsUnbegun f) }
    ensures closed { StaysClosed (D.face disk.old) (D.face disk.new) }
    ensures same { D.loans disk.new ≡ D.loans disk.old }
    ensures rose { OnErr result (Rose (D.face disk.old).faults (D.face disk.new).faults) }
{
    let size = slot_size(job);
    let mut moved = 0;
    for range in 0..job.ranges() {
        let at = start + u64::from(range) * size;
        moved += put(disk, job, range, at, &table[range as usize], bytes)?;
    }
    Ok(moved)
}

/// Makes a journal with these slots on an empty file, and counts the open ones.
pub(crate) fn fill<D: Disk>(
    disk: &mut D,
    job: &Job,
    wanted: &[u8],
    table: &[Option<Verdict>],
    bytes: &mut [u8],
) -> Result<u32, Failed>
    requires wanted { wanted.now ≡ head job.now }
    requires short { place (head job.now) job.now (ranges job.now) ≤ max_journal_bytes }
    requires table { length table.now ≡ ranges job.now }
    requires fits { AllFit job.now table.now }
    requires space { length bytes.old ≡ slot_size job.now }
    requires empty { Reads (D.face disk.old) (λ f. f ≡ []) }
    ensures stands { OnOk result (Reads (D.face disk.new) (Stands job.now table.now)) }
    ensures safe { OnOk result (IsSafe (D.face disk.new)) }
    ensures count { IfOk result (λ n. n ≡ count_open table.now) }
    ensures fresh { Reads (D.face disk.new) (IsFresh job.now table.now) }
    ensures creates { Creates job.now table.now (D.face disk.old) (D.face disk.new) }
    ensures same { D.loans disk.new ≡ D.loans disk.old }
    ensures rose { OnErr result (Rose (D.face disk.old).faults (D.face disk.new).faults) }
{
    let start = wanted.len() as u64;
    let size = start + u64::from(job.ranges()) * slot_size(job);
    lay(disk, job, wanted, size)?;
    let moved = put_all(disk, job, start, table, bytes)?;
    begin(disk, job)?;
    Ok(moved)
}
