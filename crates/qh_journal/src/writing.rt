//! Stores of a journal that may have a disk.
ghost use Rattle.std.specs.Prelude.{◌≡◌, ◌⊎◌, ◌^◌, ◌<◌, ◌≤◌, ℕ, Some, None, OnOk, OnErr, IfErr, IsOk, length, set};
ghost use Rattle.std.specs.Option.{ForSome};
ghost use Rattle.qh_limits.specs.Limits.{max_journal_bytes};
ghost use Rattle.qh_limits.specs.Counts.{Rose};
ghost use Rattle.qh_plan.specs.Jobs.{ranges, IsJob};
ghost use Rattle.qh_plan.specs.Ranges.{Fits};
ghost use Rattle.qh_plan.specs.Values.{range_value};
ghost use Rattle.qh_disk.specs.Disk.{IsSafe, Reads};
ghost use Rattle.qh_disk.specs.Moments.{EachImage, Lasts};
ghost use Rattle.qh_slots.specs.Layout.{head, place, body_size};
ghost use Rattle.qh_slots.specs.Slots.{spelled};
ghost use Rattle.qh_slots.specs.Stands.{Slots, Stands, Made, Holds, Shut};
ghost use Rattle.qh_slots.specs.Moments.{GoesOn};
ghost use Rattle.qh_parts.specs.Sparing.{Spares};
ghost use Rattle.qh_parts.specs.Groups.{AreValues, IsGroup, StandsPartly, filled, range_of, member_of};
ghost use Rattle.qh_journal.specs.Calls.{Went, Same};

use arrayvec::ArrayVec;
use qh_disk::{Disk, Failed};
use qh_parts::Member;
use qh_plan::{Job, Verdict};
use qh_slots::put_slot;

/// Spells a verdict that fits over the bytes of a slot behind its gate.
pub(crate) fn spell(job: &Job, range: u32, verdict: &Verdict, bytes: &mut [u8])
    requires fits { Fits job.now range verdict.now }
    requires size { length bytes.old ≡ body_size job.now }
    ensures { bytes.new ≡ spelled job.now verdict.now }
{
    put_slot(verdict, bytes);
}

/// Stores a verdict on the disk, if there is one.
pub(crate) fn write<D: Disk>(
    disk: &mut Option<D>,
    job: &Job,
    range: u32,
    verdict: &Verdict,
    at: u64,
    body: &[u8],
) -> Result<(), Failed>
    requires valid { IsJob job.now }
    requires range { range < ranges job.now }
    requires at { at ≡ place (head job.now) job.now range }
    requires room { at < 2 ^ 63 }
    requires body { body.now ≡ spelled job.now verdict.now }
    requires fits { Fits job.now range verdict.now }
    requires shut { ForSome disk.old (λ d. EachImage (D.face d) (Shut job.now range)) }
    ensures stored { OnOk result (ForSome disk.new (λ e. EachImage (D.face e) (Holds job.now range verdict.now))) }
    ensures safe { OnOk result (ForSome disk.new (λ e. IsSafe (D.face e))) }
    ensures opened { OnOk result ((s : Slots) → Went (λ d e. Reads (D.face d) (Stands job.now s) → Reads (D.face e) (Stands job.now (set s range (Some verdict.now)))) disk.old disk.new) }
    ensures either { (s : Slots) → Went (λ d e. Reads (D.face d) (Stands job.now s) → Reads (D.face e) (λ f. Stands job.now s f ⊎ Stands job.now (set s range (Some verdict.now)) f)) disk.old disk.new }
    ensures went { Went (λ d e. Same D.face D.loans d e × Spares job.now (D.face d) (D.face e)) disk.old disk.new }
    ensures made { verdict.now ≡ range_value job.now range → Went (λ d e. Lasts (Made job.now) (D.face d) (D.face e)) disk.old disk.new }
    ensures goes_on { verdict.now ≡ range_value job.now range → Went (λ d e. (s : Slots) → Lasts (GoesOn job.now s) (D.face d) (D.face e)) disk.old disk.new }
    ensures rose { OnErr result (Went (λ d e. Rose (D.face d).faults (D.face e).faults) disk.old disk.new) }
    ensures count { IfErr result (λ u. ForSome disk.new (λ e. u.faults ≡ (D.face e).faults)) }
    ensures unkept { disk.old ≡ None → IsOk result }
{
    match disk {
        None => Ok(()),
        Some(disk) => qh_parts::store(disk, job, range, verdict, at, body),
    }
}

/// Stores a group of verdicts on the disk, if there is one.
pub(crate) fn write_group<D: Disk>(
    disk: &mut Option<D>,
    job: &Job,
    start: u64,
    group: &[Member],
    body: &mut [u8],
) -> Result<(), Failed>
    requires valid { IsJob job.now }
    requires start { start ≡ length (head job.now) }
    requires short { place (head job.now) job.now (ranges job.now) ≤ max_journal_bytes }
    requires body { length body.old ≡ body_size job.now }
    requires group { IsGroup job.now group.now }
    requires shut { ForSome disk.old (λ d. (k : ℕ) → k < length group.now → EachImage (D.face d) (Shut job.now (range_of group.now k))) }
    ensures stored { OnOk result (ForSome disk.new (λ e. (k : ℕ) → k < length group.now → EachImage (D.face e) (Holds job.now (range_of group.now k) (member_of group.now k)))) }
    ensures safe { OnOk result (ForSome disk.new (λ e. IsSafe (D.face e))) }
    ensures filled { OnOk result ((s : Slots) → Went (λ d e. Reads (D.face d) (Stands job.now s) → Reads (D.face e) (Stands job.now (filled s group.now))) disk.old disk.new) }
    ensures partly { (s : Slots) → Went (λ d e. Reads (D.face d) (Stands job.now s) → Reads (D.face e) (StandsPartly job.now s group.now)) disk.old disk.new }
    ensures went { Went (λ d e. Same D.face D.loans d e × Spares job.now (D.face d) (D.face e)) disk.old disk.new }
    ensures made { AreValues job.now group.now → Went (λ d e. Lasts (Made job.now) (D.face d) (D.face e)) disk.old disk.new }
    ensures goes_on { AreValues job.now group.now → Went (λ d e. (s : Slots) → Lasts (GoesOn job.now s) (D.face d) (D.face e)) disk.old disk.new }
    ensures rose { OnErr result (Went (λ d e. Rose (D.face d).faults (D.face e).faults) disk.old disk.new) }
    ensures count { IfErr result (λ u. ForSome disk.new (λ e. u.faults ≡ (D.face e).faults)) }
    ensures unkept { disk.old ≡ None → IsOk result }
    ensures size { length body.new ≡ body_size job.now }
{
    match disk {
        None => Ok(()),
        Some(disk) => qh_parts::store_group(disk, job, start, group, body),
    }
}

/// Puts the members into the table.
pub(crate) fn fill(table: &mut Vec<Option<Verdict>>, mut group: ArrayVec<Member, 8>)
    requires { (k : ℕ) → k < length group.items → range_of group.items k < length table.old.items }
    ensures { table.new.items ≡ filled table.old.items group.items }
{
    for k in 0..group.len() {
        let Member { range, verdict } = group.remove(0);
        table[range as usize] = Some(verdict);
    }
}
