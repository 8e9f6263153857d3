//! The parts of a group of stores, which go under two syncs.
ghost use Rattle.std.specs.Prelude.{◌≡◌, ◌+◌, ◌^◌, ◌<◌, ◌≤◌, ℕ, OnOk, OnErr, IfErr, length};
ghost use Rattle.qh_limits.specs.Limits.{max_journal_bytes};
ghost use Rattle.qh_plan.specs.Jobs.{ranges, IsJob};
ghost use Rattle.qh_plan.specs.declared.verdict.Verdict.{Verdict as VerdictValue};
ghost use Rattle.qh_limits.specs.Counts.{Rose};
ghost use Rattle.qh_disk.specs.Disk.{IsSafe, Reads};
ghost use Rattle.qh_disk.specs.Moments.{EachImage, Lasts};
ghost use Rattle.qh_slots.specs.Layout.{head, place, body_size};
ghost use Rattle.qh_slots.specs.Stands.{Slots, Stands, Made, Holds, Shut, Behind};
ghost use Rattle.qh_slots.specs.Moments.{GoesOn};
ghost use Rattle.qh_parts.specs.Sparing.{Spares};
ghost use Rattle.qh_parts.specs.Groups.{AreValues, IsGroup, StandsPartly, filled, range_of, member_of};

use crate::member::Member;
use crate::reading::settle;
use crate::storing::{write_body, write_gate};
use qh_disk::{Disk, Failed};
use qh_plan::Job;
use qh_slots::{put_slot, slot_size};

/// Writes the bodies of closed slots, one after the other through one buffer.
pub(crate) fn write_bodies<D: Disk>(
    disk: &mut D,
    job: &Job,
    start: u64,
    group: &[Member],
    body: &mut [u8],
) -> Result<(), Failed>
    requires valid { IsJob job.now }
    requires start { start ≡ length (head job.now) }
    requires short { place (head job.now) job.now (ranges job.now) ≤ max_journal_bytes }
    requires body { length body.old ≡ body_size job.now }
    requires group { IsGroup job.now group.now }
    requires shut { (k : ℕ) → k < length group.now → EachImage (D.face disk.old) (Shut job.now (range_of group.now k)) }
    ensures shut { (k : ℕ) → k < length group.now → EachImage (D.face disk.new) (Shut job.now (range_of group.now k)) }
    ensures behind { OnOk result ((k : ℕ) → k < length group.now → Reads (D.face disk.new) (Behind job.now (range_of group.now k) (member_of group.now k))) }
    ensures kept { (s : Slots) → Reads (D.face disk.old) (Stands job.now s) → Reads (D.face disk.new) (Stands job.now s) }
    ensures spares { Spares job.now (D.face disk.old) (D.face disk.new) }
    ensures made { Lasts (Made job.now) (D.face disk.old) (D.face disk.new) }
    ensures goes_on { (s : Slots) → Lasts (GoesOn job.now s) (D.face disk.old) (D.face disk.new) }
    ensures size { length body.new ≡ body_size job.now }
    ensures same { D.loans disk.new ≡ D.loans disk.old }
    ensures rose { OnErr result (Rose (D.face disk.old).faults (D.face disk.new).faults) }
    ensures count { IfErr result (λ e. e.faults ≡ (D.face disk.new).faults) }
{
    let size = slot_size(job);
    for member in group {
        put_slot(&member.verdict, body);
        let at = start + u64::from(member.range) * size;
        write_body(disk, job, member.range, &member.verdict, at, body)?;
    }
    Ok(())
}

/// Opens the gates of slots whose bodies are safe, one after the other.
pub(crate) fn open_gates<D: Disk>(
    disk: &mut D,
    job: &Job,
    start: u64,
    group: &[Member],
) -> Result<(), Failed>
    requires valid { IsJob job.now }
    requires start { start ≡ length (head job.now) }
    requires short { place (head job.now) job.now (ranges job.now) ≤ max_journal_bytes }
    requires group { IsGroup job.now group.now }
    requires behind { (k : ℕ) → k < length group.now → EachImage (D.face disk.old) (Behind job.now (range_of group.now k) (member_of group.now k)) }
    ensures stored { OnOk result ((k : ℕ) → k < length group.now → Reads (D.face disk.new) (Holds job.now (range_of group.now k) (member_of group.now k))) }
    ensures held { (q : ℕ) (w : VerdictValue) → Reads (D.face disk.old) (Holds job.now q w) → Reads (D.face disk.new) (Holds job.now q w) }
    ensures filled { OnOk result ((s : Slots) → Reads (D.face disk.old) (Stands job.now s) → Reads (D.face disk.new) (Stands job.now (filled s group.now))) }
    ensures partly { (s : Slots) → Reads (D.face disk.old) (Stands job.now s) → Reads (D.face disk.new) (StandsPartly job.now s group.now) }
    ensures spares { Spares job.now (D.face disk.old) (D.face disk.new) }
    ensures made { AreValues job.now group.now → Lasts (Made job.now) (D.face disk.old) (D.face disk.new) }
    ensures goes_on { AreValues job.now group.now → (s : Slots) → Lasts (GoesOn job.now s) (D.face disk.old) (D.face disk.new) }
    ensures same { D.loans disk.new ≡ D.loans disk.old }
    ensures rose { OnErr result (Rose (D.face disk.old).faults (D.face disk.new).faults) }
    ensures count { IfErr result (λ e. e.faults ≡ (D.face disk.new).faults) }
{
    let size = slot_size(job);
    for member in group {
        let at = start + u64::from(member.range) * size;
        write_gate(disk, job, member.range, &member.verdict, at)?;
    }
    Ok(())
}

/// Writes the bodies of closed slots and makes them safe.
fn keep_bodies<D: Disk>(
    disk: &mut D,
    job: &Job,
    start: u64,
    group: &[Member],
    body: &mut [u8],
) -> Result<(), Failed>
    requires valid { IsJob job.now }
    requires start { start ≡ length (head job.now) }
    requires short { place (head job.now) job.now (ranges job.now) ≤ max_journal_bytes }
    requires body { length body.old ≡ body_size job.now }
    requires group { IsGroup job.now group.now }
    requires shut { (k : ℕ) → k < length group.now → EachImage (D.face disk.old) (Shut job.now (range_of group.now k)) }
    ensures behind { OnOk result ((k : ℕ) → k < length group.now → EachImage (D.face disk.new) (Behind job.now (range_of group.now k) (member_of group.now k))) }
    ensures kept { (s : Slots) → Reads (D.face disk.old) (Stands job.now s) → Reads (D.face disk.new) (Stands job.now s) }
    ensures spares { Spares job.now (D.face disk.old) (D.face disk.new) }
    ensures made { Lasts (Made job.now) (D.face disk.old) (D.face disk.new) }
    ensures goes_on { (s : Slots) → Lasts (GoesOn job.now s) (D.face disk.old) (D.face disk.new) }
    ensures size { length body.new ≡ body_size job.now }
    ensures same { D.loans disk.new ≡ D.loans disk.old }
    ensures rose { OnErr result (Rose (D.face disk.old).faults (D.face disk.new).faults) }
    ensures count { IfErr result (λ e. e.faults ≡ (D.face disk.new).faults) }
{
    write_bodies(disk, job, start, group, body)?;
    settle(disk)
}

/// Opens the gates of slots whose bodies are safe, and makes them safe.
fn keep_gates<D: Disk>(disk: &mut D, job: &Job, start: u64, group: &[Member]) -> Result<(), Failed>
    requires valid { IsJob job.now }
    requires start { start ≡ length (head job.now) }
    requires short { place (head job.now) job.now (ranges job.now) ≤ max_journal_bytes }
    requires group { IsGroup job.now group.now }
    requires behind { (k : ℕ) → k < length group.now → EachImage (D.face disk.old) (Behind job.now (range_of group.now k) (member_of group.now k)) }
    ensures stored { OnOk result ((k : ℕ) → k < length group.now → EachImage (D.face disk.new) (Holds job.now (range_of group.now k) (member_of group.now k))) }
    ensures safe { OnOk result (IsSafe (D.face disk.new)) }
    ensures filled { OnOk result ((s : Slots) → Reads (D.face disk.old) (Stands job.now s) → Reads (D.face disk.new) (Stands job.now (filled s group.now))) }
    ensures partly { (s : Slots) → Reads (D.face disk.old) (Stands job.now s) → Reads (D.face disk.new) (StandsPartly job.now s group.now) }
    ensures spares { Spares job.now (D.face disk.old) (D.face disk.new) }
    ensures made { AreValues job.now group.now → Lasts (Made job.now) (D.face disk.old) (D.face disk.new) }
    ensures goes_on { AreValues job.now group.now → (s : Slots) → Lasts (GoesOn job.now s) (D.face disk.old) (D.face disk.new) }
    ensures same { D.loans disk.new ≡ D.loans disk.old }
    ensures rose { OnErr result (Rose (D.face disk.old).faults (D.face disk.new).faults) }
    ensures count { IfErr result (λ e. e.faults ≡ (D.face disk.new).faults) }
{
    open_gates(disk, job, start, group)?;
    settle(disk)
}

/// Stores a group of verdicts in closed slots: all bodies under one sync, and then all gates under one.
pub fn store_group<D: Disk>(
    disk: &mut D,
    job: &Job,
    start: u64,
    group: &[Member],
    body: &mut [u8],
) -> Result<(), Failed>
    requires valid { IsJob job.now }
    requires start { start ≡ length (head job.now) }
    requires short { place (head job.now) job.now (ranges job.now) ≤ max_journal_bytes }
    requires body { length body.old ≡ body_size job.now }
    requires group { IsGroup job.now group.now }
    requires shut { (k : ℕ) → k < length group.now → EachImage (D.face disk.old) (Shut job.now (range_of group.now k)) }
    ensures stored { OnOk result ((k : ℕ) → k < length group.now → EachImage (D.face disk.new) (Holds job.now (range_of group.now k) (member_of group.now k))) }
    ensures safe { OnOk result (IsSafe (D.face disk.new)) }
    ensures filled { OnOk result ((s : Slots) → Reads (D.face disk.old) (Stands job.now s) → Reads (D.face disk.new) (Stands job.now (filled s group.now))) }
    ensures partly { (s : Slots) → Reads (D.face disk.old) (Stands job.now s) → Reads (D.face disk.new) (StandsPartly job.now s group.now) }
    ensures spares { Spares job.now (D.face disk.old) (D.face disk.new) }
    ensures made { AreValues job.now group.now → Lasts (Made job.now) (D.face disk.old) (D.face disk.new) }
    ensures goes_on { AreValues job.now group.now → (s : Slots) → Lasts (GoesOn job.now s) (D.face disk.old) (D.face disk.new) }
    ensures size { length body.new ≡ body_size job.now }
    ensures same { D.loans disk.new ≡ D.loans disk.old }
    ensures rose { OnErr result (Rose (D.face disk.old).faults (D.face disk.new).faults) }
    ensures count { IfErr result (λ e. e.faults ≡ (D.face disk.new).faults) }
{
    keep_bodies(disk, job, start, group, body)?;
    keep_gates(disk, job, start, group)
}
