//! The parts of a store: each makes one call of the disk, or is two of them.
ghost use Rattle.std.specs.Prelude.{◌≡◌, ◌≢◌, ◌⊎◌, ◌+◌, ◌^◌, ◌<◌, ◌≤◌, ℕ, OnOk, OnErr, IfErr, Option, Some, None, length, set};
ghost use Rattle.qh_plan.specs.Jobs.{ranges, IsJob};
ghost use Rattle.qh_plan.specs.declared.verdict.Verdict.{Verdict as VerdictValue};
ghost use Rattle.qh_plan.specs.Ranges.{Fits};
ghost use Rattle.qh_plan.specs.Values.{range_value};
ghost use Rattle.qh_limits.specs.Counts.{Rose};
ghost use Rattle.qh_disk.specs.Disk.{IsSafe, Reads};
ghost use Rattle.qh_disk.specs.Moments.{EachImage, Lasts};
ghost use Rattle.qh_slots.specs.Layout.{head, place};
ghost use Rattle.qh_slots.specs.Slots.{spelled};
ghost use Rattle.qh_slots.specs.Stands.{Slots, slot_at, Stands, Made, Holds, Shut, Behind};
ghost use Rattle.qh_slots.specs.Moments.{GoesOn};
ghost use Rattle.qh_parts.specs.Sparing.{Spares};

use crate::reading::settle;
use qh_disk::{Disk, Failed};
use qh_plan::{Job, Verdict};
use qh_slots::MARK;

/// Writes the body of a closed slot.
pub(crate) fn write_body<D: Disk>(
    disk: &mut D,
    job: &Job,
    range: u32,
    verdict: &Verdict,
    at: u64,
    body: &[u8],
) -> Result<(), Failed>
    requires valid { IsJob job.now }
    requires range { range < ranges job.now }
    requires at { at ≡ place (head job.now) job.now range }
    requires room { at < 2 ^ 63 }
    requires body { body.now ≡ spelled job.now verdict.now }
    requires fits { Fits job.now range verdict.now }
    requires shut { EachImage (D.face disk.old) (Shut job.now range) }
    ensures shut { EachImage (D.face disk.new) (Shut job.now range) }
    ensures behind { OnOk result (Reads (D.face disk.new) (Behind job.now range verdict.now)) }
    ensures others_shut { (q : ℕ) → q ≢ range → EachImage (D.face disk.old) (Shut job.now q) → EachImage (D.face disk.new) (Shut job.now q) }
    ensures others_behind { (q : ℕ) (w : VerdictValue) → q ≢ range → Reads (D.face disk.old) (Behind job.now q w) → Reads (D.face disk.new) (Behind job.now q w) }
    ensures kept { (s : Slots) → Reads (D.face disk.old) (Stands job.now s) → Reads (D.face disk.new) (Stands job.now s) }
    ensures spares { Spares job.now (D.face disk.old) (D.face disk.new) }
    ensures made { Lasts (Made job.now) (D.face disk.old) (D.face disk.new) }
    ensures goes_on { (s : Slots) → Lasts (GoesOn job.now s) (D.face disk.old) (D.face disk.new) }
    ensures same { D.loans disk.new ≡ D.loans disk.old }
    ensures rose { OnErr result (Rose (D.face disk.old).faults (D.face disk.new).faults) }
    ensures count { IfErr result (λ e. e.faults ≡ (D.face disk.new).faults) }
{
    disk.write_at(at + 1, body)
}

/// Opens the gate of a slot whose body stands.
pub(crate) fn write_gate<D: Disk>(
    disk: &mut D,
    job: &Job,
    range: u32,
    verdict: &Verdict,
    at: u64,
) -> Result<(), Failed>
    requires valid { IsJob job.now }
    requires range { range < ranges job.now }
    requires at { at ≡ place (head job.now) job.now range }
    requires room { at < 2 ^ 63 }
    requires behind { EachImage (D.face disk.old) (Behind job.now range verdict.now) }
    ensures stored { OnOk result (Reads (D.face disk.new) (Holds job.now range verdict.now)) }
    ensures opened { OnOk result ((s : Slots) → Reads (D.face disk.old) (Stands job.now s) → Reads (D.face disk.new) (Stands job.now (set s range (Some verdict.now)))) }
    ensures others_behind { (q : ℕ) (w : VerdictValue) → q ≢ range → EachImage (D.face disk.old) (Behind job.now q w) → EachImage (D.face disk.new) (Behind job.now q w) }
    ensures held { (q : ℕ) (w : VerdictValue) → Reads (D.face disk.old) (Holds job.now q w) → Reads (D.face disk.new) (Holds job.now q w) }
    ensures either { (s : Slots) → Reads (D.face disk.old) (Stands job.now s) → Reads (D.face disk.new) (λ f. Stands job.now s f ⊎ Stands job.now (set s range (Some verdict.now)) f) }
    ensures spares { Spares job.now (D.face disk.old) (D.face disk.new) }
    ensures made { verdict.now ≡ range_value job.now range → Lasts (Made job.now) (D.face disk.old) (D.face disk.new) }
    ensures goes_on { verdict.now ≡ range_value job.now range → (s : Slots) → Lasts (GoesOn job.now s) (D.face disk.old) (D.face disk.new) }
    ensures same { D.loans disk.new ≡ D.loans disk.old }
    ensures rose { OnErr result (Rose (D.face disk.old).faults (D.face disk.new).faults) }
    ensures count { IfErr result (λ e. e.faults ≡ (D.face disk.new).faults) }
{
    disk.write_at(at, &[MARK])
}

/// Writes the body of a closed slot and makes it safe.
#[tactic(auto, using(crate::proofs::PartLemmas::spares_on, crate::proofs::PartLemmas::spares_looks, crate::proofs::PartLemmas::made_on, crate::proofs::PartLemmas::made_looks, qh_disk::proofs::Looking::looks_reads, qh_disk::proofs::Moments::safe_each))]
fn keep_body<D: Disk>(
    disk: &mut D,
    job: &Job,
    range: u32,
    verdict: &Verdict,
    at: u64,
    body: &[u8],
) -> Result<(), Failed>
    requires valid { IsJob job.now }
    requires range { range < ranges job.now }
    requires at { at ≡ place (head job.now) job.now range }
    requires room { at < 2 ^ 63 }
    requires body { body.now ≡ spelled job.now verdict.now }
    requires fits { Fits job.now range verdict.now }
    requires shut { EachImage (D.face disk.old) (Shut job.now range) }
    ensures behind { OnOk result (EachImage (D.face disk.new) (Behind job.now range verdict.now)) }
    ensures kept { (s : Slots) → Reads (D.face disk.old) (Stands job.now s) → Reads (D.face disk.new) (Stands job.now s) }
    ensures spares { Spares job.now (D.face disk.old) (D.face disk.new) }
    ensures made { Lasts (Made job.now) (D.face disk.old) (D.face disk.new) }
    ensures goes_on { (s : Slots) → Lasts (GoesOn job.now s) (D.face disk.old) (D.face disk.new) }
    ensures same { D.loans disk.new ≡ D.loans disk.old }
    ensures rose { OnErr result (Rose (D.face disk.old).faults (D.face disk.new).faults) }
    ensures count { IfErr result (λ e. e.faults ≡ (D.face disk.new).faults) }
{
    write_body(disk, job, range, verdict, at, body)?;
    settle(disk)
}

/// Opens the gate of a slot whose body is safe, and makes it safe.
#[tactic(auto, using(crate::proofs::PartLemmas::spares_on, crate::proofs::PartLemmas::spares_looks, crate::proofs::PartLemmas::made_on, crate::proofs::PartLemmas::made_looks, qh_disk::proofs::Looking::looks_reads, qh_disk::proofs::Moments::safe_each))]
fn open_gate<D: Disk>(
    disk: &mut D,
    job: &Job,
    range: u32,
    verdict: &Verdict,
    at: u64,
) -> Result<(), Failed>
    requires valid { IsJob job.now }
    requires range { range < ranges job.now }
    requires at { at ≡ place (head job.now) job.now range }
    requires room { at < 2 ^ 63 }
    requires behind { EachImage (D.face disk.old) (Behind job.now range verdict.now) }
    ensures stored { OnOk result (EachImage (D.face disk.new) (Holds job.now range verdict.now)) }
    ensures safe { OnOk result (IsSafe (D.face disk.new)) }
    ensures opened { OnOk result ((s : Slots) → Reads (D.face disk.old) (Stands job.now s) → Reads (D.face disk.new) (Stands job.now (set s range (Some verdict.now)))) }
    ensures either { (s : Slots) → Reads (D.face disk.old) (Stands job.now s) → Reads (D.face disk.new) (λ f. Stands job.now s f ⊎ Stands job.now (set s range (Some verdict.now)) f) }
    ensures spares { Spares job.now (D.face disk.old) (D.face disk.new) }
    ensures made { verdict.now ≡ range_value job.now range → Lasts (Made job.now) (D.face disk.old) (D.face disk.new) }
    ensures goes_on { verdict.now ≡ range_value job.now range → (s : Slots) → Lasts (GoesOn job.now s) (D.face disk.old) (D.face disk.new) }
    ensures same { D.loans disk.new ≡ D.loans disk.old }
    ensures rose { OnErr result (Rose (D.face disk.old).faults (D.face disk.new).faults) }
    ensures count { IfErr result (λ e. e.faults ≡ (D.face disk.new).faults) }
{
    write_gate(disk, job, range, verdict, at)?;
    settle(disk)
}

/// Stores a verdict in a closed slot.
#[tactic(auto, using(crate::proofs::PartLemmas::spares_on, crate::proofs::PartLemmas::made_on))]
pub fn store<D: Disk>(
    disk: &mut D,
    job: &Job,
    range: u32,
    verdict: &Verdict,
    at: u64,
    body: &[u8],
) -> Result<(), Failed>
    requires valid { IsJob job.now }
    requires range { range < ranges job.now }
    requires at { at ≡ place (head job.now) job.now range }
    requires room { at < 2 ^ 63 }
    requires body { body.now ≡ spelled job.now verdict.now }
    requires fits { Fits job.now range verdict.now }
    requires shut { EachImage (D.face disk.old) (Shut job.now range) }
    ensures stored { OnOk result (EachImage (D.face disk.new) (Holds job.now range verdict.now)) }
    ensures safe { OnOk result (IsSafe (D.face disk.new)) }
    ensures opened { OnOk result ((s : Slots) → Reads (D.face disk.old) (Stands job.now s) → Reads (D.face disk.new) (Stands job.now (set s range (Some verdict.now)))) }
    ensures either { (s : Slots) → Reads (D.face disk.old) (Stands job.now s) → Reads (D.face disk.new) (λ f. Stands job.now s f ⊎ Stands job.now (set s range (Some verdict.now)) f) }
    ensures spares { Spares job.now (D.face disk.old) (D.face disk.new) }
    ensures made { verdict.now ≡ range_value job.now range → Lasts (Made job.now) (D.face disk.old) (D.face disk.new) }
    ensures goes_on { verdict.now ≡ range_value job.now range → (s : Slots) → Lasts (GoesOn job.now s) (D.face disk.old) (D.face disk.new) }
    ensures same { D.loans disk.new ≡ D.loans disk.old }
    ensures rose { OnErr result (Rose (D.face disk.old).faults (D.face disk.new).faults) }
    ensures count { IfErr result (λ e. e.faults ≡ (D.face disk.new).faults) }
{
    keep_body(disk, job, range, verdict, at, body)?;
    open_gate(disk, job, range, verdict, at)
}
