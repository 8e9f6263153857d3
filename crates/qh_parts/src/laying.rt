//! How a journal is made on an empty file.
ghost use Rattle.std.specs.Prelude.{◌≡◌, ◌<◌, ◌≤◌, ◌∷◌, ℕ, List, [], Some, OnOk, OnErr, IfErr, length, set};
ghost use Rattle.qh_limits.specs.Counts.{Rose};
ghost use Rattle.qh_plan.specs.Jobs.{ranges};
ghost use Rattle.qh_plan.specs.Ranges.{Fits};
ghost use Rattle.qh_disk.specs.Disk.{IsSafe, Reads};
ghost use Rattle.qh_disk.specs.Moments.{Runs};
ghost use Rattle.qh_slots.specs.Layout.{head, mark, place};
ghost use Rattle.qh_slots.specs.Slots.{spelled};
ghost use Rattle.qh_slots.specs.Stands.{Slots, Stands, nones};
ghost use Rattle.qh_parts.specs.Laying.{Creates, IsBlank, IsFresh, IsLaid, IsUnbegun, StaysClosed};

use crate::reading::settle;
use qh_disk::{Disk, Failed};
use qh_plan::{Job, Verdict};
use qh_slots::MARK;

/// Gives an empty file its length.
fn set_length<D: Disk>(disk: &mut D, size: u64) -> Result<(), Failed>
    requires empty { Reads (D.face disk.old) (λ f. f ≡ []) }
    ensures blank { OnOk result (Reads (D.face disk.new) (IsBlank size)) }
    ensures zeros { Reads (D.face disk.new) (λ f. IsBlank (length f) f) }
    ensures closed { StaysClosed (D.face disk.old) (D.face disk.new) }
    ensures same { D.loans disk.new ≡ D.loans disk.old }
    ensures rose { OnErr result (Rose (D.face disk.old).faults (D.face disk.new).faults) }
    ensures count { IfErr result (λ e. e.faults ≡ (D.face disk.new).faults) }
{
    disk.set_len(size)
}

/// Gives an empty file its length, and makes that safe.
#[tactic(auto, using(qh_disk::proofs::Looking::looks_reads))]
pub fn lengthen<D: Disk>(disk: &mut D, size: u64) -> Result<(), Failed>
    requires empty { Reads (D.face disk.old) (λ f. f ≡ []) }
    ensures blank { OnOk result (Reads (D.face disk.new) (IsBlank size)) }
    ensures zeros { Reads (D.face disk.new) (λ f. IsBlank (length f) f) }
    ensures closed { StaysClosed (D.face disk.old) (D.face disk.new) }
    ensures same { D.loans disk.new ≡ D.loans disk.old }
    ensures rose { OnErr result (Rose (D.face disk.old).faults (D.face disk.new).faults) }
    ensures count { IfErr result (λ e. e.faults ≡ (D.face disk.new).faults) }
{
    set_length(disk, size)?;
    settle(disk)
}

/// Writes the head but for its first byte.
pub fn write_rest<D: Disk>(disk: &mut D, job: &Job, wanted: &[u8]) -> Result<(), Failed>
    requires wanted { wanted.now ≡ head job.now }
    requires long { 1 ≤ length wanted.now }
    requires blank { Reads (D.face disk.old) (IsBlank (place (head job.now) job.now (ranges job.now))) }
    ensures laid { OnOk result (Reads (D.face disk.new) (IsLaid job.now (nones job.now))) }
    ensures unbegun { Reads (D.face disk.new) (λ f. IsUnbegun f) }
    ensures closed { StaysClosed (D.face disk.old) (D.face disk.new) }
    ensures same { D.loans disk.new ≡ D.loans disk.old }
    ensures rose { OnErr result (Rose (D.face disk.old).faults (D.face disk.new).faults) }
    ensures count { IfErr result (λ e. e.faults ≡ (D.face disk.new).faults) }
{
    disk.write_at(1, &wanted[1..])
}

/// Writes a whole slot, its gate open, while the header is closed.
pub fn write_slot<D: Disk>(
    disk: &mut D,
    job: &Job,
    range: u32,
    verdict: &Verdict,
    at: u64,
    slot: &[u8],
) -> Result<(), Failed>
    requires range { range < ranges job.now }
    requires at { at ≡ place (head job.now) job.now range }
    requires slot { slot.now ≡ mark ∷ spelled job.now verdict.now }
    requires fits { Fits job.now range verdict.now }
    requires size { Reads (D.face disk.old) (λ f. length f ≡ place (head job.now) job.now (ranges job.now)) }
    ensures laid { OnOk result ((s : Slots) → Reads (D.face disk.old) (IsLaid job.now s) → Reads (D.face disk.new) (IsLaid job.now (set s range (Some verdict.now)))) }
    ensures unbegun { Reads (D.face disk.old) (λ f. IsUnbegun f) → Reads (D.face disk.new) (λ f. IsUnbegun f) }
    ensures closed { StaysClosed (D.face disk.old) (D.face disk.new) }
    ensures same { D.loans disk.new ≡ D.loans disk.old }
    ensures rose { OnErr result (Rose (D.face disk.old).faults (D.face disk.new).faults) }
    ensures count { IfErr result (λ e. e.faults ≡ (D.face disk.new).faults) }
{
    disk.write_at(at, slot)
}

/// Opens the header of a journal that is laid.
fn write_mark<D: Disk>(disk: &mut D, job: &Job) -> Result<(), Failed>
    requires safe { IsSafe (D.face disk.old) }
    requires some { Reads (D.face disk.old) (λ f. 1 ≤ length f) }
    ensures stands { OnOk result ((s : Slots) → Reads (D.face disk.old) (IsLaid job.now s) → Reads (D.face disk.new) (Stands job.now s)) }
    ensures fresh { (s : Slots) → Reads (D.face disk.old) (IsLaid job.now s) → Reads (D.face disk.new) (IsFresh job.now s) }
    ensures creates { (s : Slots) → Reads (D.face disk.old) (IsLaid job.now s) → Creates job.now s (D.face disk.old) (D.face disk.new) }
    ensures runs { Runs (D.face disk.old) (D.face disk.new) }
    ensures same { D.loans disk.new ≡ D.loans disk.old }
    ensures rose { OnErr result (Rose (D.face disk.old).faults (D.face disk.new).faults) }
    ensures count { IfErr result (λ e. e.faults ≡ (D.face disk.new).faults) }
{
    disk.write_at(0, &[MARK])
}

/// Opens the header of a journal that is laid, and makes that safe.
#[tactic(auto, using(qh_disk::proofs::Looking::looks_reads))]
fn lay_mark<D: Disk>(disk: &mut D, job: &Job) -> Result<(), Failed>
    requires safe { IsSafe (D.face disk.old) }
    requires some { Reads (D.face disk.old) (λ f. 1 ≤ length f) }
    ensures stands { OnOk result ((s : Slots) → Reads (D.face disk.old) (IsLaid job.now s) → Reads (D.face disk.new) (Stands job.now s)) }
    ensures safe { OnOk result (IsSafe (D.face disk.new)) }
    ensures fresh { (s : Slots) → Reads (D.face disk.old) (IsLaid job.now s) → Reads (D.face disk.new) (IsFresh job.now s) }
    ensures creates { (s : Slots) → Reads (D.face disk.old) (IsLaid job.now s) → Creates job.now s (D.face disk.old) (D.face disk.new) }
    ensures runs { Runs (D.face disk.old) (D.face disk.new) }
    ensures same { D.loans disk.new ≡ D.loans disk.old }
    ensures rose { OnErr result (Rose (D.face disk.old).faults (D.face disk.new).faults) }
    ensures count { IfErr result (λ e. e.faults ≡ (D.face disk.new).faults) }
{
    write_mark(disk, job)?;
    settle(disk)
}

/// Makes what is laid safe, and then opens the header and makes that safe.
#[tactic(auto, using(qh_disk::proofs::Looking::looks_reads))]
pub fn begin<D: Disk>(disk: &mut D, job: &Job) -> Result<(), Failed>
    requires some { Reads (D.face disk.old) (λ f. 1 ≤ length f) }
    ensures stands { OnOk result ((s : Slots) → Reads (D.face disk.old) (IsLaid job.now s) → Reads (D.face disk.new) (Stands job.now s)) }
    ensures safe { OnOk result (IsSafe (D.face disk.new)) }
    ensures fresh { (s : Slots) → Reads (D.face disk.old) (IsLaid job.now s) → Reads (D.face disk.new) (IsFresh job.now s) }
    ensures creates { (s : Slots) → Reads (D.face disk.old) (IsLaid job.now s) → Creates job.now s (D.face disk.old) (D.face disk.new) }
    ensures runs { Runs (D.face disk.old) (D.face disk.new) }
    ensures same { D.loans disk.new ≡ D.loans disk.old }
    ensures rose { OnErr result (Rose (D.face disk.old).faults (D.face disk.new).faults) }
    ensures count { IfErr result (λ e. e.faults ≡ (D.face disk.new).faults) }
{
    settle(disk)?;
    lay_mark(disk, job)
}

/// Gives an empty file the length of a journal, makes that safe, and writes the head but for its first byte.
pub fn lay<D: Disk>(disk: &mut D, job: &Job, wanted: &[u8], size: u64) -> Result<(), Failed>
    requires wanted { wanted.now ≡ head job.now }
    requires long { 1 ≤ length wanted.now }
    requires size { size ≡ place (head job.now) job.now (ranges job.now) }
    requires empty { Reads (D.face disk.old) (λ f. f ≡ []) }
    ensures laid { OnOk result (Reads (D.face disk.new) (IsLaid job.now (nones job.now))) }
    ensures unbegun { Reads (D.face disk.new) (λ f. IsUnbegun f) }
    ensures closed { StaysClosed (D.face disk.old) (D.face disk.new) }
    ensures same { D.loans disk.new ≡ D.loans disk.old }
    ensures rose { OnErr result (Rose (D.face disk.old).faults (D.face disk.new).faults) }
    ensures count { IfErr result (λ e. e.faults ≡ (D.face disk.new).faults) }
{
    lengthen(disk, size)?;
    write_rest(disk, job, wanted)
}

/// Makes a journal with no open slot on an empty file.
pub fn lay_all<D: Disk>(disk: &mut D, job: &Job, wanted: &[u8], size: u64) -> Result<(), Failed>
    requires wanted { wanted.now ≡ head job.now }
    requires long { 1 ≤ length wanted.now }
    requires size { size ≡ place (head job.now) job.now (ranges job.now) }
    requires empty { Reads (D.face disk.old) (λ f. f ≡ []) }
    ensures stands { OnOk result (Reads (D.face disk.new) (Stands job.now (nones job.now))) }
    ensures safe { OnOk result (IsSafe (D.face disk.new)) }
    ensures fresh { Reads (D.face disk.new) (IsFresh job.now (nones job.now)) }
    ensures creates { Creates job.now (nones job.now) (D.face disk.old) (D.face disk.new) }
    ensures same { D.loans disk.new ≡ D.loans disk.old }
    ensures rose { OnErr result (Rose (D.face disk.old).faults (D.face disk.new).faults) }
    ensures count { IfErr result (λ e. e.faults ≡ (D.face disk.new).faults) }
{
    lay(disk, job, wanted, size)?;
    begin(disk, job)
}
