//! What the inputs that are taken give together.
ghost use Rattle.std.specs.Prelude.{◌≡◌, ◌≢◌, ◌<◌, ◌≤◌, ◌^◌, [], ℕ, List, Some, None, OnOk, IfOk, IfSome, IfNone, All, length, slice_index, take, replicate};
ghost use Rattle.qh_limits.specs.Limits.{coefficient_bits};
ghost use Rattle.qh_ring.specs.declared.number.Omega.{Omega as OmegaValue};
ghost use Rattle.qh_ring.specs.Numbers.{IsWithin, nothing};
ghost use Rattle.qh_plan.specs.declared.verdict.Verdict.TheVariants.{Sum};
ghost use Rattle.qh_slots.specs.Stands.{slot_at};
ghost use Rattle.qh_merge.specs.Union.{sums_after};
ghost use Rattle.qh_merge.specs.Gathered.{Adds, IsKept, Lists, state_of};

use crate::slots::add_table;
use qh_plan::{Job, Verdict};
use qh_ring::Omega;
use std::alloc::{AllocError, Global};

/// The job of the first input, the prefix value of each input, and what the slots of the first input of each prefix
/// value give together: for each asked bitstring the sum of their numbers, and the least path that one of them names.
#[derive(Drop)]
pub(crate) struct Gathered {
    pub(crate) job: Job,
    pub(crate) prefixes: Vec<u32>,
    pub(crate) sums: Vec<Omega>,
    pub(crate) over: Option<u64>,
}

/// No input of this job's family.
pub(crate) fn start(alloc: Global, job: Job) -> Result<Gathered, AllocError>
    ensures { IfOk result (λ g. state_of g ≡ record { job = job; prefixes = []; sums = replicate (length job.bits) nothing; over = None }) }
{
    let sums = vec![in alloc; Omega::ZERO; job.bits().len()]?;
    Ok(Gathered {
        job,
        prefixes: Vec::new(alloc),
        sums,
        over: None,
    })
}

/// Takes an input with a new prefix value. It first takes the memory for the prefix value.
pub(crate) fn add_new(
    gathered: &mut Gathered,
    prefix: u32,
    table: &[Option<Verdict>],
) -> Result<(), AllocError>
    requires even { (r : ℕ) (more : List OmegaValue) → slot_at table.now r ≡ Some (Sum more) → length gathered.old.sums.items ≡ length more }
    requires within { (n : ℕ) → n ≤ length table.now → All (IsWithin coefficient_bits) (sums_after gathered.old.sums.items (take n table.now)) }
    ensures { OnOk result (Adds (state_of gathered.old) prefix table.now (state_of gathered.new)) }
{
    gathered.prefixes.push(prefix)?;
    gathered.over = add_table(gathered.sums.as_mut_slice(), gathered.over, table);
    Ok(())
}

/// Takes an input whose prefix value an earlier one has.
pub(crate) fn list(gathered: &mut Gathered, prefix: u32) -> Result<(), AllocError>
    ensures { OnOk result (Lists (state_of gathered.old) prefix (state_of gathered.new)) }
{
    gathered.prefixes.push(prefix)?;
    Ok(())
}

/// The place of the first input with this prefix value.
pub(crate) fn place_of(prefixes: &[u32], prefix: u32) -> Option<usize>
    ensures inside { IfSome result (λ k. k < length prefixes.now) }
    ensures is { IfSome result (λ k. slice_index prefixes.now k ≡ prefix) }
    ensures first { IfSome result (λ k. (q : ℕ) → q < k → slice_index prefixes.now q ≢ prefix) }
    ensures none { IfNone result ((q : ℕ) → q < length prefixes.now → slice_index prefixes.now q ≢ prefix) }
{
    for k in 0..prefixes.len() {
        if prefixes[k] == prefix {
            return Some(k);
        }
    }
    None
}

/// The least prefix value below `count` that is not among these.
pub(crate) fn first_missing(prefixes: &[u32], count: u64) -> Option<u64>
    requires { count ≤ 2 ^ 32 }
    ensures inside { IfSome result (λ w. w < count) }
    ensures missing { IfSome result (λ w. (q : ℕ) → q < length prefixes.now → slice_index prefixes.now q ≢ w) }
    ensures least { IfSome result (λ w. (v : ℕ) → v < w → IsKept v prefixes.now) }
    ensures complete { IfNone result ((v : ℕ) → v < count → IsKept v prefixes.now) }
{
    for w in 0..count {
        let Some(_) = place_of(prefixes, w as u32) else {
            return Some(w);
        };
    }
    None
}
