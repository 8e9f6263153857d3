//! The running total.
ghost use Rattle.std.specs.Prelude.{◌≡◌, Some, length, All};
ghost use Rattle.qh_limits.specs.Limits.{coefficient_bits};
ghost use Rattle.qh_ring.specs.Numbers.{IsWithin};
ghost use Rattle.qh_plan.specs.Verdicts.{added};
ghost use Rattle.qh_plan.specs.Slots.{lesser};

use qh_plan::{Job, Verdict};
use qh_ring::{Omega, add_bounded};
use std::alloc::{AllocError, Global};
use std::marker::Model;

/// What the slots of a journal give together: for each asked bitstring the sum of their numbers, and the least path that one of
/// them names. Contracts see the two as one record.
#[derive(Drop)]
pub struct RunningTotal {
    sums: Vec<Omega>,
    over: Option<u64>,
}

impl Model for RunningTotal {
    ghost use Rattle.std.specs.Prelude.{All};
    ghost use Rattle.qh_limits.specs.Limits.{coefficient_bits};
    ghost use Rattle.qh_ring.specs.Numbers.{IsWithin};
    ghost use Rattle.qh_slots.specs.Running.{Running};

    ghost Value = { Running };

    ghost view = { λ t. record { sums = t.sums.items; over = t.over } };

    ghost invariant = { λ t. All (IsWithin coefficient_bits) t.sums.items };
}

impl RunningTotal {
    ghost use Rattle.std.specs.Prelude.{◌≡◌, Some, IfOk, All, set};
    ghost use Rattle.qh_limits.specs.Limits.{coefficient_bits};
    ghost use Rattle.qh_ring.specs.Numbers.{IsWithin};
    ghost use Rattle.qh_slots.specs.Stands.{Slots, nones};
    ghost use Rattle.qh_slots.specs.Running.{IsTotalOf, IsNext, CanAdd};

    /// The total of slots without a verdict.
    pub fn new(alloc: Global, job: &Job) -> Result<RunningTotal, AllocError>
        ensures { IfOk result (IsTotalOf job.now (nones job.now)) }
    {
        let sums = vec![in alloc; Omega::ZERO; job.bits().len()]?;
        Ok(RunningTotal { sums, over: None })
    }

    /// Adds the verdict of a range that had none: its numbers, or its path where that is the least.
    pub fn add(&mut self, job: &Job, range: u32, verdict: &Verdict)
        requires { CanAdd job.now self.old range verdict.now }
        ensures { (s : Slots) → IsTotalOf job.now s self.old → IsNext job.now s range verdict.now
            → IsTotalOf job.now (set s range (Some verdict.now)) self.new }
    {
        prove!(range < job.ranges());
        match verdict {
            Verdict::Sum(more) => add_all(&mut self.sums, more.values()),
            Verdict::Over { path } => self.over = Some(least(self.over, *path)),
        }
    }

    /// For each asked bitstring, in their order, what the slots give it together. A slot that names a path gives nothing.
    pub fn sums(&self) -> &[Omega]
        ensures value { result.now ≡ self.now.sums }
        ensures within { All (IsWithin coefficient_bits) self.now.sums }
    {
        self.sums.as_slice()
    }

    /// The least path that a slot names, if one does.
    pub fn over(&self) -> Option<u64>
        ensures { result ≡ self.now.over }
    {
        self.over
    }
}

/// Adds numbers to sums, place by place.
fn add_all(sums: &mut [Omega], more: &[Omega])
    requires even { length sums.old ≡ length more.now }
    requires sums { All (IsWithin coefficient_bits) sums.old }
    requires more { All (IsWithin coefficient_bits) more.now }
    ensures { sums.new ≡ added sums.old more.now }
{
    for i in 0..sums.len() {
        sums[i] = add_bounded(&sums[i], &more[i]);
    }
}

/// The lesser of a path, if there is one, and another.
fn least(path: Option<u64>, other: u64) -> u64
    ensures { Some result ≡ lesser path (Some other) }
{
    match path {
        None => other,
        Some(path) => path.min(other),
    }
}
