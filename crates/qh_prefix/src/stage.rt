//! The stages of a path.
ghost use Rattle.std.specs.Prelude.{◌≡◌, ◌<◌, ◌≤◌, All, length};
ghost use Rattle.std.specs.List.{AllZip};
ghost use Rattle.qh_gates.specs.Circuits.{Fits};
ghost use Rattle.qh_plan.specs.Jobs.{IsJob, in_one, job_radices};
ghost use Rattle.qh_prefix.specs.Stages.{gates_before, stage_gates, stretch};

use qh_gates::Gate;
use qh_plan::Job;

/// A stage of a path, each a stretch of the circuit's gates. Crossing gates are counted from 0 in the order of the circuit.
#[derive(Clone, Copy, PartialEq, Eq, Debug)]
pub enum Stage {
    /// The gates before crossing gate p, or all where there is none.
    Prefix,
    /// From crossing gate p to before crossing gate p + r.
    Root,
    /// From crossing gate p + r on.
    Suffix,
}

/// How many of the gates stand before crossing gate `number`: all where there is no such gate.
fn gates_before(job: &Job, gates: &[Gate], number: u32) -> usize
    ensures value { result ≡ gates_before (in_one job.now) number gates.now }
    ensures within { result ≤ length gates.now }
{
    let mut left = number;
    for (place, gate) in gates.iter().enumerate() {
        if job.in_one(gate.q0) != job.in_one(gate.q1) {
            if left == 0 {
                return place;
            }
            left -= 1;
        }
    }
    gates.len()
}

/// The circuit's gates in the stage, in their order.
pub(crate) fn stage_gates(job: &Job, stage: Stage) -> &[Gate]
    ensures value { result.now ≡ stage_gates stage job.now }
    ensures fit { All (Fits job.now.circuit.qubits) result.now }
{
    let (p, r) = job.split();
    let gates = job.circuit().gates();
    let root = gates_before(job, gates, p);
    let rest = &gates[root..];
    let suffix = gates_before(job, rest, r);
    match stage {
        Stage::Prefix => &gates[..root],
        Stage::Root => &rest[..suffix],
        Stage::Suffix => &rest[suffix..],
    }
}

/// Of the digits of a path, those of the crossing gates in the stage.
pub fn stage_digits<'a>(job: &Job, stage: Stage, digits: &'a [u8]) -> &'a [u8]
    requires valid { IsJob job.now }
    requires path { AllZip (λ d r. d < r) digits.now (job_radices job.now) }
    ensures { result.now ≡ stretch stage job.now digits.now }
{
    let (p, r) = job.split();
    let rest = &digits[p as usize..];
    match stage {
        Stage::Prefix => &digits[..p as usize],
        Stage::Root => &rest[..r as usize],
        Stage::Suffix => &rest[r as usize..],
    }
}
