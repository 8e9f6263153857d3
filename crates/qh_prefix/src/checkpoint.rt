//! A checkpoint.
ghost use Rattle.std.specs.Prelude.{◌≡◌, ◌+◌, ◌<◌, ◌≤◌, All, IfOk, OnErr, Some};
ghost use Rattle.std.specs.List.{AllZip};
ghost use Rattle.std.specs.Arc.{arc_value};
ghost use Rattle.qh_ring.specs.States.{listed, ground};
ghost use Rattle.qh_plan.specs.Jobs.{IsJob, prefixes};
ghost use Rattle.qh_prefix.specs.declared.stage.Stage.TheVariants as Stages;
ghost use Rattle.qh_prefix.specs.Stages.{stage_radices, stage_steps};
ghost use Rattle.qh_prefix.specs.Checkpoints.{IsCheckpoint, prefix_digits};
ghost use Rattle.qh_prefix.specs.Starts.{IsStart};

use crate::{Part, Placed, Stage, part_width, place_stage, run_placed};
use arrayvec::ArrayVec;
use qh_half::{Half, Steps};
use qh_plan::Job;
use std::alloc::{AllocError, Global};
use std::marker::Model;
use std::sync::Arc;
use std::sync::ledger::Ledger;

/// The two halves after all gates before crossing gate p of a job, with the terms that a prefix value picks: all paths of
/// that prefix begin with them. A half may be over. Crossing gates are counted from 0; where there is no gate p, these are
/// the halves after all gates.
#[derive(Drop)]
pub struct Checkpoint {
    job: Arc<Job>,
    prefix: u64,
    one: Half,
    two: Half,
}

impl Model for Checkpoint {
    ghost use Rattle.std.specs.Arc.{arc_value};
    ghost use Rattle.qh_prefix.specs.Checkpoints.{Checkpoint, IsCheckpoint};

    ghost Value = { Checkpoint };

    ghost view = { λ c. record { job = arc_value c.job; prefix = c.prefix; one = c.one; two = c.two } };

    ghost invariant = { λ c. IsCheckpoint (record { job = arc_value c.job; prefix = c.prefix; one = c.one; two = c.two }) };
}

/// One part before its first gate: the gates of the prefix that act in it, and its half with all qubits 0.
#[derive(Drop)]
struct Start {
    gates: Vec<Placed>,
    half: Half,
}

fn new_start(alloc: Global, job: &Job, part: Part) -> Result<Start, AllocError>
    ensures { IfOk result (λ s. IsStart part job.now s) }
{
    let gates = place_stage(alloc, job, part, Stage::Prefix)?;
    let half = Half::ground(alloc, part_width(job, part))?;
    Ok(Start { gates, half })
}

/// The digits of a prefix value: for each of the first p crossing gates the term that it picks.
fn prefix_digits(job: &Job, prefix: u64) -> ArrayVec<u8, 32>
    requires { prefix < prefixes job.now }
    ensures value { result.items ≡ prefix_digits job.now prefix }
    ensures below { AllZip (λ d r. d < r) result.items (stage_radices Stages.Prefix job.now) }
    ensures valid { IsJob job.now }
{
    let paths_per_prefix = job.paths() / job.prefixes();
    let mut digits = job.digits(prefix * paths_per_prefix);
    digits.truncate(job.split().0 as usize);
    digits
}

/// The checkpoint of a prefix value. It takes two halves, then goes once over a half for each gate before crossing gate p
/// that acts in that half's part, which is one step. An Err is want of memory.
pub fn make_checkpoint<L: Ledger>(
    alloc: Global,
    job: &Arc<Job>,
    prefix: u64,
    steps: &mut Steps<L>,
) -> Result<Checkpoint, AllocError>
    requires { prefix < prefixes (arc_value job.now) }
    ensures job { IfOk result (λ c. c.job ≡ arc_value job.now) }
    ensures prefix { IfOk result (λ c. c.prefix ≡ prefix) }
    ensures halves { IfOk result (λ c. IsCheckpoint c) }
    ensures steps { steps.new ≤ steps.old + stage_steps Stages.Prefix (arc_value job.now) }
    ensures memory { OnErr result (steps.new ≡ steps.old) }
{
    let mut one = new_start(alloc, job, Part::One)?;
    let mut two = new_start(alloc, job, Part::Two)?;
    let shared = Arc::try_clone(job)?;
    let digits = prefix_digits(job, prefix);
    run_placed(&mut one.half, &one.gates, &digits, steps);
    run_placed(&mut two.half, &two.gates, &digits, steps);
    Ok(Checkpoint {
        job: shared,
        prefix,
        one: one.half,
        two: two.half,
    })
}

impl Checkpoint {
    ghost use Rattle.std.specs.Prelude.{◌≡◌, ◌↔◌, IsTrue};
    ghost use Rattle.qh_prefix.specs.declared.part.Part.TheVariants as Parts;
    ghost use Rattle.qh_prefix.specs.Checkpoints.{IsCheckpoint, IsAtPrefix};

    /// Whether it is the checkpoint of this prefix value of the job.
    pub fn is_for(&self, job: &Job, prefix: u64) -> bool
        ensures { IsTrue result ↔ ((self.now.job ≡ job.now) × (self.now.prefix ≡ prefix)) }
    {
        self.job.same(job) && self.prefix == prefix
    }

    /// The half of part 1.
    pub fn one(&self) -> &Half
        ensures value { result.now ≡ self.now.one }
        ensures holds { IsAtPrefix Parts.One self.now.job self.now.prefix result.now }
    {
        &self.one
    }

    /// The half of part 2.
    pub fn two(&self) -> &Half
        ensures value { result.now ≡ self.now.two }
        ensures holds { IsAtPrefix Parts.Two self.now.job self.now.prefix result.now }
    {
        &self.two
    }

    /// The job, which is shared.
    pub(crate) fn job(&self) -> &Job
        ensures { result.now ≡ self.now.job }
    {
        &self.job
    }

    /// The prefix value.
    pub(crate) fn prefix(&self) -> u64
        ensures { result ≡ self.now.prefix }
    {
        self.prefix
    }
}
