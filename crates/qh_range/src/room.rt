//! A room for evaluations.
ghost use Rattle.std.specs.Prelude.{◌≡◌, ◌+◌, ◌<◌, ◌≤◌, IfOk, length, replicate};
ghost use Rattle.std.specs.Arc.{arc_value};

use crate::evaluation::{go_to_root, sum_range};
use crate::result::RangeResult;
use crate::side::{Side, boxed_side};
use crate::ticket::Ticket;
use qh_half::Steps;
use qh_plan::Job;
use qh_prefix::{Checkpoint, Part, make_checkpoint};
use qh_ring::Omega;
use std::alloc::{AllocError, Global};
use std::marker::Model;
use std::sync::Arc;
use std::sync::ledger::Ledger;

/// What the evaluations of a job's ranges need and use one after the other: two halves a part, the gates of the root and
/// the suffix placed in each part, and the asked bitstrings within each part. Contracts see the job.
#[derive(Drop)]
pub struct Room {
    job: Arc<Job>,
    one: Box<Side>,
    two: Box<Side>,
}

impl Model for Room {
    ghost use Rattle.std.specs.Arc.{arc_value};
    ghost use Rattle.qh_plan.specs.Jobs.{Job};
    ghost use Rattle.qh_range.specs.Rooms.{IsRoom};

    ghost Value = { Job };

    ghost view = { λ r. arc_value r.job };

    ghost invariant = { λ r. IsRoom (arc_value r.job) r.one.value r.two.value };
}

impl Room {
    ghost use Rattle.std.specs.Prelude.{◌≡◌, ◌+◌, ◌<◌, ◌≤◌, IfOk, OnErr, length, replicate};
    ghost use Rattle.std.specs.Arc.{arc_value};
    ghost use Rattle.qh_ring.specs.Numbers.{nothing};
    ghost use Rattle.qh_plan.specs.Jobs.{IsJob, ranges};
    ghost use Rattle.qh_plan.specs.Ranges.{prefix_of};
    ghost use Rattle.qh_plan.specs.Values.{range_value};
    ghost use Rattle.qh_range.specs.Steps.{range_steps, whole_steps};

    /// A room for ranges of the job. It takes four halves.
    pub fn new(alloc: Global, job: &Arc<Job>) -> Result<Room, AllocError>
        ensures { IfOk result (λ r. r ≡ arc_value job.now) }
    {
        let one = boxed_side(alloc, job, Part::One)?;
        let two = boxed_side(alloc, job, Part::Two)?;
        let shared = Arc::try_clone(job)?;
        Ok(Room {
            job: shared,
            one,
            two,
        })
    }

    /// A sum of 0 for each asked bitstring.
    pub(crate) fn zeros(&self, alloc: Global) -> Result<Vec<Omega>, AllocError>
        ensures zeros { IfOk result (λ v. v.items ≡ replicate (length self.now.bits) nothing) }
        ensures valid { IsJob self.now }
    {
        vec![in alloc; Omega::ZERO; self.job.bits().len()]
    }

    /// The result of the ticket's range, from memory that is taken.
    pub(crate) fn run<L: Ledger>(
        &mut self,
        job: Arc<Job>,
        zeros: Vec<Omega>,
        ticket: &Ticket,
        point: &Checkpoint,
        steps: &mut Steps<L>,
    ) -> RangeResult
        requires valid { IsJob self.old }
        requires same { arc_value job ≡ self.old }
        requires zeros { zeros.items ≡ replicate (length self.old.bits) nothing }
        requires below { ticket.now.range < ranges self.old }
        requires point_job { point.now.job ≡ self.old }
        requires point_prefix { point.now.prefix ≡ prefix_of self.old ticket.now.range }
        ensures job { result.job ≡ self.old }
        ensures range { result.range ≡ ticket.now.range }
        ensures attempt { result.attempt ≡ ticket.now.attempt }
        ensures value { result.verdict ≡ range_value self.old ticket.now.range }
        ensures room { self.new ≡ self.old }
        ensures steps { steps.new ≤ steps.old + range_steps self.old }
    {
        let range = ticket.range();
        let from = (point.one(), point.two());
        let (one, two) = (&mut *self.one, &mut *self.two);
        go_to_root(&self.job, range, from, one, two, steps);
        let verdict = sum_range(&self.job, range, one, two, zeros, steps);
        RangeResult::of_value(job, range, ticket.attempt(), verdict)
    }

    /// Evaluates the range of a ticket from a checkpoint of the job and of the range's prefix value, as `evaluate` does. It
    /// takes one number a bitstring, and no half.
    pub fn evaluate<L: Ledger>(
        &mut self,
        alloc: Global,
        ticket: &Ticket,
        point: &Checkpoint,
        steps: &mut Steps<L>,
    ) -> Result<RangeResult, AllocError>
        requires below { ticket.now.range < ranges self.old }
        requires point_job { point.now.job ≡ self.old }
        requires point_prefix { point.now.prefix ≡ prefix_of self.old ticket.now.range }
        ensures job { IfOk result (λ r. r.job ≡ self.old) }
        ensures range { IfOk result (λ r. r.range ≡ ticket.now.range) }
        ensures attempt { IfOk result (λ r. r.attempt ≡ ticket.now.attempt) }
        ensures value { IfOk result (λ r. r.verdict ≡ range_value self.old ticket.now.range) }
        ensures room { self.new ≡ self.old }
        ensures steps { steps.new ≤ steps.old + range_steps self.old }
        ensures memory { OnErr result (steps.new ≡ steps.old) }
    {
        let zeros = self.zeros(alloc)?;
        let shared = Arc::try_clone(&self.job)?;
        Ok(self.run(shared, zeros, ticket, point, steps))
    }

    /// Evaluates the range of a ticket from a checkpoint that it makes and gives back. It takes one number a bitstring, and
    /// two halves.
    pub(crate) fn evaluate_alone<L: Ledger>(
        &mut self,
        alloc: Global,
        ticket: &Ticket,
        steps: &mut Steps<L>,
    ) -> Result<RangeResult, AllocError>
        requires { ticket.now.range < ranges self.old }
        ensures job { IfOk result (λ r. r.job ≡ self.old) }
        ensures range { IfOk result (λ r. r.range ≡ ticket.now.range) }
        ensures attempt { IfOk result (λ r. r.attempt ≡ ticket.now.attempt) }
        ensures value { IfOk result (λ r. r.verdict ≡ range_value self.old ticket.now.range) }
        ensures steps { steps.new ≤ steps.old + whole_steps self.old }
        ensures memory { OnErr result (steps.new ≡ steps.old) }
    {
        let zeros = self.zeros(alloc)?;
        let shared = Arc::try_clone(&self.job)?;
        let prefix = self.job.prefix_of(ticket.range());
        let point = make_checkpoint(alloc, &self.job, prefix, steps)?;
        Ok(self.run(shared, zeros, ticket, &point, steps))
    }
}
