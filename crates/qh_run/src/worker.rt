//! What evaluates the ranges of a run.
ghost use Rattle.std.specs.Prelude.{◌≡◌, ◌<◌, IfOk};
ghost use Rattle.std.specs.Arc.{arc_value};
ghost use Rattle.qh_plan.specs.Jobs.{prefixes};

use qh_half::Steps;
use qh_plan::Job;
use qh_prefix::{Checkpoint, PrefixCache, make_checkpoint};
use qh_range::{RangeResult, Room, Ticket};
use std::alloc::{AllocError, Global};
use std::marker::Model;
use std::sync::Arc;
use std::sync::ledger::Ledger;

/// Evaluates the ranges of one job, in one room and from the last checkpoints that it made. Contracts see the job.
#[derive(Drop)]
pub(crate) struct Worker<L: Ledger> {
    alloc: Global,
    job: Arc<Job>,
    room: Room,
    cache: PrefixCache,
    steps: Steps<L>,
}

impl<L: Ledger> Model for Worker<L> {
    ghost use Rattle.std.specs.Arc.{arc_value};
    ghost use Rattle.qh_plan.specs.Jobs.{Job};
    ghost use Rattle.qh_run.specs.Workers.{IsWorker};

    ghost Value = { Job };

    ghost view = { λ w. arc_value w.job };

    ghost invariant = { λ w. IsWorker (arc_value w.job) w.room w.cache };
}

/// The checkpoint of a prefix value of the job: the one that is kept, else a new one, which is then kept. Where memory lacks to keep it, it serves all the same.
fn point_for<L: Ledger>(
    alloc: Global,
    job: &Arc<Job>,
    cache: &mut PrefixCache,
    prefix: u64,
    steps: &mut Steps<L>,
) -> Result<Arc<Checkpoint>, AllocError>
    requires below { prefix < prefixes (arc_value job.now) }
    requires same { cache.old.job ≡ arc_value job.now }
    ensures job { IfOk result (λ p. (arc_value p).job ≡ arc_value job.now) }
    ensures prefix { IfOk result (λ p. (arc_value p).prefix ≡ prefix) }
    ensures cache { cache.new.job ≡ cache.old.job }
{
    if let Some(point) = cache.find(prefix)? {
        return Ok(point);
    }
    let made = Arc::new(alloc, make_checkpoint(alloc, job, prefix, steps)?)?;
    let shared = Arc::try_clone(&made)?;
    let _ = cache.keep(shared);
    Ok(made)
}

impl<L: Ledger> Worker<L> {
    ghost use Rattle.std.specs.Prelude.{◌≡◌, ◌<◌, ◌≤◌, IfOk};
    ghost use Rattle.qh_limits.specs.Limits.{max_ranges};
    ghost use Rattle.std.specs.Arc.{arc_value};
    ghost use Rattle.qh_plan.specs.Jobs.{ranges};
    ghost use Rattle.qh_plan.specs.Values.{range_value};

    /// A worker on the job's ranges. It takes four halves.
    pub(crate) fn new(
        alloc: Global,
        job: &Arc<Job>,
        steps: Steps<L>,
    ) -> Result<Worker<L>, AllocError>
        ensures { IfOk result (λ w. w ≡ arc_value job.now) }
    {
        let room = Room::new(alloc, job)?;
        let cache = PrefixCache::new(alloc, Arc::try_clone(job)?)?;
        let shared = Arc::try_clone(job)?;
        Ok(Worker {
            alloc,
            job: shared,
            room,
            cache,
            steps,
        })
    }

    /// How many ranges the job has.
    pub(crate) fn ranges(&self) -> u32
        ensures value { result ≡ ranges self.now }
        ensures few { result ≤ max_ranges }
    {
        self.job.ranges()
    }

    /// Evaluates the range of a ticket, from the checkpoint of the range's prefix value. It makes the checkpoint where it is not kept, which takes two halves.
    pub(crate) fn compute(&mut self, ticket: &Ticket) -> Result<RangeResult, AllocError>
        requires { ticket.now.range < ranges self.old }
        ensures job { IfOk result (λ r. r.job ≡ self.old) }
        ensures range { IfOk result (λ r. r.range ≡ ticket.now.range) }
        ensures attempt { IfOk result (λ r. r.attempt ≡ ticket.now.attempt) }
        ensures value { IfOk result (λ r. r.verdict ≡ range_value self.old ticket.now.range) }
        ensures same { self.new ≡ self.old }
    {
        prove!(ticket.range() < self.job.ranges());
        let prefix = self.job.prefix_of(ticket.range());
        let point = point_for(
            self.alloc,
            &self.job,
            &mut self.cache,
            prefix,
            &mut self.steps,
        )?;
        self.room
            .evaluate(self.alloc, ticket, &point, &mut self.steps)
    }
}
