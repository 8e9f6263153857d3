//! Checkpoints from the cache that workers share.
ghost use Rattle.std.specs.Prelude.{◌≡◌, ◌+◌, ◌<◌, ◌≤◌, IfOk, IfSome};
ghost use Rattle.std.specs.Arc.{arc_value};
ghost use Rattle.qh_plan.specs.Jobs.{IsJob, prefixes, ranges};
ghost use Rattle.qh_plan.specs.Ranges.{prefix_of};

use qh_half::Steps;
use qh_plan::Job;
use qh_prefix::{Checkpoint, PrefixCache, make_checkpoint};
use std::alloc::{AllocError, Global};
use std::sync::ledger::Ledger;
use std::sync::{Arc, Mutex, Wait};

/// The prefix value of a range.
pub fn prefix_at(job: &Job, range: u32) -> u64
    requires { range < ranges job.now }
    ensures value { result ≡ prefix_of job.now range }
    ensures below { result < prefixes job.now }
{
    let _paths = job.paths();
    job.prefix_of(range)
}

/// The checkpoint of a prefix value of the job, where the cache holds it. What the cache holds is known by its type alone,
/// so one of another job is passed over.
fn find_point<R: Wait>(
    rt: &R,
    cache: &Mutex<PrefixCache>,
    job: &Job,
    prefix: u64,
) -> Result<Option<Arc<Checkpoint>>, AllocError>
    ensures { IfOk result (λ found. IfSome found (λ p. ((arc_value p).job ≡ job.now) × ((arc_value p).prefix ≡ prefix))) }
{
    let found = cache.lock(rt).find(prefix)?;
    let Some(point) = found else {
        return Ok(None);
    };
    if point.is_for(job, prefix) {
        Ok(Some(point))
    } else {
        Ok(None)
    }
}

/// A new checkpoint, which the cache keeps where it can. No lock is held while it is made.
fn make_point<R: Wait, L: Ledger>(
    rt: &R,
    alloc: Global,
    cache: &Mutex<PrefixCache>,
    job: &Arc<Job>,
    prefix: u64,
    steps: &mut Steps<L>,
) -> Result<Arc<Checkpoint>, AllocError>
    requires { prefix < prefixes (arc_value job.now) }
    ensures job { IfOk result (λ p. (arc_value p).job ≡ arc_value job.now) }
    ensures prefix { IfOk result (λ p. (arc_value p).prefix ≡ prefix) }
{
    let point = Arc::new(alloc, make_checkpoint(alloc, job, prefix, steps)?)?;
    if let Ok(shared) = Arc::try_clone(&point) {
        let _ = cache.lock(rt).keep(shared);
    }
    Ok(point)
}

/// The checkpoint of a prefix value: the one in the cache, or else a new one.
pub fn shared_point<R: Wait, L: Ledger>(
    rt: &R,
    alloc: Global,
    cache: &Mutex<PrefixCache>,
    job: &Arc<Job>,
    prefix: u64,
    steps: &mut Steps<L>,
) -> Result<Arc<Checkpoint>, AllocError>
    requires { prefix < prefixes (arc_value job.now) }
    ensures job { IfOk result (λ p. (arc_value p).job ≡ arc_value job.now) }
    ensures prefix { IfOk result (λ p. (arc_value p).prefix ≡ prefix) }
{
    if let Some(point) = find_point(rt, cache, job, prefix)? {
        return Ok(point);
    }
    make_point(rt, alloc, cache, job, prefix, steps)
}
