//! A cache of checkpoints.
ghost use Rattle.std.specs.Prelude.{◌≡◌, [], IfOk};
ghost use Rattle.std.specs.Arc.{arc_value};

use crate::checkpoint::Checkpoint;
use lru::LruCache;
use qh_plan::Job;
use std::alloc::{AllocError, Global};
use std::marker::Model;
use std::num::NonZeroUsize;
use std::sync::Arc;

/// At most two checkpoints of one job, each of another prefix value. Contracts see their list, the most recently used first.
#[derive(Drop)]
pub struct PrefixCache {
    job: Arc<Job>,
    points: LruCache<u64, Arc<Checkpoint>>,
}

impl Model for PrefixCache {
    ghost use Rattle.std.specs.Prelude.{map};
    ghost use Rattle.std.specs.Arc.{arc_value};
    ghost use Rattle.qh_prefix.specs.Caches.{Cache, IsKept};

    ghost Value = { Cache };

    ghost view = { λ c. record { job = arc_value c.job; points = map (λ e. arc_value e.1) c.points.entries } };

    ghost invariant = { λ c. IsKept arc_value (arc_value c.job) c.points.cap c.points.entries };
}

impl PrefixCache {
    ghost use Rattle.std.specs.Prelude.{◌≡◌, ◌↔◌, [], IsTrue, IsSome, IfOk, IfSome, OnErr, Ok, true, false, option_map};
    ghost use Rattle.std.specs.Arc.{arc_value};
    ghost use Rattle.qh_prefix.specs.Caches.{held, brought, with_new, IsCache};

    /// A cache of the job's checkpoints that holds none.
    pub fn new(alloc: Global, job: Arc<Job>) -> Result<PrefixCache, AllocError>
        ensures { IfOk result (λ c. c ≡ record { job = arc_value job; points = [] }) }
    {
        let Some(two) = NonZeroUsize::new(2) else {
            unreachable!()
        };
        let points = LruCache::new(alloc, two)?;
        Ok(PrefixCache { job, points })
    }

    /// The checkpoint of a prefix value, which then stands first, or None where it is not held. An Err is want of memory for
    /// sharing it; it stands first all the same.
    pub fn find(&mut self, prefix: u64) -> Result<Option<Arc<Checkpoint>>, AllocError>
        ensures value { IfOk result (λ found. option_map arc_value found ≡ held prefix self.old.points) }
        ensures fits { IfOk result (λ found. IfSome found (λ c. ((arc_value c).job ≡ self.old.job) × ((arc_value c).prefix ≡ prefix))) }
        ensures order { self.new ≡ record self.old { points = brought prefix self.old.points } }
        ensures memory { OnErr result (IsSome (held prefix self.old.points)) }
        ensures valid { IsCache self.new }
    {
        self.points.promote(&prefix);
        let Some(point) = self.points.peek(&prefix) else {
            return Ok(None);
        };
        let shared = Arc::try_clone(point)?;
        Ok(Some(shared))
    }

    /// Keeps a checkpoint as the first, in place of one of the same prefix value or of the last of two. It answers false,
    /// and drops it, exactly where its job is not the cache's. An Err is want of memory, and changes nothing.
    pub fn keep(&mut self, point: Arc<Checkpoint>) -> Result<bool, AllocError>
        ensures same { IfOk result (λ kept. IsTrue kept ↔ ((arc_value point).job ≡ self.old.job)) }
        ensures kept { result ≡ Ok true → self.new ≡ record self.old { points = with_new (arc_value point) self.old.points } }
        ensures refused { result ≡ Ok false → self.new ≡ self.old }
        ensures memory { OnErr result (self.new ≡ self.old) }
        ensures valid { IsCache self.new }
    {
        if !point.job().same(&self.job) {
            return Ok(false);
        }
        let prefix = point.prefix();
        let Ok(_) = self.points.put(prefix, point) else {
            return Err(AllocError);
        };
        Ok(true)
    }
}
