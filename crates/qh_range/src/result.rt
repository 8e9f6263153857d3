//! What an evaluation answers.
ghost use Rattle.std.specs.Prelude.{◌≡◌, ◌≤◌, ◌<◌};
ghost use Rattle.std.specs.Arc.{arc_value};
ghost use Rattle.qh_limits.specs.Limits.{max_grants};
ghost use Rattle.qh_plan.specs.Jobs.{ranges};
ghost use Rattle.qh_plan.specs.Values.{range_value};
ghost use Rattle.qh_range.specs.Results.{IsResult};

use qh_plan::{Job, Verdict};
use std::marker::Model;
use std::sync::Arc;

/// What a range of a job gives, and in which attempt it was evaluated. `evaluate` alone makes it, so its range is one of
/// its job's and its verdict is that range's value.
#[derive(Drop)]
pub struct RangeResult {
    job: Arc<Job>,
    range: u32,
    attempt: u32,
    verdict: Verdict,
}

impl Model for RangeResult {
    ghost use Rattle.std.specs.Arc.{arc_value};
    ghost use Rattle.qh_range.specs.Results.{RangeResult, IsResult};

    ghost Value = { RangeResult };

    ghost view = { λ r. record { job = arc_value r.job; range = r.range; attempt = r.attempt; verdict = r.verdict } };

    ghost invariant = { λ r. IsResult (record { job = arc_value r.job; range = r.range; attempt = r.attempt; verdict = r.verdict }) };
}

impl RangeResult {
    /// The result of a range whose value is this.
    pub(crate) fn of_value(job: Arc<Job>, range: u32, attempt: u32, verdict: Verdict) -> RangeResult
        requires below { range < ranges (arc_value job) }
        requires few { attempt ≤ max_grants }
        requires value { verdict ≡ range_value (arc_value job) range }
        ensures { result ≡ record { job = arc_value job; range = range; attempt = attempt; verdict = verdict } }
    {
        RangeResult {
            job,
            range,
            attempt,
            verdict,
        }
    }

    /// The job whose range it is.
    pub fn job(&self) -> &Arc<Job>
        ensures value { arc_value result.now ≡ self.now.job }
        ensures valid { IsResult self.now }
    {
        &self.job
    }

    /// The range, below its job's number of ranges.
    pub fn range(&self) -> u32
        ensures value { result ≡ self.now.range }
        ensures below { result < ranges self.now.job }
    {
        self.range
    }

    /// The attempt, 0 to 16.
    pub fn attempt(&self) -> u32
        ensures value { result ≡ self.now.attempt }
        ensures few { result ≤ max_grants }
    {
        self.attempt
    }

    /// The range's value.
    pub fn into_verdict(self) -> Verdict
        ensures verdict { result ≡ self.verdict }
        ensures value { result ≡ range_value self.job self.range }
    {
        self.verdict
    }
}
