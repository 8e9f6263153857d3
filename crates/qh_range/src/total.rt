//! The total of a run.
ghost use Rattle.std.specs.Prelude.{◌≡◌, ◌<◌, ◌+◌, IfOk, IfSome, None, length, All};
ghost use Rattle.std.specs.Arc.{arc_value};
ghost use Rattle.qh_limits.specs.Limits.{coefficient_bits};
ghost use Rattle.qh_ring.specs.Numbers.{IsWithin};
ghost use Rattle.qh_plan.specs.declared.verdict.Verdict.TheVariants.{Sum, Over as OverPath};
ghost use Rattle.qh_plan.specs.Jobs.{IsJob, prefixes, ranges};
ghost use Rattle.qh_plan.specs.Ranges.{prefix_of};
ghost use Rattle.qh_plan.specs.Verdicts.{added};
ghost use Rattle.qh_plan.specs.Values.{run_value};
ghost use Rattle.qh_range.specs.Totals.{total_of};
ghost use Rattle.qh_range.specs.RunTotals.{IsRunTotal};

use crate::{Room, Ticket};
use qh_half::Steps;
use qh_plan::{Job, Verdict};
use qh_prefix::{Checkpoint, make_checkpoint};
use qh_ring::{Omega, add_bounded};
use std::alloc::{AllocError, Global};
use std::sync::Arc;
use std::sync::ledger::Ledger;

/// What the ranges of a run add up to.
#[derive(Drop)]
pub(crate) enum Total {
    /// For each asked bitstring the sum over all paths.
    Sums(Vec<Omega>),
    /// The least path that is over.
    Over(u64),
}

/// Adds numbers to sums, place by place.
fn add_all(sums: &mut [Omega], more: &[Omega])
    requires even { length sums.old ≡ length more.now }
    requires sums { All (IsWithin coefficient_bits) sums.old }
    requires more { All (IsWithin coefficient_bits) more.now }
    ensures { sums.new ≡ added sums.old more.now }
{
    for i in 0..sums.len() {
        sums[i] = add_bounded(&sums[i], &more[i]);
    }
}

/// The checkpoint of a prefix value: this one, where it is of it, or else a new one, once the memory of this one is given
/// back.
fn point_for<L: Ledger>(
    alloc: Global,
    job: &Arc<Job>,
    prefix: u64,
    last: Checkpoint,
    steps: &mut Steps<L>,
) -> Result<Checkpoint, AllocError>
    requires { prefix < prefixes (arc_value job.now) }
    ensures job { IfOk result (λ p. p.job ≡ arc_value job.now) }
    ensures prefix { IfOk result (λ p. p.prefix ≡ prefix) }
{
    if last.is_for(job, prefix) {
        return Ok(last);
    }
    drop(last);
    make_checkpoint(alloc, job, prefix, steps)
}

/// Evaluates a range in the room, from the checkpoint of its prefix value, and adds its sums in place; or tells its least
/// path that is over, and adds nothing.
fn add_range<L: Ledger>(
    alloc: Global,
    job: &Job,
    range: u32,
    room: &mut Room,
    point: &Checkpoint,
    sums: &mut [Omega],
    steps: &mut Steps<L>,
) -> Result<Option<u64>, AllocError>
    requires valid { IsJob job.now }
    requires below { range < ranges job.now }
    requires room { room.old ≡ job.now }
    requires point_job { point.now.job ≡ job.now }
    requires point_prefix { point.now.prefix ≡ prefix_of job.now range }
    requires total { total_of job.now range ≡ Sum sums.old }
    ensures room { room.new ≡ room.old }
    ensures more { IfOk result (λ over. over ≡ None → total_of job.now (range + 1) ≡ Sum sums.new) }
    ensures over { IfOk result (λ over. IfSome over (λ path. run_value job.now ≡ OverPath path)) }
{
    let result = room.evaluate(alloc, &Ticket::new(range, 0), point, steps)?;
    match result.into_verdict() {
        Verdict::Over { path } => Ok(Some(path)),
        Verdict::Sum(more) => {
            add_all(sums, more.values());
            Ok(None)
        }
    }
}

/// Evaluates the ranges in order, in one room and from one checkpoint a prefix value, and adds their sums in place. The
/// first path that is over is the run's least, and what follows it is not evaluated.
fn add_ranges<L: Ledger>(
    alloc: Global,
    job: &Arc<Job>,
    room: &mut Room,
    first: Checkpoint,
    sums: &mut [Omega],
    steps: &mut Steps<L>,
) -> Result<Option<u64>, AllocError>
    requires room { room.old ≡ arc_value job.now }
    requires total { total_of (arc_value job.now) 0 ≡ Sum sums.old }
    ensures whole { IfOk result (λ over. over ≡ None → run_value (arc_value job.now) ≡ Sum sums.new) }
    ensures within { IfOk result (λ over. over ≡ None → All (IsWithin coefficient_bits) sums.new) }
    ensures over { IfOk result (λ over. IfSome over (λ path. run_value (arc_value job.now) ≡ OverPath path)) }
{
    let mut point = first;
    for range in 0..job.ranges() {
        point = point_for(alloc, job, job.prefix_of(range), point, steps)?;
        let over = add_range(alloc, job, range, room, &point, sums, steps)?;
        if over.is_some() {
            return Ok(over);
        }
    }
    Ok(None)
}

/// Adds up all ranges, from sums of 0.
pub(crate) fn run_total<L: Ledger>(
    alloc: Global,
    job: &Arc<Job>,
    steps: &mut Steps<L>,
) -> Result<Total, AllocError>
    ensures { IfOk result (IsRunTotal (arc_value job.now)) }
{
    let mut sums = vec![in alloc; Omega::ZERO; job.bits().len()]?;
    let mut room = Room::new(alloc, job)?;
    let first = make_checkpoint(alloc, job, job.prefix_of(0), steps)?;
    match add_ranges(alloc, job, &mut room, first, &mut sums, steps)? {
        Some(path) => Ok(Total::Over(path)),
        None => Ok(Total::Sums(sums)),
    }
}
