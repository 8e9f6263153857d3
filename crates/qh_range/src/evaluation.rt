//! The value of a range.
ghost use Rattle.std.specs.Prelude.{◌≡◌, ◌+◌, ◌*◌, ◌<◌, ◌≤◌, IfOk, IfSome, IsSome, OnErr, length, replicate};
ghost use Rattle.std.specs.Arc.{arc_value};
ghost use Rattle.qh_ring.specs.Numbers.{nothing};
ghost use Rattle.qh_plan.specs.Jobs.{IsJob, ranges, per_range};
ghost use Rattle.qh_plan.specs.Ranges.{prefix_of};
ghost use Rattle.qh_plan.specs.Values.{range_value};
ghost use Rattle.qh_prefix.specs.declared.part.Part.TheVariants as Parts;
ghost use Rattle.qh_prefix.specs.declared.stage.Stage.TheVariants as Stages;
ghost use Rattle.qh_prefix.specs.Stages.{stage_steps};
ghost use Rattle.qh_prefix.specs.Checkpoints.{IsAtPrefix};
ghost use Rattle.qh_range.specs.Sides.{IsSide, IsAtRoot};
ghost use Rattle.qh_range.specs.Steps.{range_steps, whole_steps};

use crate::path::add_path;
use crate::result::RangeResult;
use crate::room::Room;
use crate::side::{Side, run_root};
use crate::ticket::Ticket;
use qh_half::{Half, Steps};
use qh_plan::{Job, Sums, Verdict};
use qh_prefix::{Checkpoint, Stage, stage_digits};
use qh_ring::Omega;
use std::alloc::{AllocError, Global};
use std::sync::Arc;
use std::sync::ledger::Ledger;

/// Brings both parts to the root of the range, from the halves at its prefix.
pub(crate) fn go_to_root<L: Ledger>(
    job: &Job,
    range: u32,
    from: (&Half, &Half),
    one: &mut Side,
    two: &mut Side,
    steps: &mut Steps<L>,
)
    requires valid { IsJob job.now }
    requires below { range < ranges job.now }
    requires one { IsSide Parts.One job.now one.old }
    requires two { IsSide Parts.Two job.now two.old }
    requires one_from { IsAtPrefix Parts.One job.now (prefix_of job.now range) from.0.now }
    requires two_from { IsAtPrefix Parts.Two job.now (prefix_of job.now range) from.1.now }
    ensures one { IsSide Parts.One job.now one.new }
    ensures two { IsSide Parts.Two job.now two.new }
    ensures one_root { IsAtRoot Parts.One job.now range one.new.root.numbers }
    ensures two_root { IsAtRoot Parts.Two job.now range two.new.root.numbers }
    ensures steps { steps.new ≡ steps.old + stage_steps Stages.Root job.now }
{
    let path_digits = job.digits(job.first_path(range));
    let digits = stage_digits(job, Stage::Root, &path_digits);
    run_root(one, from.0, digits, steps);
    run_root(two, from.1, digits, steps);
}

/// Adds what the paths of the range contribute, from sums that are 0, up to the first that is over.
pub(crate) fn sum_range<L: Ledger>(
    job: &Job,
    range: u32,
    one: &mut Side,
    two: &mut Side,
    zeros: Vec<Omega>,
    steps: &mut Steps<L>,
) -> Verdict
    requires valid { IsJob job.now }
    requires below { range < ranges job.now }
    requires one { IsSide Parts.One job.now one.old }
    requires two { IsSide Parts.Two job.now two.old }
    requires one_root { IsAtRoot Parts.One job.now range one.old.root.numbers }
    requires two_root { IsAtRoot Parts.Two job.now range two.old.root.numbers }
    requires zeros { zeros.items ≡ replicate (length job.now.bits) nothing }
    ensures value { result ≡ range_value job.now range }
    ensures one { IsSide Parts.One job.now one.new }
    ensures two { IsSide Parts.Two job.now two.new }
    ensures steps { steps.new ≤ steps.old + per_range job.now * stage_steps Stages.Suffix job.now }
{
    let first = job.first_path(range);
    let mut sums = zeros;
    for k in 0..job.per_range() {
        if !add_path(job, range, first + k, one, two, &mut sums, steps) {
            return Verdict::Over { path: first + k };
        }
    }
    Verdict::Sum(Sums::of(sums))
}

/// Evaluates the range of a ticket: for each asked bitstring the sum over its paths of the product of the two half
/// amplitudes, or the least of its paths that is over. A path is over where a coefficient in one of its halves comes to
/// a magnitude of 2^126, or one of the sixteen products of the coefficients of two half amplitudes to 2^92.
///
/// It makes a room for itself: before the first path it takes its memory, four halves among it, or six where no checkpoint
/// is given. A given checkpoint is of the job and of the range's prefix value. From it the range costs the gates of the root
/// once and those of the suffix for each path, one step, which goes once over a half, for each part that a gate acts in;
/// without one the gates of the prefix too.
pub fn evaluate<L: Ledger>(
    alloc: Global,
    job: &Arc<Job>,
    ticket: &Ticket,
    point: Option<&Checkpoint>,
    steps: &mut Steps<L>,
) -> Result<RangeResult, AllocError>
    requires below { ticket.now.range < ranges (arc_value job.now) }
    requires point_job { IfSome point (λ p. p.now.job ≡ arc_value job.now) }
    requires point_prefix { IfSome point (λ p. p.now.prefix ≡ prefix_of (arc_value job.now) ticket.now.range) }
    ensures job { IfOk result (λ r. r.job ≡ arc_value job.now) }
    ensures range { IfOk result (λ r. r.range ≡ ticket.now.range) }
    ensures attempt { IfOk result (λ r. r.attempt ≡ ticket.now.attempt) }
    ensures value { IfOk result (λ r. r.verdict ≡ range_value (arc_value job.now) ticket.now.range) }
    ensures steps { IsSome point.entry → steps.new ≤ steps.old + range_steps (arc_value job.now) }
    ensures steps_without { steps.new ≤ steps.old + whole_steps (arc_value job.now) }
    ensures memory { OnErr result (steps.new ≡ steps.old) }
{
    let mut room = Room::new(alloc, job)?;
    match point {
        Some(point) => room.evaluate(alloc, ticket, point, steps),
        None => room.evaluate_alone(alloc, ticket, steps),
    }
}
