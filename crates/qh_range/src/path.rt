//! What one path contributes.
ghost use Rattle.std.specs.Prelude.{◌≡◌, ◌+◌, ◌<◌, ◌≤◌, All, IsSome, Bool, length, map};
ghost use Rattle.std.specs.List.{list_all};
ghost use Rattle.qh_limits.specs.Limits.{coefficient_bits};
ghost use Rattle.qh_ring.specs.Numbers.{IsWithin, product};
ghost use Rattle.qh_plan.specs.Jobs.{IsJob, ranges};
ghost use Rattle.qh_plan.specs.Parts.{local_index};
ghost use Rattle.qh_plan.specs.Verdicts.{added};
ghost use Rattle.qh_plan.specs.Halves.{contribution};
ghost use Rattle.qh_plan.specs.MeaningLimits.{are_narrow, path_fits};
ghost use Rattle.qh_prefix.specs.declared.part.Part.TheVariants as Parts;
ghost use Rattle.qh_prefix.specs.declared.stage.Stage.TheVariants as Stages;
ghost use Rattle.qh_prefix.specs.Stages.{stage_steps};
ghost use Rattle.qh_plan.specs.Ranges.{IsInRange};
ghost use Rattle.qh_range.specs.Sides.{IsSide, IsAtRoot, end_of, number_at};

use crate::side::{Side, is_over, number_at, run_half};
use qh_half::Steps;
use qh_plan::Job;
use qh_prefix::{Stage, stage_digits};
use qh_ring::{Omega, add_bounded, mul_checked};
use std::sync::ledger::Ledger;

/// Adds to each sum the product of the two halves at its bitstring. It is false where one of them is too wide.
fn add_products(sums: &mut [Omega], job: &Job, one: &Side, two: &Side) -> bool
    requires one { IsSide Parts.One job.now one.now }
    requires two { IsSide Parts.Two job.now two.now }
    requires one_held { IsSome (end_of one.now).numbers }
    requires two_held { IsSome (end_of two.now).numbers }
    requires same_length { length sums.old ≡ length job.now.bits }
    requires bounded { All (IsWithin coefficient_bits) sums.old }
    ensures fits { result ≡ list_all (λ b. are_narrow (number_at Parts.One job.now (end_of one.now).numbers b) (number_at Parts.Two job.now (end_of two.now).numbers b)) job.now.bits }
    ensures sums { result ≡ Bool.true → sums.new ≡ added sums.old (map (λ b. product (number_at Parts.One job.now (end_of one.now).numbers b) (number_at Parts.Two job.now (end_of two.now).numbers b)) job.now.bits) }
{
    for i in 0..sums.len() {
        let x = number_at(one, one.indices[i]);
        let y = number_at(two, two.indices[i]);
        let Ok(product) = mul_checked(&x, &y) else {
            return false;
        };
        sums[i] = add_bounded(&sums[i], &product);
    }
    true
}

/// Adds what a path of a range contributes, from the halves at the range's root. It is false where the path is over, and
/// runs part 2 only where part 1 is not over.
pub(crate) fn add_path<L: Ledger>(
    job: &Job,
    range: u32,
    path: u64,
    one: &mut Side,
    two: &mut Side,
    sums: &mut [Omega],
    steps: &mut Steps<L>,
) -> bool
    requires valid { IsJob job.now }
    requires range { range < ranges job.now }
    requires below { IsInRange job.now range path }
    requires one { IsSide Parts.One job.now one.old }
    requires two { IsSide Parts.Two job.now two.old }
    requires one_root { IsAtRoot Parts.One job.now range one.old.root.numbers }
    requires two_root { IsAtRoot Parts.Two job.now range two.old.root.numbers }
    requires same_length { length sums.old ≡ length job.now.bits }
    requires bounded { All (IsWithin coefficient_bits) sums.old }
    ensures fits { result ≡ path_fits job.now path }
    ensures sums { result ≡ Bool.true → sums.new ≡ added sums.old (map (contribution job.now path) job.now.bits) }
    ensures one { IsSide Parts.One job.now one.new }
    ensures two { IsSide Parts.Two job.now two.new }
    ensures one_root { one.new.root ≡ one.old.root }
    ensures two_root { two.new.root ≡ two.old.root }
    ensures steps { steps.new ≤ steps.old + stage_steps Stages.Suffix job.now }
{
    let path_digits = job.digits(path);
    let digits = stage_digits(job, Stage::Suffix, &path_digits);
    run_half(one, digits, steps);
    if is_over(one) {
        return false;
    }
    run_half(two, digits, steps);
    if is_over(two) {
        return false;
    }
    add_products(sums, job, one, two)
}
