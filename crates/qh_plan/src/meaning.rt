//! Laws between the definitions, each the contract of a call that does nothing.
ghost use Rattle.qh_plan.specs.Laws.{
  ProductLaw,
  PrefixLaw,
  PathSumLaw,
  AreLimits,
  AskedSumLaw,
  LeastOverLaw,
};
ghost use Rattle.qh_plan.specs.Slots.{
  TotalLaw,
  RangeFitsLaw,
  FitLaw,
  BelowLaw,
  PartedLaw,
  FilledLaw,
};

/// Along each path of a job, the number at each of the circuit's indices is the product of two half amplitudes:
/// those of its bits in part 1 and in part 2.
pub fn path_is_the_product_of_its_halves()
    ensures { ProductLaw }
{}

/// The paths under a prefix value, whose sum a job with that value asks for, are those whose first p digits have
/// that value as their number.
pub fn prefix_is_the_first_digits()
    ensures { PrefixLaw }
{}

/// At each index, the numbers of all paths of a job add up to that of the uncut evolution.
pub fn paths_add_up_to_the_uncut_state()
    ensures { PathSumLaw }
{}

/// The tests that say whether a path is over are the limits that the calls on numbers and states keep.
pub fn tests_are_the_limits()
    ensures { AreLimits }
{}

/// Where no path of the run is over, the run answers exactly what is asked, and each sum is within 126 bits:
/// the numbers of the uncut evolution, or with a prefix value the sums over that prefix's paths.
pub fn run_answers_what_is_asked()
    ensures { AskedSumLaw }
{}

/// A run answers sums only where none of its paths is over, and else it names the least that is.
pub fn run_names_the_least_path_over()
    ensures { LeastOverLaw }
{}

/// The total of any slots of a job is over with the least path that one of them names. Where none names a path it is,
/// for each asked index, the sum of their numbers there; a slot without a verdict adds nothing.
pub fn total_is_the_least_path_or_the_sum()
    ensures { TotalLaw }
{}

/// What a range answers may be that of the range: a number for each asked index, each as small as that many paths make
/// it, or a path of the range.
pub fn range_value_fits()
    ensures { RangeFitsLaw }
{}

/// The total of slots each of which may be that of its range is within 126 bits, whoever wrote them, and so is the sum
/// of those below any of them.
pub fn total_of_fitting_slots_is_bounded()
    ensures { FitLaw }
{}

/// The total depends on the slots below the number of ranges alone.
pub fn total_depends_on_the_ranges_alone()
    ensures { BelowLaw }
{}

/// The total is over with the least path that a slot names, and where none does it is what the slots give together.
/// Both are defined apart, so that a run may keep both.
pub fn total_is_two_parts()
    ensures { PartedLaw }
{}

/// A verdict in a slot that had none adds its numbers to what the slots give together, or its path where it is the least.
pub fn one_more_verdict_adds_once()
    ensures { FilledLaw }
{}
