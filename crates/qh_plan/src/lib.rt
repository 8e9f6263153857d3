//! Cuts: a plan is refused for its first fault or gives a job, whose paths and ranges are numbered one to one and which
//! one text names; and what a cut circuit means: the paths of a job add up to what it asks.
//!
//! `plan` goes a few times over the gates and the bitstrings and makes the job's text once. All calls of `Job` but
//! `job_text` and all calls of `Sums` take no memory. The crate reads no job's text, and knows nothing of journals or
//! workers. The definitions of parts, path numbers, jobs, refusals, texts and totals stand in `specs/`, and so do those of
//! halves, paths and values; it evaluates no state. The calls of `meaning` do nothing and cost nothing: each has a law as
//! its contract.
#![tactic(auto)]

mod cut;
mod fault;
mod job;
mod laws;
mod meaning;
mod part;
mod paths;
mod planning;
mod same;
mod sums;
mod text;
mod verdict;

pub use cut::check_uncut;
pub use fault::PlanFault;
pub use job::Job;
pub use laws::{one_text_one_job, path_counts_are_powers_of_two};
pub use meaning::{
    one_more_verdict_adds_once, path_is_the_product_of_its_halves, paths_add_up_to_the_uncut_state,
    prefix_is_the_first_digits, range_value_fits, run_answers_what_is_asked,
    run_names_the_least_path_over, tests_are_the_limits, total_depends_on_the_ranges_alone,
    total_is_the_least_path_or_the_sum, total_is_two_parts, total_of_fitting_slots_is_bounded,
};
pub use part::read_part;
pub use planning::{are_bits, plan};
pub use sums::Sums;
pub use verdict::Verdict;
