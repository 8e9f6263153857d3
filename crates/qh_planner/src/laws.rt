//! What the table and the choice say together, as the contract of a call that does nothing.
ghost use Rattle.qh_planner.specs.Choice.{ChosenIsBest, NoneIsAllowed};

/// The chosen cut is allowed, each allowed consecutive cut costs at least as much, and each that stands before it costs
/// more. Where none is chosen, none is allowed.
pub fn chosen_cut_is_best()
    ensures chosen { ChosenIsBest }
    ensures none { NoneIsAllowed }
{}
