//! Laws between the definitions, each the contract of a call that does nothing.
ghost use Rattle.qh_merge.specs.Laws.{MadeLaw, UncutLaw};

/// Where each verdict of the journals of all prefix values is its range's value, the answer of their union is that of
/// the whole circuit: the lines of the uncut evolution at the asked bitstrings, where no path is over, and else the
/// least path that is.
pub fn merged_journals_give_the_uncut_answer()
    ensures { UncutLaw }
{}

/// A file that the runs of a job made, and that stands for the job, holds for each open slot its range's value.
pub fn made_journals_are_true()
    ensures { MadeLaw }
{}
