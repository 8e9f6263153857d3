//! Laws between the definitions, each the contract of a call that does nothing.
ghost use Rattle.qh_slots.specs.Laws.{AttachesLaw, AttachesLaw1, ClosedLaw, ClosedLaw1, OneMapLaw, OneMapLaw1, OneOwnerLaw};

/// A file stands for a job with one list of slots at most, in either format.
pub fn one_map()
    ensures format_2 { OneMapLaw }
    ensures format_1 { OneMapLaw1 }
{}

/// Nothing refuses a file exactly where it stands for the job with some slots, in either format.
pub fn attaches()
    ensures format_2 { AttachesLaw }
    ensures format_1 { AttachesLaw1 }
{}

/// A file stands for one job at most.
pub fn one_owner()
    ensures { OneOwnerLaw }
{}

/// A file whose header is closed has no slot, in either format.
pub fn closed_has_none()
    ensures format_2 { ClosedLaw }
    ensures format_1 { ClosedLaw1 }
{}
