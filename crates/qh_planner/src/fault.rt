//! How a refusal of a plan is spelled.
ghost use Rattle.std.specs.Prelude.{◌≡◌};
ghost use Rattle.qh_planner.specs.Spelling.{fault_name, fault_number};

use qh_plan::PlanFault;

/// The name of a refusal, which is that of its variant. It takes no memory.
pub fn fault_name(fault: PlanFault) -> &'static str
    ensures { result.now ≡ fault_name fault }
{
    match fault {
        PlanFault::PartText { .. } => "PartText",
        PlanFault::NoSuchQubit { .. } => "NoSuchQubit",
        PlanFault::QubitTwice { .. } => "QubitTwice",
        PlanFault::EmptyPart => "EmptyPart",
        PlanFault::PartTooWide { .. } => "PartTooWide",
        PlanFault::TooManyCrossing { .. } => "TooManyCrossing",
        PlanFault::TooManyPaths { .. } => "TooManyPaths",
        PlanFault::PrefixRoot { .. } => "PrefixRoot",
        PlanFault::PrefixValue { .. } => "PrefixValue",
        PlanFault::TooManyRanges { .. } => "TooManyRanges",
        PlanFault::JournalTooLong { .. } => "JournalTooLong",
        PlanFault::UncutTooWide { .. } => "UncutTooWide",
        PlanFault::Memory => "Memory",
    }
}

/// The number of a refusal that has one: an item, a qubit or a count, as its variant says. It takes no memory.
pub fn fault_number(fault: PlanFault) -> Option<u64>
    ensures { result ≡ fault_number fault }
{
    match fault {
        PlanFault::PartText { item } => Some(u64::from(item)),
        PlanFault::NoSuchQubit { qubit } => Some(u64::from(qubit)),
        PlanFault::QubitTwice { qubit } => Some(u64::from(qubit)),
        PlanFault::PartTooWide { qubits } => Some(u64::from(qubits)),
        PlanFault::TooManyCrossing { count } => Some(u64::from(count)),
        PlanFault::TooManyPaths { log2 } => Some(u64::from(log2)),
        PlanFault::PrefixRoot { crossing } => Some(u64::from(crossing)),
        PlanFault::PrefixValue { prefixes } => Some(prefixes),
        PlanFault::TooManyRanges { ranges } => Some(ranges),
        PlanFault::JournalTooLong { bytes } => Some(bytes),
        PlanFault::UncutTooWide { qubits } => Some(u64::from(qubits)),
        PlanFault::EmptyPart | PlanFault::Memory => None,
    }
}
