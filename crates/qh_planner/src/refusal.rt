//! The first refusal of a cut by its counts.
ghost use Rattle.std.specs.Prelude.{◌≡◌, ◌≤◌, ◌<◌, ◌+◌, ◌-◌, ◌*◌, ◌^◌, IfNone, None};
ghost use Rattle.qh_limits.specs.Limits.{max_bitstrings, max_gates, max_part_qubits, max_ranges, max_path_bits, max_qubits};
ghost use Rattle.qh_plan.specs.Plans.{width_fault};
ghost use Rattle.qh_planner.specs.Counts.{IsCountedAnswer, IsSmall, counted_refusal, path_refusal, range_total, size_refusal, split_refusal};

use crate::crossing::Crossing;
use crate::row::CutAnswer;
use qh_limits::{MAX_CROSSING, MAX_JOURNAL_BYTES, MAX_PART_QUBITS, MAX_PATH_BITS, MAX_RANGES};
use qh_plan::PlanFault;

/// How the crossing gates are split, and the prefix value if one is given.
#[derive(Clone, Copy)]
pub(crate) struct Split {
    pub p: u32,
    pub r: u32,
    pub prefix: Option<u32>,
}

/// The answer for a cut into `size` and the other of `qubits` qubits, by its counts, the bytes of its job text and the
/// number of bitstrings.
pub(crate) fn answer_by_counts(
    qubits: u32,
    size: u32,
    crossing: &Crossing,
    split: &Split,
    text: u64,
    bits: u64,
) -> CutAnswer
    requires inside { size < qubits }
    requires few { qubits ≤ max_qubits }
    requires small { IsSmall crossing.now }
    requires gates { crossing.now.gates ≤ max_gates }
    requires text { text < 2 ^ 63 + 2 ^ 20 }
    requires bits { bits ≤ max_bitstrings }
    ensures { IsCountedAnswer qubits size crossing.now (counted_refusal qubits size crossing.now split.now.p split.now.r split.now.prefix text bits) result }
{
    if let Some(fault) = counted_refusal(qubits, size, crossing, split, text, bits) {
        return CutAnswer::Refused(fault);
    }
    CutAnswer::Allowed {
        log2: crossing.paths,
        cost: power(crossing.paths) * (numbers(size) + numbers(qubits - size)),
    }
}

/// The first refusal, in the order of `PlanFault`.
fn counted_refusal(
    qubits: u32,
    size: u32,
    crossing: &Crossing,
    split: &Split,
    text: u64,
    bits: u64,
) -> Option<PlanFault>
    requires inside { size < qubits }
    requires small { IsSmall crossing.now }
    requires gates { crossing.now.gates ≤ max_gates }
    requires text { text < 2 ^ 63 + 2 ^ 20 }
    requires bits { bits ≤ max_bitstrings }
    ensures value { result ≡ counted_refusal qubits size crossing.now split.now.p split.now.r split.now.prefix text bits }
    ensures one { IfNone result (size ≤ max_part_qubits) }
    ensures two { IfNone result (qubits ≤ size + max_part_qubits) }
    ensures paths { IfNone result (crossing.now.paths ≤ max_path_bits) }
{
    if let Some(fault) = width_refusal(qubits, size) {
        return Some(fault);
    }
    if let Some(fault) = path_refusal(crossing) {
        return Some(fault);
    }
    if let Some(fault) = split_refusal(crossing, split) {
        return Some(fault);
    }
    size_refusal(crossing, split.prefix, text, bits)
}

/// A part without qubits or with too many.
fn width_refusal(qubits: u32, size: u32) -> Option<PlanFault>
    requires { size < qubits }
    ensures value { result ≡ width_fault qubits size }
    ensures one { IfNone result (size ≤ max_part_qubits) }
    ensures two { IfNone result (qubits ≤ size + max_part_qubits) }
{
    if size == 0 {
        return Some(PlanFault::EmptyPart);
    }
    if size > MAX_PART_QUBITS {
        return Some(PlanFault::PartTooWide { qubits: size });
    }
    if qubits - size > MAX_PART_QUBITS {
        return Some(PlanFault::PartTooWide {
            qubits: qubits - size,
        });
    }
    None
}

/// Too many crossing gates, or too many paths.
fn path_refusal(crossing: &Crossing) -> Option<PlanFault>
    ensures value { result ≡ path_refusal crossing.now }
    ensures paths { IfNone result (crossing.now.paths ≤ max_path_bits) }
{
    if crossing.gates as usize > MAX_CROSSING {
        return Some(PlanFault::TooManyCrossing {
            count: crossing.gates,
        });
    }
    if crossing.paths > MAX_PATH_BITS {
        return Some(PlanFault::TooManyPaths {
            log2: crossing.paths,
        });
    }
    None
}

/// A split of more gates than cross, or a prefix value that is none.
fn split_refusal(crossing: &Crossing, split: &Split) -> Option<PlanFault>
    requires { crossing.now.prefixes ≤ max_path_bits }
    ensures { result ≡ split_refusal crossing.now split.now.p split.now.r split.now.prefix }
{
    if u64::from(split.p) + u64::from(split.r) > u64::from(crossing.gates) {
        return Some(PlanFault::PrefixRoot {
            crossing: crossing.gates,
        });
    }
    let Some(value) = split.prefix else {
        return None;
    };
    let prefixes = power(crossing.prefixes);
    if u64::from(value) >= prefixes {
        return Some(PlanFault::PrefixValue { prefixes });
    }
    None
}

/// Too many ranges, or a journal of too many bytes.
fn size_refusal(crossing: &Crossing, prefix: Option<u32>, text: u64, bits: u64) -> Option<PlanFault>
    requires few { crossing.now.prefixes + crossing.now.roots ≤ max_path_bits }
    requires text { text < 2 ^ 63 + 2 ^ 20 }
    requires bits { bits ≤ max_bitstrings }
    ensures { result ≡ size_refusal crossing.now prefix text bits }
{
    let ranges = range_total(crossing, prefix);
    if ranges > u64::from(MAX_RANGES) {
        return Some(PlanFault::TooManyRanges { ranges });
    }
    let bytes = journal_length(text, ranges, bits);
    if bytes > MAX_JOURNAL_BYTES {
        return Some(PlanFault::JournalTooLong { bytes });
    }
    None
}

/// The bytes of a journal with so many ranges and bitstrings, whose job text is so long.
fn journal_length(text: u64, ranges: u64, bits: u64) -> u64
    requires text { text < 2 ^ 63 + 2 ^ 20 }
    requires ranges { ranges ≤ max_ranges }
    requires bits { bits ≤ max_bitstrings }
    ensures { result ≡ 32 + text + ranges * (10 + 64 * bits) }
{
    32 + text + ranges * (10 + 64 * bits)
}

/// The ranges of the run: all pairs of a prefix and a root value, or the root values alone under a prefix value.
#[tactic(auto, using(crate::proofs::CountLemmas::power_of_sum))]
fn range_total(crossing: &Crossing, prefix: Option<u32>) -> u64
    requires { crossing.now.prefixes + crossing.now.roots ≤ max_path_bits }
    ensures { result ≡ range_total crossing.now prefix }
{
    match prefix {
        None => power(crossing.prefixes + crossing.roots),
        Some(_) => power(crossing.roots),
    }
}

/// 2^bits.
fn power(bits: u32) -> u64
    requires { bits ≤ max_path_bits }
    ensures value { result ≡ 2 ^ bits }
    ensures small { result ≤ 2 ^ max_path_bits }
{
    1 << bits
}

/// The numbers of a half of so many qubits.
fn numbers(qubits: u32) -> u64
    requires { qubits ≤ max_part_qubits }
    ensures value { result ≡ 2 ^ qubits }
    ensures small { result ≤ 2 ^ max_part_qubits }
{
    power(qubits)
}
