//! A circuit with a valid cut, and how its paths are numbered and grouped.
ghost use Rattle.std.specs.Prelude.{◌≡◌, ◌↔◌, ◌+◌, ◌*◌, ◌^◌, ◌<◌, ◌≤◌, IsTrue, All, length};
ghost use Rattle.qh_limits.specs.Limits.{max_bitstrings, max_path_bits, max_ranges};
ghost use Rattle.qh_plan.specs.Plans.{range_count};
ghost use Rattle.qh_plan.specs.Ranges.{IsSmall};

use crate::fault::PlanFault;
use crate::paths::{path_count, path_digits, path_number};
use crate::same::same_circuit;
use crate::sums::Sums;
use crate::text::job_text;
use crate::verdict::Verdict;
use arrayvec::ArrayVec;
use qh_gates::Circuit;
use qh_limits::{MAX_JOURNAL_BYTES, MAX_RANGES};
use qh_ring::Omega;
use std::alloc::{AllocError, Global};
use std::marker::Model;

/// A job: a circuit, the qubits of part 1, how many of the crossing gates are prefix and how many root, a prefix value
/// if one is given, and the asked bitstrings. Contracts see these as one record.
///
/// A path picks a term of each crossing gate. Its number is mixed radix over these gates in the order of the circuit,
/// the first the most significant. The digits of the first p gates are the prefix, the next r the root, the others the
/// suffix. A range holds the paths of one prefix and one root.
#[derive(Drop)]
pub struct Job {
    circuit: Circuit,
    part: Vec<u32>,
    p: u32,
    r: u32,
    prefix: Option<u32>,
    bits: Vec<u64>,
    radices: Vec<u8>,
    prefixes: u64,
    roots: u64,
    per_range: u64,
    text: Vec<u8>,
}

impl Model for Job {
    ghost use Rattle.qh_plan.specs.Jobs.{Job};

    ghost Value = { Job };

    ghost use Rattle.qh_plan.specs.Plans.{IsKept};

    ghost view = { λ a. record { circuit = a.circuit; part = a.part.items; p = a.p; r = a.r; prefix = a.prefix; bits = a.bits.items } };

    ghost invariant = { λ a. IsKept
        (record { circuit = a.circuit; part = a.part.items; p = a.p; r = a.r; prefix = a.prefix; bits = a.bits.items })
        (record { radices = a.radices.items; prefixes = a.prefixes; roots = a.roots; per_range = a.per_range; text = a.text.items }) };
}

impl Job {
    ghost use Rattle.std.specs.Prelude.{◌≡◌, ◌≢◌, ◌↔◌, ◌==◌, ◌+◌, ◌*◌, ◌/◌, ◌^◌, ◌<◌, ◌≤◌, ℕ, Option, Some, None, IsTrue, IfOk, IfErr, IfSome, IsSome, OnOk, OnErr};
    ghost use Rattle.std.specs.List.{AllZip};
    ghost use Rattle.std.specs.Option.{ForSome};
    ghost use Rattle.qh_limits.specs.Limits.{max_path_bits};
    ghost use Rattle.qh_plan.specs.Jobs.{Job as JobValue, IsJob, job_radices, in_one, crossing, prefixes, paths, ranges, roots, per_range, earlier, first_path, digits_of};
    ghost use Rattle.qh_plan.specs.Paths.{path_number};
    ghost use Rattle.qh_plan.specs.Texts.{job_text};
    ghost use Rattle.qh_plan.specs.Plans.{IsDraft, IsPlanned, size_fault};
    ghost use Rattle.qh_plan.specs.Texts.{journal_length};
    ghost use Rattle.qh_plan.specs.Ranges.{Fits, IsInRange, IsOfRun, IsSameButPrefix, prefix_of};
    ghost use Rattle.qh_plan.specs.declared.fault.PlanFault.TheVariants as Faults;

    /// The job of these parts, where its ranges are few and its journal is short.
    pub(crate) fn of_parts(
        alloc: Global,
        circuit: Circuit,
        part: Vec<u32>,
        split: (u32, u32),
        prefix: Option<u32>,
        bits: Vec<u64>,
        radices: Vec<u8>,
    ) -> Result<Job, PlanFault>
        requires { IsDraft (record { circuit = circuit; part = part.items; p = split.0; r = split.1; prefix = prefix; bits = bits.items }) radices.items }
        ensures job { IfOk result (λ j. j ≡ record { circuit = circuit; part = part.items; p = split.0; r = split.1; prefix = prefix; bits = bits.items }) }
        ensures planned { IfOk result (λ j. IsPlanned j) }
        ensures accepted { IfOk result (λ j. size_fault (ranges j) (journal_length j) ≡ None) }
        ensures refused { IfErr result (λ f. f ≢ PlanFault.Memory →
            size_fault (ranges (record { circuit = circuit; part = part.items; p = split.0; r = split.1; prefix = prefix; bits = bits.items }))
            (journal_length (record { circuit = circuit; part = part.items; p = split.0; r = split.1; prefix = prefix; bits = bits.items })) ≡ Some f) }
    {
        let (p, r) = split;
        let prefixes = path_count(&radices[..p as usize]);
        let roots = path_count(&radices[p as usize..][..r as usize]);
        let per_range = path_count(&radices[p as usize..][r as usize..]);
        let ranges = range_count(prefixes, roots, prefix);
        if ranges > u64::from(MAX_RANGES) {
            return Err(PlanFault::TooManyRanges { ranges });
        }
        let Ok(text) = job_text(alloc, &circuit, &part, p, r, prefix, &bits) else {
            return Err(PlanFault::Memory);
        };
        let bytes = journal_length(text.len() as u64, ranges, bits.len() as u64);
        if bytes > MAX_JOURNAL_BYTES {
            return Err(PlanFault::JournalTooLong { bytes });
        }
        Ok(Job {
            circuit,
            part,
            p,
            r,
            prefix,
            bits,
            radices,
            prefixes,
            roots,
            per_range,
            text,
        })
    }

    /// The circuit.
    pub fn circuit(&self) -> &Circuit
        ensures value { result.now ≡ self.now.circuit }
        ensures valid { IsJob self.now }
    {
        &self.circuit
    }

    /// Whether the qubit lies in part 1.
    pub fn in_one(&self, qubit: u32) -> bool
        ensures { result ≡ in_one self.now qubit }
    {
        self.part.contains(&qubit)
    }

    /// The asked bitstrings as basis indices, in the order asked. Qubit q is bit q.
    pub fn bits(&self) -> &[u64]
        ensures value { result.now ≡ self.now.bits }
        ensures valid { IsJob self.now }
    {
        self.bits.as_slice()
    }

    /// How many gates cross the cut.
    pub fn crossing(&self) -> u32
        ensures { result ≡ crossing self.now }
    {
        self.radices.len() as u32
    }

    /// How many of the crossing gates are prefix, and how many root.
    pub fn split(&self) -> (u32, u32)
        ensures prefix { result.0 ≡ self.now.p }
        ensures root { result.1 ≡ self.now.r }
    {
        (self.p, self.r)
    }

    /// The prefix value of the run, or None where it sums the paths of all.
    pub fn prefix_value(&self) -> Option<u32>
        ensures { result ≡ self.now.prefix }
    {
        self.prefix
    }

    /// How many prefix values there are, whether or not one is given.
    pub fn prefixes(&self) -> u64
        ensures { result ≡ prefixes self.now }
    {
        self.prefixes
    }

    /// How many paths the circuit and its cut have, at most 2^32.
    pub fn paths(&self) -> u64
        ensures value { result ≡ paths self.now }
        ensures valid { IsJob self.now }
    {
        self.prefixes * self.roots * self.per_range
    }

    /// How many ranges the run has, at most 16,384. They hold at most 2^32 paths together.
    pub fn ranges(&self) -> u32
        ensures value { result ≡ ranges self.now }
        ensures valid { IsJob self.now }
        ensures within { ranges self.now * per_range self.now ≤ 2 ^ max_path_bits }
    {
        range_count(self.prefixes, self.roots, self.prefix) as u32
    }

    /// How many paths a range holds.
    pub fn per_range(&self) -> u64
        ensures { result ≡ per_range self.now }
    {
        self.per_range
    }

    /// How many pairs of a prefix and a root stand before those of the run.
    fn earlier(&self) -> u64
        ensures value { result ≡ earlier self.now self.now.prefix }
        ensures within { result + ranges self.now ≤ 2 ^ max_path_bits }
    {
        match self.prefix {
            None => 0,
            Some(value) => u64::from(value) * self.roots,
        }
    }

    /// The first of the paths of a range. The others follow it.
    pub fn first_path(&self, range: u32) -> u64
        requires { range < ranges self.now }
        ensures value { result ≡ first_path self.now range }
        ensures within { result + per_range self.now ≤ paths self.now }
    {
        (self.earlier() + u64::from(range)) * self.per_range
    }

    /// The prefix value of a range.
    pub fn prefix_of(&self, range: u32) -> u64
        requires { range < ranges self.now }
        ensures value { result ≡ prefix_of self.now range }
        ensures of_paths { (path : ℕ) → IsInRange self.now range path → path / (roots self.now * per_range self.now) ≡ result }
    {
        (self.earlier() + u64::from(range)) / self.roots
    }

    /// The range of this run that a path lies in.
    pub fn range_of(&self, path: u64) -> Option<u32>
        ensures found { IfSome result (λ i. (i < ranges self.now) × IsInRange self.now i path) }
        ensures alone { (i : ℕ) → i < ranges self.now → IsInRange self.now i path → result ≡ Some i }
        ensures run { IsSome result ↔ IsOfRun self.now path }
    {
        let place = path / self.per_range;
        let earlier = self.earlier();
        if place < earlier {
            return None;
        }
        if place - earlier >= u64::from(self.ranges()) {
            return None;
        }
        Some((place - earlier) as u32)
    }

    /// The digits of a path: for each crossing gate the number of its term.
    pub fn digits(&self, path: u64) -> ArrayVec<u8, 32>
        requires { path < paths self.now }
        ensures value { result.items ≡ digits_of self.now path }
        ensures below { AllZip (λ d r. d < r) result.items (job_radices self.now) }
        ensures back { path_number (job_radices self.now) result.items ≡ path }
    {
        path_digits(self.radices.as_slice(), path)
    }

    /// The number of the path with these digits, one for each crossing gate and below its number of terms.
    pub fn number(&self, digits: &[u8]) -> u64
        requires { AllZip (λ d r. d < r) digits.now (job_radices self.now) }
        ensures value { result ≡ path_number (job_radices self.now) digits.now }
        ensures below { result < paths self.now }
        ensures back { digits_of self.now result ≡ digits.now }
    {
        path_number(self.radices.as_slice(), digits)
    }

    /// Whether the verdict may be that of the range: a sum has a number for each bitstring, each coefficient with a
    /// magnitude below 2^94 times the paths of a range, and what is over names a path of the range.
    pub fn fits(&self, range: u32, verdict: &Verdict) -> bool
        requires { range < ranges self.now }
        ensures { IsTrue result ↔ Fits self.now range verdict.now }
    {
        match verdict {
            Verdict::Sum(sums) => are_sums(sums, self.bits.len(), self.per_range),
            Verdict::Over { path } => {
                let first = self.first_path(range);
                first <= *path && *path < first + self.per_range
            }
        }
    }

    /// Whether the two are one job. Just then they have one text, and it is their texts that are compared.
    pub fn same(&self, other: &Job) -> bool
        ensures same { IsTrue result ↔ (self.now ≡ other.now) }
        ensures text { IsTrue result ↔ (job_text self.now ≡ job_text other.now) }
    {
        self.text.as_slice() == other.text.as_slice()
    }

    /// Whether the two differ in their prefix value at most.
    pub fn same_but_prefix(&self, other: &Job) -> bool
        ensures { IsTrue result ↔ IsSameButPrefix self.now other.now }
    {
        self.p == other.p
            && self.r == other.r
            && self.part.as_slice() == other.part.as_slice()
            && self.bits.as_slice() == other.bits.as_slice()
            && same_circuit(&self.circuit, &other.circuit)
    }

    /// The text that names the job in a journal.
    pub fn job_text(&self, alloc: Global) -> Result<Vec<u8>, AllocError>
        ensures { IfOk result (λ t. t.items ≡ job_text self.now) }
    {
        Vec::from_slice(alloc, self.text.as_slice())
    }

    /// Lends that text. A journal of the job has at most 2^30 bytes.
    pub fn text(&self) -> &[u8]
        ensures value { result.now ≡ job_text self.now }
        ensures planned { IsPlanned self.now }
    {
        self.text.as_slice()
    }
}

/// All pairs of a prefix and a root value, or the roots under the given prefix value.
fn range_count(prefixes: u64, roots: u64, prefix: Option<u32>) -> u64
    requires { prefixes * roots < 2 ^ 64 }
    ensures { result ≡ range_count prefixes roots prefix }
{
    match prefix {
        None => prefixes * roots,
        Some(_) => roots,
    }
}

/// The bytes of a journal with so many ranges and bitstrings, whose job text is so long.
fn journal_length(text: u64, ranges: u64, bits: u64) -> u64
    requires text { text < 2 ^ 63 }
    requires ranges { ranges ≤ max_ranges }
    requires bits { bits ≤ max_bitstrings }
    ensures { result ≡ 32 + text + ranges * (10 + 64 * bits) }
{
    32 + text + ranges * (10 + 64 * bits)
}

/// Whether there are so many numbers, each as small as the sum over so many paths is.
fn are_sums(sums: &Sums, count: usize, paths: u64) -> bool
    requires { paths ≤ 2 ^ max_path_bits }
    ensures { IsTrue result ↔ ((length sums.now ≡ count) × All (IsSmall (paths * 2 ^ 94)) sums.now) }
{
    let limit = u128::from(paths) * (1 << 94);
    sums.values().len() == count && sums.values().iter().all(|z| is_small(z, limit))
}

/// Whether each coefficient's magnitude is below the limit.
fn is_small(z: &Omega, limit: u128) -> bool
    ensures { IsTrue result ↔ IsSmall limit z.now }
{
    z.a.unsigned_abs() < limit
        && z.b.unsigned_abs() < limit
        && z.c.unsigned_abs() < limit
        && z.d.unsigned_abs() < limit
}
