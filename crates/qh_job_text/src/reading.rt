//! From a text to its job. What is read is printed again and compared, so one spelling alone is accepted.
ghost use Rattle.std.specs.Prelude.{◌≡◌, ◌≢◌, ◌≤◌, ◌<◌, ◌^◌, ◌++◌, ◌∷◌, [], ℕ, List, None, Err, IfOk, IfSome, IsSomeAnd, MatchResult, Option, Some, length, codes, All};
ghost use Rattle.std.specs.Option.{ForSome};
ghost use Rattle.std.specs.List.{flat_map};
ghost use Rattle.qh_limits.specs.Limits.{max_qubits};
ghost use Rattle.qh_text.specs.Decimal.{number_below};
ghost use Rattle.qh_plan.specs.Jobs.{Job as JobValue, IsJob};
ghost use Rattle.qh_plan.specs.Plans.{IsPlanned};
ghost use Rattle.qh_plan.specs.Texts.{bits_line, job_text, prefix_text, word, words};
ghost use Rattle.qh_job_text.specs.Readings.{AreParts, HasLines, text_fault};

use crate::fault::JobTextFault;
use qh_circuit::{CircuitFault, read_circuit};
use qh_gates::Circuit;
use qh_limits::MAX_QUBITS;
use qh_plan::{Job, PlanFault, are_bits, plan};
use qh_text::{cut_at, find, index_of, number_of};
use std::alloc::{AllocError, Global};

/// The lines of a job's text up to the bitstrings, and what stands behind them.
#[derive(Clone, Copy)]
pub(crate) struct Lines<'a> {
    part: &'a [u8],
    split: &'a [u8],
    prefix: &'a [u8],
    count: &'a [u8],
    rest: &'a [u8],
}

/// What a job's text says.
#[derive(Drop)]
pub(crate) struct Parts {
    circuit: Circuit,
    part: Vec<u32>,
    split: (u32, u32),
    prefix: Option<u32>,
    bits: Vec<u64>,
}

/// The number behind the first space, up to the next one, and what stands from there on.
fn next_number(text: &[u8]) -> Option<(u32, &[u8])>
    ensures only { (head : List ℕ) (n : ℕ) (others : List ℕ) → All (λ b. b ≢ 32) head → n < 2 ^ 32
        → text.now ≡ head ++ flat_map word (n ∷ others) → IsSomeAnd result (λ x. (x.0 ≡ n) × (x.1.now ≡ flat_map word others)) }
    ensures none { All (λ b. b ≢ 32) text.now → result ≡ None }
    ensures word { (head last : List ℕ) → All (λ b. b ≢ 32) head → All (λ b. b ≢ 32) last → number_below (2 ^ 32) last ≡ None
        → text.now ≡ head ++ 32 ∷ last → result ≡ None }
    ensures shorter { IfSome result (λ x. length x.1.now < length text.now) }
{
    let Some((_, behind)) = cut_at(text, b' ') else {
        return None;
    };
    let at = find(behind, b' ');
    let Some(number) = number_of(&behind[..at]) else {
        return None;
    };
    Some((number, &behind[at..]))
}

/// The numbers behind the name that begins a line.
fn numbers_in(alloc: Global, line: &[u8]) -> Result<Vec<u32>, AllocError>
    ensures { (head numbers : List ℕ) → All (λ b. b ≢ 32) head → All (λ n. n < 2 ^ 32) numbers
        → line.now ≡ head ++ flat_map word numbers → IfOk result (λ v. v.items ≡ numbers) }
{
    let mut numbers = Vec::new(alloc);
    let mut rest = line;
    while let Some((number, more)) = next_number(rest) {
        numbers.push(number)?;
        rest = more;
    }
    Ok(numbers)
}

/// So many bitstrings, a line each, and what stands behind them.
fn read_bits(alloc: Global, count: u32, text: &[u8]) -> Result<(Vec<u64>, &[u8]), JobTextFault>
    ensures { (n : ℕ) (bits back : List ℕ) → n ≤ max_qubits → All (λ x. x < 2 ^ n) bits → length bits ≡ count
        → text.now ≡ flat_map (bits_line n) bits ++ back
        → MatchResult result (λ x. (x.0.items ≡ bits) × (x.1.now ≡ back)) (λ f. f ≡ JobTextFault.Memory) }
{
    let mut bits = Vec::new(alloc);
    let mut rest = text;
    for i in 0..count {
        let Some((line, more)) = cut_at(rest, b'\n') else {
            return Err(JobTextFault::NotOne);
        };
        if line.len() > MAX_QUBITS as usize {
            return Err(JobTextFault::NotOne);
        }
        let Some(index) = index_of(line) else {
            return Err(JobTextFault::NotOne);
        };
        let Ok(()) = bits.push(index) else {
            return Err(JobTextFault::Memory);
        };
        rest = more;
    }
    Ok((bits, rest))
}

/// The lines of a job's text.
fn lines_of(text: &[u8]) -> Option<Lines<'_>>
    ensures { (j : JobValue) → IsPlanned j → text.now ≡ job_text j → IsSomeAnd result (HasLines j) }
{
    let Some((_, rest)) = cut_at(text, b'\n') else {
        return None;
    };
    let Some((part, rest)) = cut_at(rest, b'\n') else {
        return None;
    };
    let Some((split, rest)) = cut_at(rest, b'\n') else {
        return None;
    };
    let Some((prefix, rest)) = cut_at(rest, b'\n') else {
        return None;
    };
    let Some((count, rest)) = cut_at(rest, b'\n') else {
        return None;
    };
    Some(Lines {
        part,
        split,
        prefix,
        count,
        rest,
    })
}

/// The two numbers of a line.
fn split_in(line: &[u8]) -> Option<(u32, u32)>
    ensures { (p r : ℕ) → p < 2 ^ 32 → r < 2 ^ 32 → line.now ≡ words (codes "split") (p ∷ r ∷ []) → result ≡ Some (p, r) }
{
    let Some((p, rest)) = next_number(line) else {
        return None;
    };
    let Some((r, _)) = next_number(rest) else {
        return None;
    };
    Some((p, r))
}

/// The prefix value of a line, if it has one.
fn prefix_in(line: &[u8]) -> Option<u32>
    ensures { (prefix : Option ℕ) → ForSome prefix (λ w. w < 2 ^ 32) → line.now ≡ prefix_text prefix → result ≡ prefix }
{
    let Some((value, _)) = next_number(line) else {
        return None;
    };
    Some(value)
}

/// What a text says, if it is that of a job.
fn read_parts(alloc: Global, text: &[u8]) -> Result<Parts, JobTextFault>
    ensures { (j : JobValue) → IsPlanned j → text.now ≡ job_text j
        → MatchResult result (AreParts j) (λ f. f ≡ JobTextFault.Memory) }
{
    let Some(lines) = lines_of(text) else {
        return Err(JobTextFault::NotOne);
    };
    let Ok(part) = numbers_in(alloc, lines.part) else {
        return Err(JobTextFault::Memory);
    };
    let Some(split) = split_in(lines.split) else {
        return Err(JobTextFault::NotOne);
    };
    let Some((count, _)) = next_number(lines.count) else {
        return Err(JobTextFault::NotOne);
    };
    let (bits, rest) = read_bits(alloc, count, lines.rest)?;
    let Some((_, printed)) = cut_at(rest, b'\n') else {
        return Err(JobTextFault::NotOne);
    };
    let circuit = match read_circuit(alloc, printed, u32::MAX) {
        Ok(circuit) => circuit,
        Err(CircuitFault::Memory) => return Err(JobTextFault::Memory),
        Err(CircuitFault::Line { .. }) => return Err(JobTextFault::NotOne),
    };
    Ok(Parts {
        circuit,
        part,
        split,
        prefix: prefix_in(lines.prefix),
        bits,
    })
}

/// What a refused plan says of the text.
fn text_fault(fault: PlanFault) -> JobTextFault
    ensures { result ≡ text_fault fault }
{
    match fault {
        PlanFault::Memory => JobTextFault::Memory,
        _ => JobTextFault::NotOne,
    }
}

/// The job with this text. NotOne comes exactly where the bytes are the text of no job.
pub fn read_job_text(alloc: Global, bytes: &[u8]) -> Result<Job, JobTextFault>
    ensures text { IfOk result (λ j. bytes.now ≡ job_text j) }
    ensures planned { IfOk result (λ j. IsPlanned j) }
    ensures alone { IfOk result (λ j. (k : JobValue) → IsJob k → bytes.now ≡ job_text k → k ≡ j) }
    ensures not_one { result ≡ Err JobTextFault.NotOne → (j : JobValue) → IsPlanned j → bytes.now ≢ job_text j }
{
    let Parts {
        circuit,
        part,
        split,
        prefix,
        bits,
    } = match read_parts(alloc, bytes) {
        Ok(parts) => parts,
        Err(fault) => return Err(fault),
    };
    if !are_bits(circuit.qubits(), &bits) {
        return Err(JobTextFault::NotOne);
    }
    let job = match plan(alloc, circuit, &part, split.0, split.1, prefix, bits) {
        Ok(job) => job,
        Err(fault) => return Err(text_fault(fault)),
    };
    if job.text() == bytes {
        return Ok(job);
    }
    Err(JobTextFault::NotOne)
}
