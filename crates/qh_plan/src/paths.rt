//! Path numbers: mixed radix over the crossing gates in the order of the circuit, the first the most significant.
ghost use Rattle.std.specs.Prelude.{◌≡◌, ◌==◌, ◌+◌, ◌^◌, ◌<◌, ◌≤◌, ℕ, All, IfOk, length, take, drop};
ghost use Rattle.std.specs.List.{AllZip, list_any};
ghost use Rattle.qh_limits.specs.Limits.{max_gates, max_crossing, max_path_bits};
ghost use Rattle.qh_gates.specs.declared.gate.Gate.{Gate as GateValue};
ghost use Rattle.qh_gates.specs.Tables.{qubits_of};
ghost use Rattle.qh_gates.specs.Terms.{terms_of};
ghost use Rattle.qh_gates.specs.Circuits.{Fits};
ghost use Rattle.qh_plan.specs.Paths.{radices, path_count, path_number, path_digits};
ghost use Rattle.qh_plan.specs.Plans.{IsRadix, path_bits, path_fault, split_fault};

use crate::cut::crosses;
use crate::fault::PlanFault;
use arrayvec::ArrayVec;
use qh_gates::{Gate, Kind, terms};
use qh_limits::{MAX_CROSSING, MAX_PATH_BITS};
use std::alloc::{AllocError, Global};

/// How many terms a crossing gate has: one, two or four.
fn radix(kind: Kind) -> u8
    requires { qubits_of kind ≡ 2 }
    ensures value { result ≡ length (terms_of kind) }
    ensures known { IsRadix result }
{
    terms(kind, false).len() as u8
}

/// How many terms each crossing gate has.
pub(crate) fn radices(alloc: Global, part: &[u32], gates: &[Gate]) -> Result<Vec<u8>, AllocError>
    requires { All (λ (g : GateValue). qubits_of g.kind ≡ 1 → g.q1 ≡ g.q0) gates.now }
    ensures value { IfOk result (λ v. v.items ≡ radices (λ q. list_any (λ k. k == q) part.now) gates.now) }
    ensures known { IfOk result (λ v. All IsRadix v.items) }
    ensures bounded { IfOk result (λ v. length v.items ≤ length gates.now) }
{
    let mut radices = Vec::new(alloc);
    for gate in gates {
        if crosses(part, gate) {
            radices.push(radix(gate.kind))?;
        }
    }
    Ok(radices)
}

/// The exponent of two of the number of paths.
fn path_bits(radices: &[u8]) -> u32
    requires { length radices.now ≤ max_gates }
    ensures { result ≡ path_bits radices.now }
{
    let mut bits = 0;
    for radix in radices {
        bits += match *radix {
            4 => 2,
            2 => 1,
            _ => 0,
        };
    }
    bits
}

/// More crossing gates or paths than there may be.
pub(crate) fn path_fault(radices: &[u8]) -> Option<PlanFault>
    requires known { All IsRadix radices.now }
    requires few { length radices.now ≤ max_gates }
    ensures { result ≡ path_fault radices.now }
{
    if radices.len() > MAX_CROSSING {
        return Some(PlanFault::TooManyCrossing {
            count: radices.len() as u32,
        });
    }
    let log2 = path_bits(radices);
    if log2 > MAX_PATH_BITS {
        return Some(PlanFault::TooManyPaths { log2 });
    }
    None
}

/// How many paths there are over these gates.
pub(crate) fn path_count(radices: &[u8]) -> u64
    requires known { All IsRadix radices.now }
    requires few { path_count radices.now ≤ 2 ^ max_path_bits }
    ensures { result ≡ path_count radices.now }
{
    let mut count = 1;
    for radix in radices {
        count *= u64::from(*radix);
    }
    count
}

/// A split of more gates than cross, or a prefix value that is none.
pub(crate) fn split_fault(radices: &[u8], p: u32, r: u32, prefix: Option<u32>) -> Option<PlanFault>
    requires known { All IsRadix radices.now }
    requires short { length radices.now ≤ max_crossing }
    requires few { path_count radices.now ≤ 2 ^ max_path_bits }
    ensures { result ≡ split_fault radices.now p r prefix }
{
    if u64::from(p) + u64::from(r) > radices.len() as u64 {
        return Some(PlanFault::PrefixRoot {
            crossing: radices.len() as u32,
        });
    }
    let prefixes = path_count(&radices[..p as usize]);
    let Some(value) = prefix else {
        return None;
    };
    if u64::from(value) >= prefixes {
        return Some(PlanFault::PrefixValue { prefixes });
    }
    None
}

/// The digits of a path: for each crossing gate the number of the term that the path picks.
pub(crate) fn path_digits(radices: &[u8], path: u64) -> ArrayVec<u8, 32>
    requires known { All IsRadix radices.now }
    requires short { length radices.now ≤ max_crossing }
    requires few { path_count radices.now ≤ 2 ^ max_path_bits }
    requires below { path < path_count radices.now }
    ensures { result.items ≡ path_digits radices.now path }
{
    let mut digits = ArrayVec::new();
    let mut count = path_count(radices);
    let mut rest = path;
    for radix in radices {
        count /= u64::from(*radix);
        digits.push((rest / count) as u8);
        rest %= count;
    }
    digits
}

/// The number of a path with these digits.
pub(crate) fn path_number(radices: &[u8], digits: &[u8]) -> u64
    requires known { All IsRadix radices.now }
    requires below { AllZip (λ d r. d < r) digits.now radices.now }
    requires few { path_count radices.now ≤ 2 ^ max_path_bits }
    ensures { result ≡ path_number radices.now digits.now }
{
    let mut number = 0;
    for (i, radix) in radices.iter().enumerate() {
        number = number * u64::from(*radix) + u64::from(digits[i]);
    }
    number
}
