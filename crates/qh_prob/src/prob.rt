//! The probabilities of all basis indices.
ghost use Rattle.std.specs.Prelude.{◌≡◌, ◌≤◌, ◌+ℤ◌, ◌-ℤ◌, ◌*ℤ◌, All, IfErr, IfOk};
ghost use Rattle.qh_limits.specs.Limits.{max_uncut_qubits, max_weight};
ghost use Rattle.qh_ring.specs.Numbers.{IsBelow, IsWithin};
ghost use Rattle.qh_ring.specs.States.{listed};
ghost use Rattle.qh_gates.specs.Circuits.{IsCircuit, total_weight};
ghost use Rattle.qh_gates.specs.Evolution.{uncut};
ghost use Rattle.qh_uncut.specs.Faults.{IsCause};
ghost use Rattle.qh_prob.specs.Probability.{IsBounded, certain, probabilities, probability, total};

use qh_gates::Circuit;
use qh_ring::Omega;
use qh_uncut::{UncutFault, evolve, evolve_chunks};
use std::alloc::{AllocError, Global};
use std::thread::Threads;

/// The number P + Q√2. Over 2^k it is a probability.
#[derive(Clone, Copy, PartialEq, Eq, Debug)]
pub struct Prob {
    pub p: i128,
    pub q: i128,
}

/// The probability of each basis index after all gates, from index 0 on, as P + Q√2 over 2^K, where K is the circuit's
/// weight. Qubit q is bit q of an index.
///
/// The circuit has at most 16 qubits and a weight of at most 120. There is no overflow: all of them add up to 1 after
/// each gate, so no coefficient's magnitude is above 2^60. An Err is want of memory.
pub fn all_probabilities(alloc: Global, circuit: &Circuit) -> Result<Vec<Prob>, AllocError>
    requires narrow { circuit.now.qubits ≤ max_uncut_qubits }
    requires shallow { total_weight circuit.now.gates ≤ max_weight }
    ensures exact { IfOk result (λ v. v.items ≡ probabilities circuit.now) }
    ensures certain { IfOk result (λ v. total v.items ≡ certain (total_weight circuit.now.gates)) }
    ensures bounded { IfOk result (λ v. All IsBounded v.items) }
{
    let evolved = evolve(alloc, circuit);
    probabilities_of(alloc, circuit, evolved)
}

/// As [`all_probabilities`], and may evolve by several threads, which it joins. It takes 64 bytes an index once more.
pub fn chunk_probabilities<R: Threads + Sync>(
    rt: &R,
    alloc: Global,
    circuit: &Circuit,
) -> Result<Vec<Prob>, AllocError>
    requires narrow { circuit.now.qubits ≤ max_uncut_qubits }
    requires shallow { total_weight circuit.now.gates ≤ max_weight }
    ensures exact { IfOk result (λ v. v.items ≡ probabilities circuit.now) }
    ensures certain { IfOk result (λ v. total v.items ≡ certain (total_weight circuit.now.gates)) }
    ensures bounded { IfOk result (λ v. All IsBounded v.items) }
{
    let evolved = evolve_chunks(rt, alloc, circuit);
    probabilities_of(alloc, circuit, evolved)
}

/// The probability of each basis index, by the state with which the circuit's evolution ended.
fn probabilities_of(
    alloc: Global,
    circuit: &Circuit,
    evolved: Result<Vec<Omega>, UncutFault>,
) -> Result<Vec<Prob>, AllocError>
    requires narrow { circuit.now.qubits ≤ max_uncut_qubits }
    requires shallow { total_weight circuit.now.gates ≤ max_weight }
    requires exact { IfOk evolved (λ v. v.items ≡ listed circuit.now.qubits (uncut circuit.now.gates)) }
    requires cause { IfErr evolved (IsCause circuit.now) }
    ensures exact { IfOk result (λ v. v.items ≡ probabilities circuit.now) }
    ensures certain { IfOk result (λ v. total v.items ≡ certain (total_weight circuit.now.gates)) }
    ensures bounded { IfOk result (λ v. All IsBounded v.items) }
{
    let mut probs = Vec::with_capacity(alloc, 1 << circuit.qubits())?;
    let state = state_of(circuit, evolved)?;
    for z in &state {
        probs.push(probability(z))?;
    }
    Ok(probs)
}

/// The state with which the circuit's evolution ended, whose coefficients have a magnitude below 2^61. An Err is want
/// of memory.
fn state_of(
    circuit: &Circuit,
    evolved: Result<Vec<Omega>, UncutFault>,
) -> Result<Vec<Omega>, AllocError>
    requires valid { IsCircuit circuit.now }
    requires shallow { total_weight circuit.now.gates ≤ max_weight }
    requires exact { IfOk evolved (λ v. v.items ≡ listed circuit.now.qubits (uncut circuit.now.gates)) }
    requires cause { IfErr evolved (IsCause circuit.now) }
    ensures exact { IfOk result (λ v. v.items ≡ listed circuit.now.qubits (uncut circuit.now.gates)) }
    ensures small { IfOk result (λ v. All (IsWithin 61) v.items) }
{
    match evolved {
        Ok(state) => Ok(state),
        Err(fault) => Err(memory_fault(circuit, fault)),
    }
}

/// The want of memory that a fault of the evolution is, since no gate overflows.
fn memory_fault(circuit: &Circuit, fault: UncutFault) -> AllocError
    requires valid { IsCircuit circuit.now }
    requires shallow { total_weight circuit.now.gates ≤ max_weight }
    requires cause { IsCause circuit.now fault }
{
    match fault {
        UncutFault::Memory => AllocError,
        UncutFault::Over { .. } => unreachable!(),
    }
}

/// The squared magnitude of a number.
fn probability(z: &Omega) -> Prob
    requires { IsWithin 61 z.now }
    ensures { result ≡ probability z.now }
{
    Prob {
        p: squares(z.a, z.b, z.c, z.d),
        q: neighbours(z.a, z.b, z.c, z.d),
    }
}

/// The sum of the squares.
fn squares(a: i128, b: i128, c: i128, d: i128) -> i128
    requires a { IsBelow 61 a }
    requires b { IsBelow 61 b }
    requires c { IsBelow 61 c }
    requires d { IsBelow 61 d }
    ensures { result ≡ a *ℤ a +ℤ b *ℤ b +ℤ c *ℤ c +ℤ d *ℤ d }
{
    sum_of_four(times(a, a), times(b, b), times(c, c), times(d, d))
}

/// The sum of the products of neighbours, of which the last and the first count less.
fn neighbours(a: i128, b: i128, c: i128, d: i128) -> i128
    requires a { IsBelow 61 a }
    requires b { IsBelow 61 b }
    requires c { IsBelow 61 c }
    requires d { IsBelow 61 d }
    ensures { result ≡ a *ℤ b +ℤ b *ℤ c +ℤ c *ℤ d -ℤ d *ℤ a }
{
    let sum = sum_of_three(times(a, b), times(b, c), times(c, d));
    difference(sum, times(d, a))
}

/// The product of two numbers of at most 60 bits and their signs.
fn times(x: i128, y: i128) -> i128
    requires x { IsBelow 61 x }
    requires y { IsBelow 61 y }
    ensures value { result ≡ x *ℤ y }
    ensures small { IsBelow 122 result }
{
    x * y
}

fn sum_of_four(p: i128, q: i128, r: i128, s: i128) -> i128
    requires p { IsBelow 122 p }
    requires q { IsBelow 122 q }
    requires r { IsBelow 122 r }
    requires s { IsBelow 122 s }
    ensures { result ≡ p +ℤ q +ℤ r +ℤ s }
{
    p + q + r + s
}

fn sum_of_three(p: i128, q: i128, r: i128) -> i128
    requires p { IsBelow 122 p }
    requires q { IsBelow 122 q }
    requires r { IsBelow 122 r }
    ensures value { result ≡ p +ℤ q +ℤ r }
    ensures small { IsBelow 124 result }
{
    p + q + r
}

fn difference(x: i128, y: i128) -> i128
    requires x { IsBelow 124 x }
    requires y { IsBelow 122 y }
    ensures { result ≡ x -ℤ y }
{
    x - y
}
