//! A circuit, valid by its type.
ghost use Rattle.std.specs.Prelude.{◌≡◌, ◌≤◌, ◌++◌, ◌∷◌, [], OnOk, OnErr, IfErr, Any, IsTrue, ◌↔◌, ◌⊎◌, ◌<◌, length};
ghost use Rattle.qh_limits.specs.Limits.{max_qubits, max_gates};
ghost use Rattle.qh_gates.specs.Tables.{qubits_of};
ghost use Rattle.qh_gates.specs.Circuits.{total_weight};
ghost use Rattle.qh_gates.specs.Faults.{Shares};

use crate::gate::{Gate, GateFault};
use crate::kind::{arity, scaled};
use qh_limits::MAX_GATES;
use std::alloc::{AllocError, Global};
use std::marker::Model;

/// A circuit of 1 to 40 qubits and at most 4,096 gates. Each gate's qubits are below the count and differ where
/// there are two, times are below 2^32 and do not fall, and no two gates of one time share a qubit. Contracts see
/// its number of qubits and its list of gates.
#[derive(Drop)]
pub struct Circuit {
    qubits: u32,
    gates: Vec<Gate>,
}

impl Model for Circuit {
    ghost use Rattle.qh_gates.specs.Circuits.{Circuit, IsCircuit};

    ghost Value = { Circuit };

    ghost view = { λ c. record { qubits = c.qubits; gates = c.gates.items } };

    ghost invariant = { λ c. IsCircuit (record { qubits = c.qubits; gates = c.gates.items }) };
}

impl Circuit {
    ghost use Rattle.qh_gates.specs.Circuits.{IsCircuit, IsGate, total_weight};
    ghost use Rattle.qh_gates.specs.Faults.{Applies, NoneBefore, IsAccepted};

    /// The circuit of 1 to 40 qubits without gates. It takes no memory.
    pub fn start(alloc: Global, qubits: u32) -> Circuit
        requires some { 1 ≤ qubits }
        requires few { qubits ≤ max_qubits }
        ensures { result ≡ record { qubits = qubits; gates = [] } }
    {
        Circuit {
            qubits,
            gates: Vec::new(alloc),
        }
    }

    /// The number of qubits.
    pub fn qubits(&self) -> u32
        ensures value { result ≡ self.now.qubits }
        ensures valid { IsCircuit self.now }
    {
        self.qubits
    }

    /// The gates in the order in which they were pushed.
    pub fn gates(&self) -> &[Gate]
        ensures value { result.now ≡ self.now.gates }
        ensures valid { IsCircuit self.now }
    {
        self.gates.as_slice()
    }

    /// Whether the gate may be pushed: Err with the first fault that applies, in the order of `GateFault`.
    /// A gate on one qubit has to name it twice. It goes once over the gates and takes no memory.
    pub fn check(&self, gate: &Gate) -> Result<(), GateFault>
        requires { IsGate gate.now }
        ensures ok { OnOk result (IsAccepted self.now gate.now) }
        ensures first { IfErr result (λ f. Applies self.now gate.now f × NoneBefore self.now gate.now f) }
    {
        if is_out_of_range(self.qubits, gate) {
            return Err(GateFault::BadQubit);
        }
        if repeats_qubit(gate) {
            return Err(GateFault::SameQubit);
        }
        if is_before_any(self.gates.as_slice(), gate.time) {
            return Err(GateFault::TimeBack);
        }
        if overlaps_any(self.gates.as_slice(), gate) {
            return Err(GateFault::Overlap);
        }
        if self.gates.len() >= MAX_GATES {
            return Err(GateFault::Full);
        }
        Ok(())
    }

    /// Appends a gate that `check` accepts. An Err is want of memory, and the circuit is then unchanged.
    pub fn push(&mut self, gate: Gate) -> Result<(), AllocError>
        requires one { IsGate gate }
        requires accepted { IsAccepted self.old gate }
        ensures ok { OnOk result (self.new ≡ record self.old { gates = self.old.gates ++ gate ∷ [] }) }
        ensures err { OnErr result (self.new ≡ self.old) }
    {
        self.gates.push(gate)?;
        Ok(())
    }

    /// The number K of scaled gates: the amplitudes are the state's numbers over √2^K.
    pub fn weight(&self) -> u32
        ensures value { result ≡ total_weight self.now.gates }
        ensures bounded { result ≤ max_gates }
    {
        weight_in(self.gates.as_slice())
    }
}

/// The sum of the gates' weights.
fn weight_in(gates: &[Gate]) -> u32
    requires { length gates.now ≤ max_gates }
    ensures value { result ≡ total_weight gates.now }
    ensures bounded { result ≤ length gates.now }
{
    let mut total = 0;
    for gate in gates {
        total += scaled(gate.kind);
    }
    total
}

/// Whether one of the gates has a later time.
fn is_before_any(gates: &[Gate], time: u32) -> bool
    ensures { IsTrue result ↔ Any (λ h. time < h.time) gates.now }
{
    gates.iter().any(|h| time < h.time)
}

fn shares_qubit(g: &Gate, h: &Gate) -> bool
    ensures { IsTrue result ↔ Shares g.now h.now }
{
    g.q0 == h.q0 || g.q0 == h.q1 || g.q1 == h.q0 || g.q1 == h.q1
}

/// Whether one of the gates has the same time and a qubit in common.
fn overlaps_any(gates: &[Gate], gate: &Gate) -> bool
    ensures { IsTrue result ↔ Any (λ h. (h.time ≡ gate.now.time) × Shares gate.now h) gates.now }
{
    gates
        .iter()
        .any(|h| h.time == gate.time && shares_qubit(gate, h))
}

fn is_out_of_range(qubits: u32, gate: &Gate) -> bool
    ensures { IsTrue result ↔ ((qubits ≤ gate.now.q0) ⊎ (qubits ≤ gate.now.q1)) }
{
    gate.q0 >= qubits || gate.q1 >= qubits
}

fn repeats_qubit(gate: &Gate) -> bool
    ensures { IsTrue result ↔ ((qubits_of gate.now.kind ≡ 2) × (gate.now.q0 ≡ gate.now.q1)) }
{
    arity(gate.kind) == 2 && gate.q0 == gate.q1
}
