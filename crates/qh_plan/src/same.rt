//! Whether two circuits are one.
ghost use Rattle.std.specs.Prelude.{◌≡◌, ◌↔◌, IsTrue};

use qh_gates::{Circuit, Gate, Kind};

fn same_kind(one: Kind, two: Kind) -> bool
    ensures { IsTrue result ↔ (one ≡ two) }
{
    one == two
}

fn same_gate(one: &Gate, two: &Gate) -> bool
    ensures { IsTrue result ↔ (one.now ≡ two.now) }
{
    one.time == two.time && same_kind(one.kind, two.kind) && one.q0 == two.q0 && one.q1 == two.q1
}

fn same_gates(one: &[Gate], two: &[Gate]) -> bool
    ensures { IsTrue result ↔ (one.now ≡ two.now) }
{
    if one.len() != two.len() {
        return false;
    }
    for (i, gate) in one.iter().enumerate() {
        if !same_gate(gate, &two[i]) {
            return false;
        }
    }
    true
}

/// Whether the two have the same number of qubits and the same gates.
pub(crate) fn same_circuit(one: &Circuit, two: &Circuit) -> bool
    ensures { IsTrue result ↔ (one.now ≡ two.now) }
{
    one.qubits() == two.qubits() && same_gates(one.gates(), two.gates())
}
