//! The last of the gate lines so far.

ghost use Rattle.std.specs.Prelude.{◌≡◌, ◌≢◌, ℕ, ◌+◌, ◌==◌, ◌&&◌, ◌||◌, ◌<◌, ◌≤◌, List, [], ◌∷◌, ◌++◌, if◌then◌else◌};
ghost use Rattle.std.specs.Int.{bit_at};
ghost use Rattle.qh_gates.specs.declared.gate.Gate.{Gate as GateValue};
ghost use Rattle.qh_circuit.specs.Order.{IsLatest};

use qh_gates::Gate;

/// The time of the last gate line so far, and the qubits that gate lines of that time use: bit q stands for qubit q.
#[derive(Clone, Copy)]
pub struct Latest {
    pub time: u32,
    pub used: u64,
}

impl Latest {
    /// Before the first gate line.
    pub fn start() -> Latest
        ensures { IsLatest result [] }
    {
        Latest { time: 0, used: 0 }
    }

    /// Whether a gate line of the last time uses the qubit.
    fn uses(self, qubit: u32) -> bool
        requires { qubit < 64 }
        ensures { result ≡ (bit_at self.used qubit == 1) }
    {
        (self.used >> qubit) & 1 == 1
    }

    /// Whether a gate line of the gate's time uses one of its qubits.
    pub fn overlaps(self, gate: &Gate) -> bool
        requires first { gate.now.q0 < 64 }
        requires second { gate.now.q1 < 64 }
        ensures { result ≡ (gate.now.time == self.time && (bit_at self.used gate.now.q0 == 1 || bit_at self.used gate.now.q1 == 1)) }
    {
        if gate.time != self.time {
            return false;
        }
        if self.uses(gate.q0) {
            return true;
        }
        self.uses(gate.q1)
    }

    /// The qubits that gate lines of this time use, which is not before the last.
    fn used_at(self, time: u32) -> u64
        ensures { result ≡ (if time == self.time then self.used else 0) }
    {
        if time == self.time { self.used } else { 0 }
    }

    /// Behind one more gate line, whose time is not before the last.
    pub fn after(self, gate: &Gate) -> Latest
        requires first { gate.now.q0 < 64 }
        requires second { gate.now.q1 < 64 }
        ensures { (before : List GateValue) → IsLatest self before → self.time ≤ gate.now.time → IsLatest result (before ++ gate.now ∷ []) }
    {
        let used = with_qubit(self.used_at(gate.time), gate.q0);
        Latest {
            time: gate.time,
            used: with_qubit(used, gate.q1),
        }
    }
}

/// The qubits with one more.
fn with_qubit(used: u64, qubit: u32) -> u64
    requires { qubit < 64 }
    ensures same { bit_at result qubit ≡ 1 }
    ensures others { (other : ℕ) → other ≢ qubit → bit_at result other ≡ bit_at used other }
{
    used | (1 << qubit)
}
